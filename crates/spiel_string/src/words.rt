//! Whether a word of a game string is a whole number, a flag or a word.
ghost use Rattle.std.specs.Prelude.{◌≡◌, ◌<◌, ◌^◌, IfSome};
ghost use Rattle.spiel_string.specs.Values.{are_digits, is_true, is_false, digits_of, whole_of, word_value};
ghost use Rattle.spiel_string.specs.View.{value_view};

use crate::value::ParamValue;
use spiel_frac::{Text, all_digits, short_value};

/// The most digits of a whole number.
const MOST_DIGITS: usize = 18;

// Whether these are 1 to 18 digits.
fn are_digits(bytes: &[u8]) -> bool
    ensures { result ≡ are_digits bytes.now }
{
    if bytes.is_empty() {
        return false;
    }
    if bytes.len() > MOST_DIGITS {
        return false;
    }
    all_digits(bytes)
}

// The number of 1 to 18 digits.
fn digits(bytes: &[u8]) -> Option<u64>
    ensures value { result ≡ digits_of bytes.now }
    ensures small { IfSome result (λ n. n < 10 ^ 18) }
{
    if !are_digits(bytes) {
        return None;
    }
    Some(short_value(bytes))
}

// The whole number that a word reads as.
fn whole(bytes: &[u8]) -> Option<i64>
    ensures { result ≡ whole_of bytes.now }
{
    if let [b'-', rest @ ..] = bytes {
        let n = digits(rest)?;
        Some(-(n as i64))
    } else {
        let n = digits(bytes)?;
        Some(n as i64)
    }
}

fn is_true(bytes: &[u8]) -> bool
    ensures { result ≡ is_true bytes.now }
{
    bytes == b"True".as_slice() || bytes == b"true".as_slice()
}

fn is_false(bytes: &[u8]) -> bool
    ensures { result ≡ is_false bytes.now }
{
    bytes == b"False".as_slice() || bytes == b"false".as_slice()
}

/// The value of a word: a whole number, a flag, or else the word itself.
#[tactic(auto, unfolding(crate::specs::Values::word_value))]
pub fn word_value(word: Text) -> ParamValue
    ensures { value_view result ≡ word_value word }
{
    if let Some(n) = whole(word.bytes()) {
        return ParamValue::Int(n);
    }
    if is_true(word.bytes()) {
        return ParamValue::Flag(true);
    }
    if is_false(word.bytes()) {
        return ParamValue::Flag(false);
    }
    ParamValue::Word(word)
}
