//! Whole numbers of 32 bits, written and read in decimal digits.
ghost use Rattle.std.specs.Prelude.{◌≡◌, ◌<◌, ◌^◌, ◌++◌, ℕ, length, slice_index, true, IsTrue, ◌↔◌, Some, OnOk, OnErr};
ghost use Rattle.std.specs.List.{list_all};
ghost use Rattle.std.specs.Char.{is_ascii_digit};
ghost use Rattle.std.specs.Fmt.{decimal};
ghost use Rattle.std.specs.Option.{SomeIff};
ghost use Rattle.std.specs.Str.Parse.{digits_value};
ghost use Rattle.spiel_frac.specs.Numbers.{decimal_number};

use crate::digits::{all_digits, parsed};
use crate::memory::NoMemory;
use crate::text::Text;
use itoa::Buffer;

/// Adds the decimal text of a number. After `NoMemory` the text is as it was.
pub fn write_number(number: u32, out: &mut Text) -> Result<(), NoMemory>
    ensures ok { OnOk result (out.new ≡ out.old ++ decimal number) }
    ensures err { OnErr result (out.new ≡ out.old) }
{
    let mut digits = Buffer::new();
    out.push(digits.format(number).as_bytes())
}

/// The number whose decimal text the bytes are: digits without a leading zero, or `0`. There is
/// none for any other bytes, nor past 4,294,967,295.
pub fn read_number(text: &[u8]) -> Option<u32>
    ensures value { result ≡ decimal_number text.now }
    ensures text { (n : ℕ) → n < 2 ^ 32 → ((result ≡ Some n) ↔ (text.now ≡ decimal n)) }
{
    if has_leading_zero(text) {
        return None;
    }
    if !all_digits(text) {
        return None;
    }
    parsed_narrow(text)
}

// Whether the text is longer than a digit and begins with a zero.
fn has_leading_zero(text: &[u8]) -> bool
    ensures { IsTrue result ↔ ((1 < length text.now) × (slice_index text.now 0 ≡ 48)) }
{
    text.len() > 1 && text[0] == b'0'
}

// The number that digits write, if there are any and it is below 2^32.
fn parsed_narrow(digits: &[u8]) -> Option<u32>
    requires { list_all is_ascii_digit digits.now ≡ true }
    ensures { SomeIff result ((0 < length digits.now) × (digits_value 10 digits.now < 2 ^ 32)) (digits_value 10 digits.now) }
{
    let number = parsed(digits)?;
    u32::try_from(number).ok()
}
