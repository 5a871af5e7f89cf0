//! Where the word that is being read begins, and where the first repeated key stands.
ghost use Rattle.std.specs.Prelude.{◌≡◌};
ghost use Rattle.std.specs.List.{list_any};
ghost use Rattle.std.specs.Str.{bytes_eq};
ghost use Rattle.spiel_string.specs.Kept.{kept_view};
ghost use Rattle.spiel_string.specs.Tracking.{from_after, first_after, is_again};

use crate::kept::Kept;
use crate::scan::{Class, Mode};
use crate::value::ParamValue;
use spiel_frac::Text;

/// Where the word that is being read begins, after a byte at the place `at`.
pub fn from_after(mode: Mode, class: Class, from: usize, at: usize) -> usize
    ensures { result ≡ from_after mode class from at }
{
    match (mode, class) {
        (Mode::Opened | Mode::KeyDue, Class::Lower) => at,
        _ => from,
    }
}

fn is_key(text: &Text, key: &[u8]) -> bool
    ensures { result ≡ bytes_eq key.now text.now }
{
    key == text.bytes()
}

fn has_key(params: &[(Text, ParamValue)], key: &[u8]) -> bool
    ensures { result ≡ list_any (λ p. bytes_eq key.now p.0) params.now }
{
    params.iter().any(|param| is_key(&param.0, key))
}

// Whether the word stands as a key in the last bracket.
fn is_again(kept: &Kept) -> bool
    ensures { result ≡ is_again (kept_view kept.now) }
{
    match kept.frames.last() {
        Some(frame) => has_key(&frame.params, kept.part.bytes()),
        None => false,
    }
}

/// The place of the first second key, after a byte; the word before it begins at `from`.
pub fn first_after(class: Class, first: Option<usize>, from: usize, kept: &Kept) -> Option<usize>
    ensures { result ≡ first_after class first from (kept_view kept.now) }
{
    match (class, first) {
        (Class::Equals, None) => { if is_again(kept) { Some(from) } else { None } }
        (_, first) => first,
    }
}
