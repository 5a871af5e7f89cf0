//! A fraction, read from a text such as `-3/2`, `.5` or `15e-1`.
ghost use Rattle.std.specs.Prelude.{◌≡◌, ◌↔◌, ◌<◌, ◌≤◌, ◌+◌, ◌-◌, ◌*◌, ◌^◌, ◌++◌, Bool, false, true, Ok, length, nat_le, ◌&&◌};
ghost use Rattle.std.specs.List.{list_all};
ghost use Rattle.std.specs.Char.{is_ascii_digit};
ghost use Rattle.std.specs.Str.Parse.{digits_value};
ghost use Rattle.spiel_frac.specs.Fraction.{Fraction, IsLowest, frac_text, most};
ghost use Rattle.spiel_frac.specs.Reading.{HasShortParts, behind_sign, exponent_of, frac_of, mantissa_of, scaled_of, sign_of, size_fraction};
ghost use Rattle.spiel_frac.specs.Spelling.{Number, Spells, are_sides, before_point, behind_point, ratio, scaled};
ghost use Rattle.spiel_frac.specs.Values.{fraction_of, is_minus, signed, times_tens, value_of};

use crate::cutting::cut;
use crate::digits::{all_digits, are_digits, short_value};
use crate::fault::BadNumber;
use crate::frac::Frac;

/// The most digits in a row.
const MOST_DIGITS: usize = 18;

/// The greatest size of an exponent.
const MOST_TENS: u64 = 18;

/// The fraction that the text spells, as `-3/2`, `.5` and `15e-1` do: digits over digits, or digits
/// with a point or without, times a power of ten or not. The faults are those of [`BadNumber`].
pub fn read_frac(text: &[u8]) -> Result<Frac, BadNumber>
    ensures value { result ≡ frac_of text.now }

    // What spells a number is answered with its value, and `Shape` is left for what spells none.
    ensures spelled { (n : Number) → Spells n text.now → result ≡ value_of n }
    ensures shape { (result ≡ Err BadNumber.Shape) ↔ ((n : Number) → ¬ (Spells n text.now)) }

    // What is written of a fraction is read again.
    ensures reads_back { (f : Fraction) → IsLowest f → HasShortParts f → text.now ≡ frac_text f
        → result ≡ Ok f }
{
    let negative = is_negative(text);
    let size = behind_sign(text);
    match cut(size, b'/') {
        Some((above, below)) => read_ratio(negative, above, below),
        None => read_scaled(negative, size),
    }
}

// Whether the text begins with a minus.
fn is_negative(text: &[u8]) -> bool
    ensures { result ≡ is_minus (sign_of text.now) }
{
    match text {
        [first, ..] => *first == b'-',
        [] => false,
    }
}

// What stands behind a sign, if there is one.
fn behind_sign(text: &[u8]) -> &[u8]
    ensures { result.now ≡ behind_sign text.now }
{
    match text {
        [b'+' | b'-', rest @ ..] => rest,
        _ => text,
    }
}

// The fraction of digits over digits.
fn read_ratio(negative: bool, above: &[u8], below: &[u8]) -> Result<Frac, BadNumber>
    ensures { result ≡ size_fraction negative (ratio above.now below.now) }
{
    if !are_digits(above) || !are_digits(below) {
        return Err(BadNumber::Shape);
    }
    if above.len() > MOST_DIGITS || below.len() > MOST_DIGITS {
        return Err(BadNumber::Digits);
    }
    fraction_of(
        negative,
        u128::from(short_value(above)),
        u128::from(short_value(below)),
    )
}

// The fraction of a mantissa, times a power of ten or not. None is as good as `e0`.
fn read_scaled(negative: bool, text: &[u8]) -> Result<Frac, BadNumber>
    ensures { result ≡ size_fraction negative (scaled_of text.now) }
{
    if let Some((mantissa, exponent)) = cut(text, b'e') {
        return read_decimal(negative, mantissa, exponent);
    }
    match cut(text, b'E') {
        Some((mantissa, exponent)) => read_decimal(negative, mantissa, exponent),
        None => read_decimal(negative, text, b"0"),
    }
}

// The fraction of a mantissa and an exponent.
fn read_decimal(negative: bool, mantissa: &[u8], exponent: &[u8]) -> Result<Frac, BadNumber>
    ensures { result ≡ size_fraction negative (scaled (mantissa_of mantissa.now) (exponent_of false exponent.now)) }
{
    let (digits, places) = sides_of_point(mantissa);
    let tens = behind_sign(exponent);
    if !are_sides(digits, places) || !are_digits(tens) {
        return Err(BadNumber::Shape);
    }
    if !are_short_sides(digits, places) || !are_few_tens(tens) {
        return Err(BadNumber::Digits);
    }
    let number = joined(digits, places);
    let places = places.len() as u32;
    let tens = short_value(tens) as u32;
    if is_negative(exponent) {
        times_tens(negative, number, 0, places + tens)
    } else {
        times_tens(negative, number, tens, places)
    }
}

// What stands before the first point, and what behind it, which is nothing where there is none.
fn sides_of_point(text: &[u8]) -> (&[u8], &[u8])
    ensures before { result.0.now ≡ before_point (mantissa_of text.now) }
    ensures behind { result.1.now ≡ behind_point (mantissa_of text.now) }
{
    match cut(text, b'.') {
        Some(sides) => sides,
        None => (text, b""),
    }
}

// Whether only digits stand on both sides of a point, and some on one of them.
fn are_sides(digits: &[u8], places: &[u8]) -> bool
    ensures { result ≡ are_sides digits.now places.now }
{
    if digits.is_empty() && places.is_empty() {
        return false;
    }
    all_digits(digits) && all_digits(places)
}

// Whether neither side has too many digits.
fn are_short_sides(digits: &[u8], places: &[u8]) -> bool
    ensures { result ≡ (nat_le (length digits.now) 18 && nat_le (length places.now) 18) }
{
    digits.len() <= MOST_DIGITS && places.len() <= MOST_DIGITS
}

// Whether the digits are those of an exponent that isn't too large.
fn are_few_tens(digits: &[u8]) -> bool
    requires { list_all is_ascii_digit digits.now ≡ true }
    ensures { result ≡ (nat_le (length digits.now) 18 && nat_le (digits_value 10 digits.now) 18) }
{
    digits.len() <= MOST_DIGITS && short_value(digits) <= MOST_TENS
}

// The number that the digits on both sides of a point write.
fn joined(digits: &[u8], places: &[u8]) -> u128
    requires digits { list_all is_ascii_digit digits.now ≡ true }
    requires places { list_all is_ascii_digit places.now ≡ true }
    requires short { length digits.now ≤ 18 }
    requires short_places { length places.now ≤ 18 }
    ensures value { result ≡ digits_value 10 (digits.now ++ places.now) }
    ensures small { result < 10 ^ (length digits.now + length places.now) }
{
    let shift = ten_to(places.len() as u32);
    u128::from(short_value(digits)) * shift + u128::from(short_value(places))
}

// A power of ten.
fn ten_to(count: u32) -> u128
    requires { count ≤ 36 }
    ensures { result ≡ 10 ^ count }
{
    10_u128.pow(count)
}

// The number times ten to the power `up - down`.
fn times_tens(negative: bool, number: u128, up: u32, down: u32) -> Result<Frac, BadNumber>
    requires up { up ≤ 18 }
    requires down { down ≤ 36 }
    requires small { number * 10 ^ (up - down) ≤ most }
    ensures { result ≡ fraction_of negative (times_tens number up down) }
{
    let top = number * ten_to(up.saturating_sub(down));
    let bottom = ten_to(down.saturating_sub(up));
    fraction_of(negative, top, bottom)
}

// The fraction with this sign and these parts.
fn fraction_of(negative: bool, top: u128, bottom: u128) -> Result<Frac, BadNumber>
    requires top { top ≤ most }
    requires bottom { bottom ≤ most }
    ensures { result ≡ fraction_of negative (top, bottom) }
{
    if bottom == 0 {
        return Err(BadNumber::ZeroDenominator);
    }
    let num = signed(negative, top);
    Frac::new(num, bottom as i128).ok_or(BadNumber::Digits)
}

// The number with this sign.
fn signed(negative: bool, size: u128) -> i128
    requires { size ≤ most }
    ensures { result ≡ signed negative size }
{
    let number = size as i128;
    if negative { -number } else { number }
}
