//! Decimal digits, and the number that they write.
ghost use Rattle.std.specs.Prelude.{◌≡◌, ◌<◌, ◌≤◌, ◌^◌, ◌+◌, ◌++◌, length, true};
ghost use Rattle.std.specs.List.{list_all};
ghost use Rattle.std.specs.Char.{is_ascii_digit};
ghost use Rattle.std.specs.Option.{SomeIff};
ghost use Rattle.std.specs.Str.Parse.{digits_value};
ghost use Rattle.spiel_frac.specs.Spelling.{are_digits};

use std::str;

/// Whether each byte is a decimal digit.
pub fn all_digits(bytes: &[u8]) -> bool
    ensures { result ≡ list_all is_ascii_digit bytes.now }
{
    bytes.iter().all(|byte| byte.is_ascii_digit())
}

/// Whether the bytes are digits, at least one.
pub fn are_digits(bytes: &[u8]) -> bool
    ensures { result ≡ are_digits bytes.now }
{
    if bytes.is_empty() {
        return false;
    }
    all_digits(bytes)
}

/// The number that digits write, if there are any and it is below 2^64.
pub fn parsed(digits: &[u8]) -> Option<u64>
    requires { list_all is_ascii_digit digits.now ≡ true }
    ensures { SomeIff result ((0 < length digits.now) × (digits_value 10 digits.now < 2 ^ 64)) (digits_value 10 digits.now) }
{
    let text = str::from_utf8(digits).unwrap();
    text.parse::<u64>().ok()
}

/// The number that up to 18 digits write, which is 0 for none.
pub fn short_value(digits: &[u8]) -> u64
    requires digits { list_all is_ascii_digit digits.now ≡ true }
    requires short { length digits.now ≤ 18 }
    ensures value { result ≡ digits_value 10 digits.now }
    ensures small { result < 10 ^ length digits.now }
{
    parsed(digits).unwrap_or(0)
}
