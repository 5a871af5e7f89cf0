//! Why a text isn't read as a fraction, and what each fault says.
ghost use Rattle.std.specs.Prelude.{Some};
ghost use Rattle.spiel_frac.specs.Faults.{fault_text};

use std::error::Error;
use std::fmt;

/// Why a text isn't read as a fraction. The first that holds, in this order, is the one that is
/// answered.
#[derive(Clone, Copy, Debug, PartialEq, Eq)]
pub enum BadNumber {
    /// The text isn't of the form of a number.
    Shape,
    /// A run of digits has more than 18, the exponent is above 18 in size, or a part of the
    /// fraction in lowest terms passes 2^127 - 1. A denominator of 0 isn't counted here.
    Digits,
    /// The digits behind the slash are all zero.
    ZeroDenominator,
}

impl fmt::Display for BadNumber {
    ghost output = { λ fault. Some (fault_text fault) };

    fn fmt<W: fmt::Write>(&self, f: &mut fmt::Formatter<W>) -> fmt::Result {
        match self {
            BadNumber::Shape => write!(f, "no number"),
            BadNumber::Digits => write!(f, "number with too many digits"),
            BadNumber::ZeroDenominator => write!(f, "number with a denominator of 0"),
        }
    }
}

impl Error for BadNumber {}
