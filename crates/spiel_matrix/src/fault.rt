//! Why parts make no matrix game, and what each fault says.
ghost use Rattle.std.specs.Prelude.{Some};
ghost use Rattle.spiel_matrix.specs.FaultTexts.{fault_text};

use spiel_frac::NoMemory;
use std::error::Error;
use std::fmt;

/// Why parts make no matrix game. Of two faults that hold, the first in this order is answered.
#[derive(Clone, Copy, Debug, PartialEq, Eq)]
pub enum MatrixFault {
    /// There aren't 1 to 64 players, or not one list of strategies for each, or a list is empty, or
    /// contingencies times players pass 4,194,304, or there are more or fewer pays than that.
    Shape,
    /// The least common denominator of the pays, or the size of a pay in that unit, passes 2^62.
    PayTooFine,
    /// Memory ran out.
    NoMemory,
}

impl fmt::Display for MatrixFault {
    ghost output = { λ fault. Some (fault_text fault) };

    fn fmt<W: fmt::Write>(&self, f: &mut fmt::Formatter<W>) -> fmt::Result {
        match self {
            MatrixFault::Shape => write!(f, "wrong shape"),
            MatrixFault::PayTooFine => write!(f, "payoffs too fine"),
            MatrixFault::NoMemory => write!(f, "no memory"),
        }
    }
}

impl Error for MatrixFault {}

impl From<NoMemory> for MatrixFault {
    ghost use Rattle.std.specs.Prelude.{◌≡◌};
    ghost use Rattle.spiel_matrix.specs.declared.fault.MatrixFault.TheVariants.{NoMemory as MatrixNoMemory};

    ghost from_gives = { λ _ fault. fault ≡ MatrixNoMemory };

    fn from(_error: NoMemory) -> MatrixFault {
        MatrixFault::NoMemory
    }
}
