//! What is wrong with a game string, and what each fault says.
ghost use Rattle.std.specs.Prelude.{Some};
ghost use Rattle.spiel_string.specs.Faults.{fault_text};

use spiel_frac::NoMemory;
use std::error::Error;
use std::fmt;

/// Why a game string was refused. The first fault that holds, in this order, is the one that is
/// answered. Places count bytes from 0.
#[derive(Clone, Copy, Debug, PartialEq, Eq)]
pub enum StringFault {
    /// The text has more than 4,096 bytes.
    TooLong,
    /// The text isn't in the grammar. The first `at` bytes begin some text of the grammar, and no
    /// longer front does.
    Syntax { at: u32 },
    /// Brackets nest more than 8 deep.
    TooDeep,
    /// A key stands twice in one pair of brackets; the first such second key begins at `at`.
    Repeated { at: u32 },
    /// Memory ran out.
    NoMemory,
}

impl fmt::Display for StringFault {
    ghost output = { λ fault. Some (fault_text fault) };

    fn fmt<W: fmt::Write>(&self, f: &mut fmt::Formatter<W>) -> fmt::Result {
        match self {
            StringFault::TooLong => write!(f, "game string: too long"),
            StringFault::Syntax { at } => write!(f, "game string: syntax at {at}"),
            StringFault::TooDeep => write!(f, "game string: too deep"),
            StringFault::Repeated { at } => write!(f, "game string: repeated key at {at}"),
            StringFault::NoMemory => write!(f, "no memory"),
        }
    }
}

impl Error for StringFault {}

impl From<NoMemory> for StringFault {
    ghost use Rattle.std.specs.Prelude.{◌≡◌};
    ghost use Rattle.spiel_string.specs.declared.fault.StringFault.TheVariants.{NoMemory as StringNoMemory};

    ghost from_gives = { λ _ fault. fault ≡ StringNoMemory };

    fn from(_error: NoMemory) -> StringFault {
        StringFault::NoMemory
    }
}
