//! What is wrong with a saved file, and what each fault says.
ghost use Rattle.std.specs.Prelude.{Some};
ghost use Rattle.spiel_save.specs.Faults.{fault_text, in_game};

use spiel_frac::NoMemory;
use spiel_string::StringFault;
use std::error::Error;
use std::fmt;

/// Why a saved file was refused. The first fault that holds, in this order, is the one that is
/// answered.
#[derive(Clone, Copy, Debug, PartialEq, Eq)]
pub enum SavedFault {
    /// The lines around the game string aren't those of a saved file, or there are fewer than five.
    Header,
    /// The line of the game is no game string.
    Game(StringFault),
    /// The line with this number, counted from 1 in the whole file, is the first below the header
    /// that is no decimal number up to 4,294,967,295.
    Number { line: u32 },
    /// Memory ran out.
    NoMemory,
}

impl fmt::Display for SavedFault {
    ghost output = { λ fault. Some (fault_text fault) };

    fn fmt<W: fmt::Write>(&self, f: &mut fmt::Formatter<W>) -> fmt::Result {
        match self {
            SavedFault::Header => write!(f, "saved file: bad header"),
            SavedFault::Game(fault) => write!(f, "{fault}"),
            SavedFault::Number { line } => write!(f, "saved file: bad number on line {line}"),
            SavedFault::NoMemory => write!(f, "no memory"),
        }
    }
}

impl Error for SavedFault {}

impl From<NoMemory> for SavedFault {
    ghost use Rattle.std.specs.Prelude.{◌≡◌};
    ghost use Rattle.spiel_save.specs.declared.fault.SavedFault.TheVariants.{NoMemory as SavedNoMemory};

    ghost from_gives = { λ _ fault. fault ≡ SavedNoMemory };

    fn from(_error: NoMemory) -> SavedFault {
        SavedFault::NoMemory
    }
}

impl From<StringFault> for SavedFault {
    ghost use Rattle.std.specs.Prelude.{◌≡◌};

    ghost from_gives = { λ fault answer. answer ≡ in_game fault };

    fn from(fault: StringFault) -> SavedFault {
        match fault {
            StringFault::NoMemory => SavedFault::NoMemory,
            StringFault::TooLong
            | StringFault::Syntax { .. }
            | StringFault::TooDeep
            | StringFault::Repeated { .. } => SavedFault::Game(fault),
        }
    }
}
