//! Why parts make no extensive game, and what each fault says.
ghost use Rattle.std.specs.Prelude.{Some};
ghost use Rattle.spiel_efg.specs.Faults.{parts_fault_text};

use spiel_frac::NoMemory;
use std::error::Error;
use std::fmt;

/// Why parts make no extensive game.
#[derive(Clone, Copy, Debug, PartialEq, Eq)]
pub enum PartsFault {
    /// The parts aren't sound.
    Bad,
    /// Memory ran out.
    NoMemory,
}

impl fmt::Display for PartsFault {
    ghost output = { λ fault. Some (parts_fault_text fault) };

    fn fmt<W: fmt::Write>(&self, f: &mut fmt::Formatter<W>) -> fmt::Result {
        match self {
            PartsFault::Bad => write!(f, "bad parts"),
            PartsFault::NoMemory => write!(f, "no memory"),
        }
    }
}

impl Error for PartsFault {}

impl From<NoMemory> for PartsFault {
    ghost use Rattle.std.specs.Prelude.{◌≡◌};
    ghost use Rattle.spiel_efg.specs.declared.fault.PartsFault.TheVariants.{NoMemory as PartsNoMemory};

    ghost from_gives = { λ _ fault. fault ≡ PartsNoMemory };

    fn from(_error: NoMemory) -> PartsFault {
        PartsFault::NoMemory
    }
}
