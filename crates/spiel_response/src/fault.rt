//! Why a policy isn't judged, and what each fault says.
ghost use Rattle.std.specs.Prelude.{Some};
ghost use Rattle.spiel_response.specs.FaultTexts.{fault_text};

use spiel_frac::NoMemory;
use std::error::Error;
use std::fmt;

/// Why a policy isn't judged.
#[derive(Clone, Copy, Debug, PartialEq, Eq)]
pub enum JudgeFault {
    /// Twice the denominator of the values, or the sizes of all that is summed, pass 2^127 - 1.
    Overflow,
    /// Memory ran out.
    NoMemory,
}

impl fmt::Display for JudgeFault {
    ghost output = { λ fault. Some (fault_text fault) };

    fn fmt<W: fmt::Write>(&self, f: &mut fmt::Formatter<W>) -> fmt::Result {
        match self {
            JudgeFault::Overflow => write!(f, "numbers pass 127 bits"),
            JudgeFault::NoMemory => write!(f, "no memory"),
        }
    }
}

impl Error for JudgeFault {}

impl From<NoMemory> for JudgeFault {
    ghost use Rattle.std.specs.Prelude.{◌≡◌};
    ghost use Rattle.spiel_response.specs.declared.fault.JudgeFault.TheVariants.{NoMemory as JudgeNoMemory};

    ghost from_gives = { λ _ fault. fault ≡ JudgeNoMemory };

    fn from(_error: NoMemory) -> JudgeFault {
        JudgeFault::NoMemory
    }
}
