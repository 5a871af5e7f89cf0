//! Why words are no command, and what each fault says.
ghost use Rattle.spiel_words.specs.declared.fault.WordsFault.TheVariants.{NoMemory as OutOfMemory};
ghost use Rattle.spiel_words.specs.declared.fault.WordsFault.TheVariants.{Usage as NoCommand};
ghost use Rattle.clap.specs.Words.{kind_of};
ghost use Rattle.clap.specs.declared.error.kind.ErrorKind.TheVariants.{OutOfMemory as ClapOutOfMemory};
ghost use Rattle.std.specs.Prelude.{◌≡◌, ◌≢◌, Some};
ghost use Rattle.spiel_words.specs.FaultTexts.{fault_text};

use clap::error::ErrorKind;
use spiel_frac::NoMemory;
use std::alloc::AllocError;
use std::error::Error;
use std::fmt;

/// Why words are not read.
#[derive(Clone, Copy, Debug, PartialEq, Eq)]
pub enum WordsFault {
    /// They are no command: there is no verb or an unknown one, the number of positional words is
    /// wrong, a flag or an option is unknown or given twice, an option lacks its value or has an
    /// empty one, or a flag has a value.
    Usage,
    /// Memory ran out.
    NoMemory,
}

impl fmt::Display for WordsFault {
    ghost output = { λ fault. Some (fault_text fault) };

    fn fmt<W: fmt::Write>(&self, f: &mut fmt::Formatter<W>) -> fmt::Result {
        match self {
            WordsFault::Usage => write!(f, "usage: spiel VERB ARGUMENTS"),
            WordsFault::NoMemory => write!(f, "no memory"),
        }
    }
}

impl Error for WordsFault {}

impl From<AllocError> for WordsFault {
    ghost from_gives = { λ _ fault. fault ≡ OutOfMemory };

    fn from(_error: AllocError) -> WordsFault {
        WordsFault::NoMemory
    }
}

impl From<NoMemory> for WordsFault {
    ghost from_gives = { λ _ fault. fault ≡ OutOfMemory };

    fn from(_error: NoMemory) -> WordsFault {
        WordsFault::NoMemory
    }
}

impl From<clap::Error> for WordsFault {
    ghost from_gives = { λ error fault. fault ≡ NoCommand → kind_of error ≢ ClapOutOfMemory };

    fn from(error: clap::Error) -> WordsFault {
        match error.kind() {
            ErrorKind::OutOfMemory => WordsFault::NoMemory,
            _ => WordsFault::Usage,
        }
    }
}
