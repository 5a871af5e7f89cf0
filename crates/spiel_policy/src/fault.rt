//! What is wrong with a policy file, and what each fault says.
ghost use Rattle.std.specs.Prelude.{Some};
ghost use Rattle.spiel_policy.specs.FaultTexts.{fault_text};

use spiel_frac::{NoMemory, Text};
use std::alloc::AllocError;
use std::error::Error;
use std::{fmt, str};

/// What is wrong with a policy file. `Json` comes before `Head`, and both before all else. The first
/// entry with a fault decides, and in it the first of the faults from `Shape` to `Sum`. Entries are
/// counted from 0.
#[derive(Debug, Drop)]
pub enum PolicyFault {
    /// The bytes are no JSON value.
    Json,
    /// The value isn't an object with exactly the members `policy`, the number 1, and `states`, an
    /// array.
    Head,
    /// The entry isn't an object with exactly the members `player`, `state` and `actions` of the
    /// right kinds.
    Shape { entry: u32 },
    /// The tree has no information state of this player with this text.
    UnknownState { entry: u32 },
    /// An earlier entry is for the same information state.
    Repeated { entry: u32 },
    /// The entry names a number that isn't legal there, or one number twice.
    Action { entry: u32 },
    /// The least common multiple of the denominators passes 2^127 - 1.
    Overflow { entry: u32 },
    /// The sum of the weights isn't 1.
    Sum { entry: u32 },
    /// No entry is for the information state of this player with this text, and it is the first such.
    Missing { player: u32, text: Text },
    /// Memory ran out.
    NoMemory,
}

impl fmt::Display for PolicyFault {
    ghost output = { λ fault. Some (fault_text fault) };

    fn fmt<W: fmt::Write>(&self, f: &mut fmt::Formatter<W>) -> fmt::Result {
        match self {
            PolicyFault::Json => write!(f, "policy: not JSON"),
            PolicyFault::Head => write!(f, "policy: bad head"),
            PolicyFault::Shape { entry } => write!(f, "policy: bad shape in entry {entry}"),
            PolicyFault::UnknownState { entry } => {
                write!(f, "policy: unknown state in entry {entry}")
            }
            PolicyFault::Repeated { entry } => {
                write!(f, "policy: repeated state in entry {entry}")
            }
            PolicyFault::Action { entry } => write!(f, "policy: action in entry {entry}"),
            PolicyFault::Overflow { entry: _ } => write!(f, "numbers pass 127 bits"),
            PolicyFault::Sum { entry } => write!(f, "policy: sum in entry {entry}"),
            PolicyFault::Missing { player, text } => {
                let text = Shown(text);
                write!(f, "policy: no entry for player {player} state {text}")
            }
            PolicyFault::NoMemory => write!(f, "no memory"),
        }
    }
}

impl Error for PolicyFault {}

/// What a player sees, byte for byte. It is ASCII; bytes that are no UTF-8 are an error, since a
/// formatter takes none.
#[derive(Clone, Copy)]
struct Shown<'a>(&'a Text);

impl fmt::Display for Shown<'_> {
    ghost output = { λ shown. Some shown.0.now };

    fn fmt<W: fmt::Write>(&self, f: &mut fmt::Formatter<W>) -> fmt::Result {
        match str::from_utf8(self.0.bytes()) {
            Ok(text) => f.write_str(text),
            Err(_) => Err(fmt::Error),
        }
    }
}

impl From<NoMemory> for PolicyFault {
    ghost use Rattle.std.specs.Prelude.{◌≡◌};
    ghost use Rattle.spiel_policy.specs.declared.fault.PolicyFault.TheVariants.{NoMemory as PolicyNoMemory};

    ghost from_gives = { λ _ fault. fault ≡ PolicyNoMemory };

    fn from(_error: NoMemory) -> PolicyFault {
        PolicyFault::NoMemory
    }
}

impl From<AllocError> for PolicyFault {
    ghost use Rattle.std.specs.Prelude.{◌≡◌};
    ghost use Rattle.spiel_policy.specs.declared.fault.PolicyFault.TheVariants.{NoMemory as PolicyNoMemory};

    ghost from_gives = { λ _ fault. fault ≡ PolicyNoMemory };

    fn from(_error: AllocError) -> PolicyFault {
        PolicyFault::NoMemory
    }
}
