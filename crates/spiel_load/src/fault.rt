//! Why a game string names no game, and what is said of it.
ghost use Rattle.std.specs.Prelude.{Some};
ghost use Rattle.spiel_load.specs.Faults.{fault_text};

use spiel_api::WalkFault;
use spiel_efg::EfgFault;
use spiel_frac::{NoMemory, Text};
use spiel_io::FetchFault;
use spiel_layers::RepeatFault;
use std::error::Error;
use std::fmt;

/// Why a game string names no game. The first fault that holds is the one that is answered: of the
/// outermost game first, and in this order, but that a transform's inner game with all its faults comes
/// before `Repeat` and `Start`.
#[derive(Debug, Drop)]
pub enum LoadFault {
    /// No game has this name.
    UnknownGame { name: Text },
    /// The name is that of a fourth transform.
    TooDeep,
    /// The game of this name has no parameter of this key. It is the first such key.
    UnknownParam { name: Text, key: Text },
    /// The value that is given isn't one that the parameter may have, and the key is the first such
    /// key; or else the parameter has to be given and isn't.
    BadParam { name: Text, key: Text },
    /// The file of the game was not read, or has too many bytes.
    File(FetchFault),
    /// The file holds no extensive game.
    Efg(EfgFault),
    /// The stage game can't be played so often.
    Repeat(RepeatFault),
    /// The game doesn't begin with the numbers behind which it should start.
    Start(WalkFault),
    /// Memory ran out.
    NoMemory,
}

impl fmt::Display for LoadFault {
    ghost output = { λ fault. Some (fault_text fault) };

    fn fmt<W: fmt::Write>(&self, f: &mut fmt::Formatter<W>) -> fmt::Result {
        match self {
            LoadFault::UnknownGame { name } => write!(f, "unknown game {}", Shown(name)),
            LoadFault::TooDeep => write!(f, "more than three transforms"),
            LoadFault::UnknownParam { name, key } => {
                write!(f, "unknown parameter {} of {}", Shown(key), Shown(name))
            }
            LoadFault::BadParam { name, key } => {
                write!(f, "bad parameter {} of {}", Shown(key), Shown(name))
            }
            LoadFault::File(fault) => write!(f, "{fault}"),
            LoadFault::Efg(fault) => write!(f, "{fault}"),
            LoadFault::Repeat(fault) => write!(f, "{fault}"),
            LoadFault::Start(fault) => write!(f, "start: {fault}"),
            LoadFault::NoMemory => write!(f, "no memory"),
        }
    }
}

impl Error for LoadFault {}

impl From<NoMemory> for LoadFault {
    ghost use Rattle.std.specs.Prelude.{◌≡◌};
    ghost use Rattle.spiel_load.specs.declared.fault.LoadFault.TheVariants.{NoMemory as LoadNoMemory};

    ghost from_gives = { λ _ fault. fault ≡ LoadNoMemory };

    fn from(_error: NoMemory) -> LoadFault {
        LoadFault::NoMemory
    }
}

/// A name or a key, byte for byte. Those of a game string are ASCII; bytes that are no UTF-8 are an
/// error, since a formatter takes none.
#[derive(Clone, Copy)]
struct Shown<'a>(&'a Text);

impl fmt::Display for Shown<'_> {
    ghost output = { λ shown. Some shown.0.now };

    fn fmt<W: fmt::Write>(&self, f: &mut fmt::Formatter<W>) -> fmt::Result {
        match str::from_utf8(self.0.bytes()) {
            Ok(text) => f.write_str(text),
            Err(_) => Err(fmt::Error),
        }
    }
}
