//! What files are read from and bytes are written to: the traits of shelves and sinks.
ghost use Rattle.std.specs.Prelude.{IsTrue, Some, codes};
ghost use Rattle.spiel_io.specs.Outside.{ShelfState, SinkState};
ghost use Rattle.spiel_io.specs.Steps.{Begins, Reads, Takes};

use std::error::Error;
use std::fmt;

/// A read or a write failed.
#[derive(Clone, Copy, Debug, PartialEq, Eq)]
pub struct Failed;

impl fmt::Display for Failed {
    ghost output = { λ _. Some (codes "a read or a write failed") };

    fn fmt<W: fmt::Write>(&self, f: &mut fmt::Formatter<W>) -> fmt::Result {
        write!(f, "a read or a write failed")
    }
}

impl Error for Failed {}

/// A place on a shelf where one file at a time is read.
#[derive(Clone, Copy, Debug, PartialEq, Eq)]
pub enum Slot {
    /// For a file that the words of a command name.
    Main,
    /// For a file that another text names.
    Side,
}

/// Where files are read from.
///
/// A shelf tells which bytes each name holds, or claims nothing of them; no call changes that.
/// It counts its failed calls, and the begins of each slot, also those that fail, each count up to
/// the greatest `u64`. On a steady shelf the count of faults rises only at the begin of a name that
/// isn't there.
pub trait Shelf {
    /// What a contract sees of the shelf.
    ghost state: { Self → ShelfState };

    /// Begins to read the file of this name in the slot, in place of what was read there.
    ///
    /// After `Failed` the slot has no begun file. A shelf that tells its bytes answers `Failed` for
    /// a name that it doesn't hold.
    fn begin(&mut self, slot: Slot, name: &[u8]) -> Result<(), Failed>
        ensures { Begins slot name.now (state self.old) (state self.new) result };

    /// Moves bytes from the front of what is left in the slot to the front of `buf`, and answers
    /// how many: 0 only where nothing is left or `buf` is empty.
    ///
    /// The slot must have a begun file. After `Failed` what is left is as before. Nothing is claimed
    /// of what `buf` holds after those bytes, or after `Failed`.
    fn next(&mut self, slot: Slot, buf: &mut [u8]) -> Result<usize, Failed>
        requires { IsTrue ((state self.old).reading slot).begun }
        ensures { Reads slot (state self.old) (state self.new) buf.new result };
}

/// Where bytes are written to.
///
/// A sink tells what it has taken, or claims nothing of it; no call changes that. It counts its
/// failed calls, up to the greatest `u64`.
pub trait Sink {
    /// What a contract sees of the sink.
    ghost state: { Self → SinkState };

    /// Takes a front of the piece and answers its length, which is 0 only for an empty piece.
    ///
    /// After `Failed` what the sink has taken is as before.
    fn put(&mut self, piece: &[u8]) -> Result<usize, Failed>
        ensures { Takes piece.now (state self.old) (state self.new) result };
}
