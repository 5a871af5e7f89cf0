//! Reading a whole file from any shelf, and sending all bytes to any sink.
ghost use Rattle.std.specs.Prelude.{◌≡◌, ℕ, ◌≤◌, [], length, take, IsTrue, IsSome, IfOk, IfSome, OnOk, OnErr, Some};
ghost use Rattle.std.specs.Io.KnownBytes.{append_known};
ghost use Rattle.spiel_io.specs.Causes.{HasCause};
ghost use Rattle.spiel_io.specs.Outside.{counted, held, other};
ghost use Rattle.spiel_io.specs.FaultTexts.{fault_text};
ghost use Rattle.spiel_io.specs.Fetch.{HasFetchCause, IsFetched};
ghost use Rattle.spiel_io.specs.declared.calls.FetchFault.TheVariants.{NoMemory as OutOfMemory, Read};

use crate::outside::{Failed, Shelf, Sink, Slot};
use spiel_frac::{NoMemory, Text};
use std::alloc::Global;
use std::error::Error;
use std::fmt;

/// Why a file was not fetched.
#[derive(Clone, Copy, Debug, PartialEq, Eq)]
pub enum FetchFault {
    /// The file could not be begun, or a read failed.
    Read,
    /// The file has more bytes than the limit.
    TooLong,
    /// Memory ran out.
    NoMemory,
}

impl fmt::Display for FetchFault {
    ghost output = { λ fault. Some (fault_text fault) };

    fn fmt<W: fmt::Write>(&self, f: &mut fmt::Formatter<W>) -> fmt::Result {
        match self {
            FetchFault::Read => write!(f, "read fault"),
            FetchFault::TooLong => write!(f, "file too long"),
            FetchFault::NoMemory => write!(f, "no memory"),
        }
    }
}

impl Error for FetchFault {}

impl From<Failed> for FetchFault {
    ghost from_gives = { λ _ e. e ≡ Read };

    fn from(_failed: Failed) -> FetchFault {
        FetchFault::Read
    }
}

impl From<NoMemory> for FetchFault {
    ghost from_gives = { λ _ e. e ≡ OutOfMemory };

    fn from(_error: NoMemory) -> FetchFault {
        FetchFault::NoMemory
    }
}

/// All bytes of the file of this name, read in the slot, if they are at most `limit`.
///
/// `TooLong` comes exactly where no call failed before and the name gave more than `limit` bytes,
/// `Read` only where the shelf's count of faults rose in this call, and `NoMemory` where the text
/// can't grow. A steady shelf that holds the name gives no fault. After an error nothing is claimed
/// of what is left in the slot.
pub fn fetch<F: Shelf>(
    alloc: Global,
    shelf: &mut F,
    slot: Slot,
    name: &[u8],
    limit: usize,
) -> Result<Text, FetchFault>
    ensures same_files { (F.state shelf.new).files ≡ (F.state shelf.old).files }
    ensures bytes { IfSome (F.state shelf.old).files (λ files. IsFetched (held files name.now) limit result) }
    ensures within { IfOk result (λ text. length text ≤ limit) }
    ensures ended { IfSome (F.state shelf.old).files (λ files. OnOk result (((F.state shelf.new).reading slot).left ≡ [])) }

    // The slot is begun once, and the other one is as it was.
    ensures begins { ((F.state shelf.new).reading slot).begins ≡ counted ((F.state shelf.old).reading slot).begins }
    ensures other_slot { (F.state shelf.new).reading (other slot) ≡ (F.state shelf.old).reading (other slot) }

    // A read fault comes only where the count rose, by one, and after every other answer the count is as it was.
    ensures cause { HasFetchCause (F.state shelf.old).faults (F.state shelf.new).faults result }
    ensures one_fault { result ≡ Err Read → (F.state shelf.new).faults ≡ counted (F.state shelf.old).faults }
    ensures stays_steady { IsTrue (F.state shelf.old).steady → IsTrue (F.state shelf.new).steady }
    ensures no_fault { IsTrue (F.state shelf.old).steady → IfSome (F.state shelf.old).files (λ files.
        IsSome (held files name.now) → (F.state shelf.new).faults ≡ (F.state shelf.old).faults) }
{
    let mut text = Text::new(alloc);
    let mut buf = [0u8; 4096];
    shelf.begin(slot, name)?;
    'pieces: loop {
        let count = shelf.next(slot, &mut buf)?;
        if count == 0 {
            return Ok(text);
        }
        if count > limit - text.bytes().len() {
            return Err(FetchFault::TooLong);
        }
        text.push(&buf[..count])?;
    }
}

/// Passes on all bytes to the sink, piece by piece. After `Failed` a front of them was taken.
///
/// `Failed` comes only where the sink's count of faults rose in this call. It takes no memory.
pub fn send<O: Sink>(sink: &mut O, bytes: &[u8]) -> Result<(), Failed>
    ensures all { OnOk result ((O.state sink.new).taken ≡ append_known (O.state sink.old).taken bytes.now) }
    ensures front { (n : ℕ) × ((O.state sink.new).taken ≡ append_known (O.state sink.old).taken (take n bytes.now)) }
    ensures cause { HasCause (O.state sink.old).faults (O.state sink.new).faults result }
    ensures one_fault { OnErr result ((O.state sink.new).faults ≡ counted (O.state sink.old).faults) }
{
    let mut sent = 0;
    while sent < bytes.len() {
        sent += sink.put(&bytes[sent..])?;
    }
    Ok(())
}
