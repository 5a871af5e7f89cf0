//! Real files, standard input, standard output and standard error.
ghost use Rattle.std.specs.Prelude.{◌≡◌, ◌≤◌, [], length, None, IfSome, is_some, false};
ghost use Rattle.spiel_io.specs.Outside.{Reading};
ghost use Rattle.spiel_io.specs.Host.{shelf_state, sink_state};
ghost use Rattle.spiel_io.specs.declared.outside.Slot.{Slot};

use crate::outside::{Failed, Shelf, Sink, Slot};
use std::io::Read;
use std::rt::Files;
use std::{fs, str};

/// What a slot reads from: a begun file, or standard input.
#[derive(Drop)]
enum Source<F, I> {
    File(F),
    Input(I),
}

/// Real files. The name `-` is standard input.
///
/// It claims nothing of their bytes. A name that isn't UTF-8 can't be begun. Where a call wants
/// memory and finds none, it counts a fault.
#[derive(Drop)]
pub struct HostShelf<'a, R: Files + Input> {
    rt: &'a R,
    main: Option<Source<R::File, R::Reader>>,
    side: Option<Source<R::File, R::Reader>>,
    main_begins: u64,
    side_begins: u64,
    faults: u64,
}

/// Begins to read a file, or standard input.
fn open<R: Files + Input>(rt: &R, name: &[u8]) -> Option<Source<R::File, R::Reader>> {
    if name == b"-".as_slice() {
        return Some(Source::Input(rt.reader()));
    }
    let path = str::from_utf8(name).ok()?;
    let file = fs::open(rt, path).ok()?;
    Some(Source::File(file))
}

/// Reads some bytes, or answers that there are none to be had.
fn read_some<F: Read, I: Read>(source: &mut Option<Source<F, I>>, buf: &mut [u8]) -> Option<usize>
    ensures within { IfSome result (λ n. n ≤ length buf.new) }
    ensures same { is_some source.new ≡ is_some source.old }
{
    match source {
        None => None,
        Some(Source::File(file)) => file.read(buf).ok(),
        Some(Source::Input(input)) => input.read(buf).ok(),
    }
}

impl<'a, R: Files + Input> HostShelf<'a, R> {
    /// The files of this runtime, of which none is begun.
    pub fn new(rt: &'a R) -> HostShelf<'a, R>
        ensures untold { (shelf_state result).files ≡ None }
        ensures idle { (slot : Slot) → (shelf_state result).reading slot ≡ record { left = []; begun = false; begins = 0 } }
        ensures faults { (shelf_state result).faults ≡ 0 }
    {
        HostShelf {
            rt,
            main: None,
            side: None,
            main_begins: 0,
            side_begins: 0,
            faults: 0,
        }
    }
}

impl<R: Files + Input> Shelf for HostShelf<'_, R> {
    ghost state = { shelf_state };

    fn begin(&mut self, slot: Slot, name: &[u8]) -> Result<(), Failed> {
        let source = open(self.rt, name);
        let is_open = source.is_some();
        match slot {
            Slot::Main => {
                self.main = source;
                self.main_begins = self.main_begins.saturating_add(1);
            }
            Slot::Side => {
                self.side = source;
                self.side_begins = self.side_begins.saturating_add(1);
            }
        }
        if is_open {
            return Ok(());
        }
        self.faults = self.faults.saturating_add(1);
        Err(Failed)
    }

    fn next(&mut self, slot: Slot, buf: &mut [u8]) -> Result<usize, Failed> {
        let count = match slot {
            Slot::Main => read_some(&mut self.main, buf),
            Slot::Side => read_some(&mut self.side, buf),
        };
        match count {
            Some(count) => Ok(count),
            None => {
                self.faults = self.faults.saturating_add(1);
                Err(Failed)
            }
        }
    }
}

/// Which stream a sink writes.
#[derive(Clone, Copy)]
enum Stream {
    Output,
    Message,
}

/// Standard output or standard error.
///
/// It claims nothing of what was written before.
#[derive(Drop)]
pub struct HostSink<'a> {
    rt: &'a HostRuntime,
    stream: Stream,
    faults: u64,
}

impl<'a> HostSink<'a> {
    /// Standard output.
    pub fn output(rt: &'a HostRuntime) -> HostSink<'a>
        ensures untold { (sink_state result).taken ≡ None }
        ensures faults { (sink_state result).faults ≡ 0 }
    {
        HostSink {
            rt,
            stream: Stream::Output,
            faults: 0,
        }
    }

    /// Standard error.
    pub fn message(rt: &'a HostRuntime) -> HostSink<'a>
        ensures untold { (sink_state result).taken ≡ None }
        ensures faults { (sink_state result).faults ≡ 0 }
    {
        HostSink {
            rt,
            stream: Stream::Message,
            faults: 0,
        }
    }
}

impl Sink for HostSink<'_> {
    ghost state = { sink_state };

    fn put(&mut self, piece: &[u8]) -> Result<usize, Failed> {
        let count = match self.stream {
            Stream::Output => self.rt.stdout().write_some(piece),
            Stream::Message => self.rt.stderr().write_some(piece),
        };
        match count {
            Ok(count) if count > 0 || piece.is_empty() => Ok(count),
            _ => {
                self.faults = self.faults.saturating_add(1);
                Err(Failed)
            }
        }
    }
}
