//! Files in memory, of which chosen calls fail.
ghost use Rattle.std.specs.Prelude.{◌≡◌, ◌+◌, ◌^◌, ◌<◌, ◌≤◌, ◌==◌, ◌++◌, [], length, take, drop, min, Some, None, Option, IsTrue, IfOk, IfSome, MatchOption, MatchResult, is_err, is_none, false};
ghost use Rattle.spiel_io.specs.Outside.{Reading, counted, held, other, pick};
ghost use Rattle.spiel_io.specs.Steps.{Begins, Reads};
ghost use Rattle.spiel_io.specs.MemShelf.{CountsCall, IsScript, begin_fails, bytes_at, fails_now, is_steady, shelf_state};

use crate::numbers::is_listed;
use crate::outside::{Failed, Shelf, Slot};
use spiel_frac::{List, Text};

/// The rest of a begun file: its place among the files, and how many of its bytes were read.
#[derive(Clone, Copy)]
struct Rest {
    file: usize,
    from: usize,
}

/// What is read in a slot, and how often a file was begun in it.
#[derive(Clone, Copy)]
struct Place {
    rest: Option<Rest>,
    begins: u64,
}

/// Files in memory. It tells its bytes, and the calls with given numbers fail.
///
/// Its calls of `begin` and `next` are numbered together, from 0. A `begin` fails besides for a
/// name that no file has, and a `next` moves as many bytes as are left and as fit. Of two files with
/// one name the first counts. It is steady once no number of a failing call is still to come. No
/// call takes memory.
#[derive(Drop)]
pub struct MemShelf {
    files: List<(Text, Text)>,
    failing: List<u32>,
    calls: u64,
    main: Place,
    side: Place,
    faults: u64,
}

/// The place of the first file of this name.
fn find_file(files: &[(Text, Text)], name: &[u8]) -> Option<usize>
    ensures { MatchOption result (held files.now name.now ≡ None) (λ i. held files.now name.now ≡ Some (bytes_at files.now i)) }
{
    for (i, file) in files.iter().enumerate() {
        if file.0.bytes() == name {
            return Some(i);
        }
    }
    None
}

/// Copies bytes from this place on, as many as there are and as fit.
fn copy_from(bytes: &[u8], from: usize, buf: &mut [u8]) -> usize
    ensures within { result ≤ length buf.new }
    ensures moved { drop from bytes.now ≡ take result buf.new ++ drop (from + result) bytes.now }
    ensures end { result ≡ 0 → 0 < length buf.new → drop (from + result) bytes.now ≡ [] }
    ensures amount { result ≡ min (length (drop from bytes.now)) (length buf.new) }
    ensures rest { drop result buf.new ≡ drop result buf.old }
    ensures fits { from + result < 2 ^ 64 }
{
    if from >= bytes.len() {
        return 0;
    }
    let rest = &bytes[from..];
    let count = rest.len().min(buf.len());
    buf[..count].copy_from_slice(&rest[..count]);
    count
}

/// The bytes of the file at this place.
#[tactic(auto, using(crate::proofs::Memory::file_there, crate::proofs::Memory::file_past))]
fn file_bytes(files: &[(Text, Text)], i: usize) -> &[u8]
    ensures { result.now ≡ bytes_at files.now i }
{
    if i < files.len() {
        files[i].1.bytes()
    } else {
        &[]
    }
}

impl MemShelf {
    /// These files, each a name with its bytes, of which the calls with these numbers fail.
    ///
    /// Nothing is begun, and nothing is counted yet.
    pub fn new(files: List<(Text, Text)>, failing: List<u32>) -> MemShelf
        ensures files { (shelf_state result).files ≡ Some files }
        ensures idle { (slot : Slot) → (shelf_state result).reading slot ≡ record { left = []; begun = false; begins = 0 } }
        ensures faults { (shelf_state result).faults ≡ 0 }
        ensures script { IsScript failing result }
    {
        let unused = Place {
            rest: None,
            begins: 0,
        };
        MemShelf {
            files,
            failing,
            calls: 0,
            main: unused,
            side: unused,
            faults: 0,
        }
    }

    /// Counts a call, and answers whether it fails.
    fn call_fails(&mut self) -> bool
        ensures answer { result ≡ fails_now self.old }
        ensures after { self.new ≡ record self.old { calls = counted self.old.calls } }
        ensures stays_steady { IsTrue (is_steady self.old) → IsTrue (is_steady self.new) }
        ensures passes { IsTrue (is_steady self.old) → result ≡ false }
    {
        let number = self.calls;
        self.calls = self.calls.saturating_add(1);
        is_listed(self.failing.items(), number)
    }

    /// Counts a begin, and answers the place of the file, or nothing where the begin fails.
    fn begun_file(&mut self, name: &[u8]) -> Option<usize>
        ensures fails { is_none result ≡ begin_fails self.old name.now }
        ensures file { IfSome result (λ i. held self.old.files name.now ≡ Some (bytes_at self.old.files i)) }
        ensures after { self.new ≡ record self.old { calls = counted self.old.calls } }
        ensures stays_steady { IsTrue (is_steady self.old) → IsTrue (is_steady self.new) }
        ensures passes { IsTrue (is_steady self.old) → is_none result ≡ is_none (held self.old.files name.now) }
    {
        if self.call_fails() {
            return None;
        }
        find_file(self.files.items(), name)
    }

    fn place(&self, slot: Slot) -> Place
        ensures { result ≡ pick slot self.now.main self.now.side }
    {
        match slot {
            Slot::Main => self.main,
            Slot::Side => self.side,
        }
    }

    /// Sets a slot and the count of faults.
    fn set_place(&mut self, slot: Slot, place: Place, faults: u64)
        ensures place { pick slot self.new.main self.new.side ≡ place }
        ensures other { pick (other slot) self.new.main self.new.side ≡ pick (other slot) self.old.main self.old.side }
        ensures files { self.new.files ≡ self.old.files }
        ensures failing { self.new.failing ≡ self.old.failing }
        ensures calls { self.new.calls ≡ self.old.calls }
        ensures faults { self.new.faults ≡ faults }
    {
        match slot {
            Slot::Main => self.main = place,
            Slot::Side => self.side = place,
        }
        self.faults = faults;
    }

    /// How many bytes are left in the slot, or 0 where it has no begun file.
    pub fn left(&self, slot: Slot) -> usize
        ensures left { result ≡ length ((shelf_state self.now).reading slot).left }
        ensures idle { ((shelf_state self.now).reading slot).begun ≡ false → result ≡ 0 }
    {
        match self.place(slot).rest {
            None => 0,
            Some(rest) => file_bytes(self.files.items(), rest.file)
                .len()
                .saturating_sub(rest.from),
        }
    }

    /// How often a file was begun in the slot, also where that failed.
    pub fn begins(&self, slot: Slot) -> u64
        ensures { result ≡ ((shelf_state self.now).reading slot).begins }
    {
        self.place(slot).begins
    }

    /// How often a call has failed.
    pub fn faults(&self) -> u64
        ensures { result ≡ (shelf_state self.now).faults }
    {
        self.faults
    }
}

impl Shelf for MemShelf {
    ghost state = { shelf_state };

    fn begin(&mut self, slot: Slot, name: &[u8]) -> Result<(), Failed>
        ensures begins { Begins slot name.now (shelf_state self.old) (shelf_state self.new) result }
        ensures counts { CountsCall self.old self.new }

        // It fails exactly at the calls in `failing`, and for a name that isn't there.
        ensures fails { is_err result ≡ begin_fails self.old name.now }
    {
        let begins = self.place(slot).begins.saturating_add(1);
        let faults = self.faults;
        match self.begun_file(name) {
            Some(file) => {
                let rest = Some(Rest { file, from: 0 });
                self.set_place(slot, Place { rest, begins }, faults);
                Ok(())
            }
            None => {
                let unbegun = Place { rest: None, begins };
                self.set_place(slot, unbegun, faults.saturating_add(1));
                Err(Failed)
            }
        }
    }

    fn next(&mut self, slot: Slot, buf: &mut [u8]) -> Result<usize, Failed>
        requires { IsTrue ((shelf_state self.old).reading slot).begun }
        ensures reads { Reads slot (shelf_state self.old) (shelf_state self.new) buf.new result }
        ensures counts { CountsCall self.old self.new }

        // It fails exactly at the calls in `failing`, and else moves as much as is left and as fits.
        ensures fails { is_err result ≡ fails_now self.old }
        ensures moves_all { IfOk result (λ n. n ≡ min (length ((shelf_state self.old).reading slot).left) (length buf.new)) }

        // The rest of `buf` is as it was, and all of it after `Failed`.
        ensures rest { MatchResult result (λ n. drop n buf.new ≡ drop n buf.old) (λ fault. buf.new ≡ buf.old) }
    {
        let Place { rest, begins } = self.place(slot);
        let faults = self.faults;
        let Some(Rest { file, from }) = rest else {
            unreachable!()
        };
        if self.call_fails() {
            self.set_place(slot, Place { rest, begins }, faults.saturating_add(1));
            return Err(Failed);
        }
        let count = copy_from(file_bytes(self.files.items(), file), from, buf);
        let rest = Some(Rest {
            file,
            from: from + count,
        });
        self.set_place(slot, Place { rest, begins }, faults);
        Ok(count)
    }
}
