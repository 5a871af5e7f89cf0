//! How many rows agree, and how a run of them ends.
ghost use Rattle.std.specs.Prelude.{◌≡◌, ◌≤◌, ◌+◌, ◌-◌, ◌^◌, ◌↔◌, min, if◌then◌else◌};

use spiel_frac::{NoMemory, Text, write_number};
use spiel_io::{Failed, FetchFault};
use std::alloc::Global;

/// How many rows agree, and how many don't or are none.
#[derive(Drop)]
pub struct Tally {
    /// Rows that agree.
    pub agreeing: u32,
    /// Rows that don't, and what is no row.
    pub others: u32,
}

impl Tally {
    /// No row yet.
    pub fn new() -> Tally
        ensures agreeing { result.agreeing ≡ 0 }
        ensures others { result.others ≡ 0 }
    {
        Tally {
            agreeing: 0,
            others: 0,
        }
    }

    /// Counts a row, each count up to its last value.
    pub fn count(&mut self, agrees: bool)
        ensures agreeing { self.new.agreeing ≡ (if agrees then min (self.old.agreeing + 1) (2 ^ 32 - 1) else self.old.agreeing) }
        ensures others { self.new.others ≡ (if agrees then self.old.others else min (self.old.others + 1) (2 ^ 32 - 1)) }
        ensures grows { self.old.others ≤ self.new.others }
    {
        if agrees {
            self.agreeing = self.agreeing.saturating_add(1);
        } else {
            self.others = self.others.saturating_add(1);
        }
    }

    /// The exit status: 0 where all rows agree, and else 1.
    pub fn status(&self) -> u8
        ensures good { (result ≡ 0) ↔ (self.now.others ≡ 0) }
        ensures bad { result ≤ 1 }
    {
        if self.others == 0 { 0 } else { 1 }
    }

    /// Adds the line that tells both counts.
    pub fn push_text(&self, alloc: Global, text: &mut Text) -> Result<(), NoMemory> {
        write_number(self.agreeing, text)?;
        text.push(b" rows agree, ")?;
        write_number(self.others, text)?;
        text.push(b" don't\n")
    }
}

/// Why the rest of the rows isn't run.
#[derive(Clone, Copy)]
pub enum Stop {
    /// A file can't be read, or is too long.
    Read,
    /// Standard output can't be written.
    Write,
    /// Memory ran out.
    NoMemory,
}

impl Stop {
    /// What is said of it.
    pub fn message(self) -> &'static [u8] {
        match self {
            Stop::Read => b"spiel_rows: read fault\n",
            Stop::Write => b"spiel_rows: write fault\n",
            Stop::NoMemory => b"spiel_rows: no memory\n",
        }
    }

    /// The exit status.
    pub fn status(self) -> u8 {
        match self {
            Stop::Read => 3,
            Stop::Write => 7,
            Stop::NoMemory => 8,
        }
    }
}

impl From<NoMemory> for Stop {
    fn from(_error: NoMemory) -> Stop {
        Stop::NoMemory
    }
}

impl From<Failed> for Stop {
    fn from(_failed: Failed) -> Stop {
        Stop::Write
    }
}

impl From<FetchFault> for Stop {
    fn from(fault: FetchFault) -> Stop {
        match fault {
            FetchFault::Read | FetchFault::TooLong => Stop::Read,
            FetchFault::NoMemory => Stop::NoMemory,
        }
    }
}
