//! A row: the words, the files, which calls fail, and what is wanted.

use spiel_frac::{List, Text};
use std::num::NonZeroUsize;

/// Files, each a name with its bytes. Of two with one name the first counts.
pub type Files = List<(Text, Text)>;

/// Where a program writes.
#[derive(Clone, Copy, PartialEq, Eq)]
pub enum Stream {
    /// Standard output.
    Output,
    /// Standard error.
    Message,
}

/// What has calls that may fail.
#[derive(Clone, Copy, PartialEq, Eq)]
pub enum Device {
    /// The files.
    Shelf,
    /// A stream that is written.
    Sink(Stream),
}

/// A count that a row may name.
#[derive(Clone, Copy, PartialEq, Eq)]
pub enum Count {
    /// The calls of the shelf that failed.
    ShelfFaults,
    /// The calls of standard output that failed.
    OutputFaults,
    /// The calls of standard error that failed.
    MessageFaults,
    /// How often a file was begun that a word names.
    MainBegins,
    /// How often a file was begun that another text names.
    SideBegins,
    /// The bytes that are unread of the file that a word names.
    MainLeft,
    /// The bytes that are unread of the file that another text names.
    SideLeft,
}

impl Count {
    /// The words that begin its line.
    pub fn name(self) -> &'static [u8] {
        match self {
            Count::ShelfFaults => b"shelf faults",
            Count::OutputFaults => b"out faults",
            Count::MessageFaults => b"err faults",
            Count::MainBegins => b"main begins",
            Count::SideBegins => b"side begins",
            Count::MainLeft => b"main left",
            Count::SideLeft => b"side left",
        }
    }
}

/// How a sink behaves.
#[derive(Drop)]
pub struct SinkScript {
    /// The numbers of the calls that fail.
    pub failing: Option<List<u32>>,
    /// The most bytes that a call takes.
    pub most: Option<NonZeroUsize>,
    /// The most bytes that are taken in all.
    pub room: Option<u32>,
}

/// How the files and the sinks behave.
#[derive(Drop)]
pub struct Script {
    /// The numbers of the calls of the shelf that fail.
    pub shelf: Option<List<u32>>,
    /// How standard output behaves.
    pub out: SinkScript,
    /// How standard error behaves.
    pub err: SinkScript,
    /// Whose calls fail one after the other, each in a run of its own.
    pub each: Option<Device>,
}

/// What a row wants.
#[derive(Drop)]
pub struct Wants {
    /// The exit status.
    pub status: u8,
    /// All that is written to standard output.
    pub out: Text,
    /// All that is said on standard error.
    pub err: Text,
    /// The counts that are named.
    pub counts: List<(Count, u32)>,
}

/// All of a row but its files.
#[derive(Drop)]
pub struct Case {
    /// The number of its first line.
    pub line: u32,
    /// Its first comment.
    pub says: Text,
    /// The words behind the program's name.
    pub words: Vec<String>,
    /// How the files and the sinks behave.
    pub script: Script,
    /// What has to come of it.
    pub wants: Wants,
}

/// A row.
#[derive(Drop)]
pub struct Row {
    /// The files that it has.
    pub files: Files,
    /// All else.
    pub case: Case,
}
