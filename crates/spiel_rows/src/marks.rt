//! What the lines of a row begin with.

use crate::row::{Count, Device, Stream};

/// What a line says.
#[derive(Clone, Copy)]
pub enum Kind {
    /// What the row shows.
    Comment,
    /// The words of the command.
    Words,
    /// A name of a file.
    File,
    /// A line of the file that was named last.
    Content,
    /// A line that has to be written to standard output.
    Output,
    /// A line that has to be said on standard error.
    Message,
    /// The exit status.
    Status,
    /// The calls that fail.
    Fails(Device),
    /// The most bytes that a call takes.
    Takes(Stream),
    /// The most bytes that are taken in all.
    Room(Stream),
    /// A count.
    Count(Count),
}

/// What a line begins with, and what it then says.
#[derive(Clone, Copy)]
struct Mark {
    text: &'static [u8],
    kind: Kind,
}

static MARKS: [Mark; 21] = [
    Mark {
        text: b"#",
        kind: Kind::Comment,
    },
    Mark {
        text: b"$",
        kind: Kind::Words,
    },
    Mark {
        text: b"file",
        kind: Kind::File,
    },
    Mark {
        text: b"<",
        kind: Kind::Content,
    },
    Mark {
        text: b">",
        kind: Kind::Output,
    },
    Mark {
        text: b"!",
        kind: Kind::Message,
    },
    Mark {
        text: b"status",
        kind: Kind::Status,
    },
    Mark {
        text: b"shelf fails",
        kind: Kind::Fails(Device::Shelf),
    },
    Mark {
        text: b"out fails",
        kind: Kind::Fails(Device::Sink(Stream::Output)),
    },
    Mark {
        text: b"err fails",
        kind: Kind::Fails(Device::Sink(Stream::Message)),
    },
    Mark {
        text: b"out takes",
        kind: Kind::Takes(Stream::Output),
    },
    Mark {
        text: b"err takes",
        kind: Kind::Takes(Stream::Message),
    },
    Mark {
        text: b"out room",
        kind: Kind::Room(Stream::Output),
    },
    Mark {
        text: b"err room",
        kind: Kind::Room(Stream::Message),
    },
    Mark {
        text: b"shelf faults",
        kind: Kind::Count(Count::ShelfFaults),
    },
    Mark {
        text: b"out faults",
        kind: Kind::Count(Count::OutputFaults),
    },
    Mark {
        text: b"err faults",
        kind: Kind::Count(Count::MessageFaults),
    },
    Mark {
        text: b"main begins",
        kind: Kind::Count(Count::MainBegins),
    },
    Mark {
        text: b"side begins",
        kind: Kind::Count(Count::SideBegins),
    },
    Mark {
        text: b"main left",
        kind: Kind::Count(Count::MainLeft),
    },
    Mark {
        text: b"side left",
        kind: Kind::Count(Count::SideLeft),
    },
];

/// What follows the mark and a space, or nothing where the mark stands alone.
fn behind_mark<'a>(line: &'a [u8], mark: &[u8]) -> Option<&'a [u8]> {
    if line.len() < mark.len() || &line[..mark.len()] != mark {
        return None;
    }
    match &line[mark.len()..] {
        [] => Some(&[]),
        [b' ', rest @ ..] => Some(rest),
        _ => None,
    }
}

/// What a line says, and what follows its mark.
pub fn kind_of(line: &[u8]) -> Option<(Kind, &[u8])> {
    for mark in MARKS.iter() {
        if let Some(rest) = behind_mark(line, mark.text) {
            return Some((mark.kind, rest));
        }
    }
    None
}
