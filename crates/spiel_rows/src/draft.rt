//! A row whose lines are being read.

use crate::bytes::push_line;
use crate::fault::{RowFault, Unread};
use crate::marks::{Kind, kind_of};
use crate::row::{Case, Count, Device, Files, Row, Script, SinkScript, Stream, Wants};
use crate::words::{read_command, read_name};
use spiel_frac::{List, NoMemory, Text, read_number, read_numbers};
use std::alloc::Global;
use std::mem;
use std::num::NonZeroUsize;

/// What the lines of a row have said so far.
#[derive(Drop)]
pub struct Draft {
    case: Case,
    has_comment: bool,
    has_words: bool,
    has_status: bool,
    files: Files,
    /// The name of the file that is being read, and what there is of it.
    name: Option<Text>,
    content: Text,
}

/// Fills a place that one line of a row may fill.
fn fill<T: Drop>(place: &mut Option<T>, value: T) -> Result<(), Unread> {
    if place.is_some() {
        return Err(Unread::NoRow(RowFault::SecondLine));
    }
    *place = Some(value);
    Ok(())
}

/// The number that the text is.
fn number(text: &[u8]) -> Result<u32, RowFault> {
    read_number(text).ok_or(RowFault::BadNumber)
}

/// The exit status that the text is.
fn status(text: &[u8]) -> Result<u8, RowFault> {
    u8::try_from(number(text)?).map_err(|_| RowFault::BadNumber)
}

/// The number above 0 that the text is.
fn amount(text: &[u8]) -> Result<NonZeroUsize, RowFault> {
    NonZeroUsize::new(number(text)? as usize).ok_or(RowFault::BadNumber)
}

/// The numbers that are listed.
fn numbers(alloc: Global, text: &[u8]) -> Result<List<u32>, Unread> {
    match read_numbers(alloc, text, b' ')? {
        Some(numbers) => Ok(numbers),
        None => Err(Unread::NoRow(RowFault::BadNumber)),
    }
}

/// Whether the count is among those that are named.
fn names(counts: &[(Count, u32)], count: Count) -> bool {
    for named in counts {
        if named.0 == count {
            return true;
        }
    }
    false
}

impl SinkScript {
    /// A sink whose calls don't fail, with ample room.
    fn new() -> SinkScript {
        SinkScript {
            failing: None,
            most: None,
            room: None,
        }
    }
}

impl Script {
    /// The script of this stream.
    fn sink(&mut self, stream: Stream) -> &mut SinkScript {
        match stream {
            Stream::Output => &mut self.out,
            Stream::Message => &mut self.err,
        }
    }

    /// Says which calls fail.
    fn fail(&mut self, device: Device, calls: List<u32>) -> Result<(), Unread> {
        match device {
            Device::Shelf => fill(&mut self.shelf, calls),
            Device::Sink(stream) => fill(&mut self.sink(stream).failing, calls),
        }
    }

    /// Says how many bytes a call takes.
    fn take(&mut self, stream: Stream, text: &[u8]) -> Result<(), Unread> {
        fill(&mut self.sink(stream).most, amount(text)?)
    }

    /// Says how many bytes are taken in all.
    fn limit(&mut self, stream: Stream, text: &[u8]) -> Result<(), Unread> {
        fill(&mut self.sink(stream).room, number(text)?)
    }

    /// Says that the calls fail one after the other.
    fn fail_each(&mut self, alloc: Global, device: Device) -> Result<(), Unread> {
        if self.each.is_some() {
            return Err(Unread::NoRow(RowFault::SecondEach));
        }
        self.each = Some(device);
        self.fail(device, List::new(alloc))
    }
}

impl Draft {
    /// A row without a line, which begins on this one.
    pub fn new(alloc: Global, line: u32) -> Draft {
        let script = Script {
            shelf: None,
            out: SinkScript::new(),
            err: SinkScript::new(),
            each: None,
        };
        let wants = Wants {
            status: 0,
            out: Text::new(alloc),
            err: Text::new(alloc),
            counts: List::new(alloc),
        };
        Draft {
            case: Case {
                line,
                says: Text::new(alloc),
                words: Vec::new(alloc),
                script,
                wants,
            },
            has_comment: false,
            has_words: false,
            has_status: false,
            files: List::new(alloc),
            name: None,
            content: Text::new(alloc),
        }
    }

    /// Adds a line.
    pub fn add(&mut self, alloc: Global, line: &[u8]) -> Result<(), Unread> {
        let (kind, rest) = kind_of(line).ok_or(RowFault::UnknownLine)?;
        self.check_place(kind)?;
        match kind {
            Kind::Comment => self.add_comment(rest),
            Kind::Words => self.add_words(alloc, rest),
            Kind::File => self.add_file(alloc, rest),
            Kind::Content => self.add_content(alloc, rest),
            Kind::Output => push_line(alloc, rest, &mut self.case.wants.out),
            Kind::Message => push_line(alloc, rest, &mut self.case.wants.err),
            Kind::Status => self.add_status(rest),
            Kind::Fails(device) => self.add_fails(alloc, device, rest),
            Kind::Takes(stream) => self.case.script.take(stream, rest),
            Kind::Room(stream) => self.case.script.limit(stream, rest),
            Kind::Count(count) => self.add_count(count, rest),
        }
    }

    /// Comments come first, then the words, then all else.
    fn check_place(&self, kind: Kind) -> Result<(), RowFault> {
        match kind {
            Kind::Comment if self.has_words => Err(RowFault::LateComment),
            Kind::Comment => Ok(()),
            _ if !self.has_comment => Err(RowFault::NoComment),
            Kind::Words => Ok(()),
            _ if !self.has_words => Err(RowFault::NoWords),
            _ => Ok(()),
        }
    }

    /// Keeps the first comment.
    fn add_comment(&mut self, text: &[u8]) -> Result<(), Unread> {
        if !self.has_comment {
            self.case.says.push(text)?;
            self.has_comment = true;
        }
        Ok(())
    }

    fn add_words(&mut self, alloc: Global, text: &[u8]) -> Result<(), Unread> {
        let words = read_command(alloc, text)?;
        if self.has_words {
            return Err(Unread::NoRow(RowFault::SecondLine));
        }
        self.case.words = words;
        self.has_words = true;
        Ok(())
    }

    fn add_status(&mut self, text: &[u8]) -> Result<(), Unread> {
        let status = status(text)?;
        if self.has_status {
            return Err(Unread::NoRow(RowFault::SecondLine));
        }
        self.case.wants.status = status;
        self.has_status = true;
        Ok(())
    }

    /// Ends the file that was named last, and begins one.
    fn add_file(&mut self, alloc: Global, line: &[u8]) -> Result<(), Unread> {
        let name = read_name(alloc, line)?;
        self.end_file(alloc)?;
        self.name = Some(name);
        Ok(())
    }

    /// Ends the file that was named last.
    fn end_file(&mut self, alloc: Global) -> Result<(), NoMemory> {
        let content = mem::replace(&mut self.content, Text::new(alloc));
        match self.name.take() {
            Some(name) => self.files.push((name, content)),
            None => Ok(()),
        }
    }

    fn add_content(&mut self, alloc: Global, text: &[u8]) -> Result<(), Unread> {
        if self.name.is_none() {
            return Err(Unread::NoRow(RowFault::NoFile));
        }
        push_line(alloc, text, &mut self.content)
    }

    fn add_fails(&mut self, alloc: Global, device: Device, text: &[u8]) -> Result<(), Unread> {
        if text == b"each".as_slice() {
            return self.case.script.fail_each(alloc, device);
        }
        self.case.script.fail(device, numbers(alloc, text)?)
    }

    fn add_count(&mut self, count: Count, text: &[u8]) -> Result<(), Unread> {
        let number = number(text)?;
        let counts = &mut self.case.wants.counts;
        if names(counts.items(), count) {
            return Err(Unread::NoRow(RowFault::SecondLine));
        }
        counts.push((count, number))?;
        Ok(())
    }

    /// What each row has and this one hasn't.
    fn missing(&self) -> Option<RowFault> {
        if !self.has_comment {
            return Some(RowFault::NoComment);
        }
        if !self.has_words {
            return Some(RowFault::NoWords);
        }
        if !self.has_status {
            return Some(RowFault::NoStatus);
        }
        None
    }

    /// Ends what the lines have said.
    fn end(&mut self, alloc: Global) -> Result<(), Unread> {
        self.end_file(alloc)?;
        match self.missing() {
            Some(fault) => Err(Unread::NoRow(fault)),
            None => Ok(()),
        }
    }

    /// The row, with all that its lines have said.
    pub fn finish(mut self, alloc: Global) -> Result<Row, Unread> {
        self.end(alloc)?;
        Ok(Row {
            files: self.files,
            case: self.case,
        })
    }
}
