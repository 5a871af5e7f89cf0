//! The rows of a file, which are parted by empty lines.
ghost use Rattle.std.specs.Prelude.{◌<◌, ◌≤◌, length};

use crate::fault::{RowFault, Unread};
use crate::reading::read_row;
use crate::row::{Case, Row};
use crate::running::run_row;
use crate::tally::{Stop, Tally};
use spiel_frac::{NoMemory, Text, cut, write_number};
use spiel_io::{Sink, send};
use std::alloc::Global;

/// What stands before the first empty line, and what behind it.
fn cut_paragraph(text: &[u8]) -> (&[u8], &[u8])
    requires { 0 < length text.now }
    ensures { length result.1.now < length text.now }
{
    if let [b'\n', rest @ ..] = text {
        return (&[], rest);
    }
    for (at, byte) in text.iter().enumerate() {
        if let [b'\n', rest @ ..] = &text[at + 1..]
            && *byte == b'\n'
        {
            return (&text[..at], rest);
        }
    }
    (text, &[])
}

/// How many line feeds there are.
fn line_feeds(text: &[u8]) -> u32 {
    let mut count = 0u32;
    for byte in text {
        if *byte == b'\n' {
            count = count.saturating_add(1);
        }
    }
    count
}

/// Whether a comment stands alone.
fn is_heading(text: &[u8]) -> bool {
    let mut rest = text;
    while let Some((line, behind)) = cut(rest, b'\n') {
        if !is_comment(line) {
            return false;
        }
        rest = behind;
    }
    is_comment(rest)
}

fn is_comment(line: &[u8]) -> bool {
    matches!(line, [b'#', ..])
}

/// Adds the name of the file and the number of the line.
fn push_place(alloc: Global, name: &[u8], line: u32, report: &mut Text) -> Result<(), NoMemory> {
    report.push(name)?;
    report.push(b":")?;
    write_number(line, report)?;
    report.push(b": ")
}

/// Tells why there is no row.
fn push_fault(fault: RowFault, report: &mut Text) -> Result<(), NoMemory> {
    report.push(b"no row: ")?;
    report.push(fault.text())?;
    report.push(b"\n")
}

/// Adds the line that tells which row it is, and what it shows.
fn push_title(alloc: Global, name: &[u8], case: &Case, report: &mut Text) -> Result<(), NoMemory> {
    push_place(alloc, name, case.line, report)?;
    report.push(case.says.bytes())?;
    report.push(b"\n")
}

/// Runs a row, and answers whether it agrees. It is told what it shows, and what differs.
fn judge_row(alloc: Global, name: &[u8], row: Row, report: &mut Text) -> Result<bool, NoMemory> {
    let Row { files, case } = row;
    push_title(alloc, name, &case, report)?;
    run_row(alloc, &case, files, report)
}

/// Reads a row and runs it, and answers whether it is one that agrees.
fn judge_text(
    alloc: Global,
    name: &[u8],
    text: &[u8],
    line: u32,
    report: &mut Text,
) -> Result<bool, NoMemory> {
    let mut at = line;
    match read_row(alloc, text, line, &mut at) {
        Ok(row) => judge_row(alloc, name, row, report),
        Err(Unread::NoMemory) => Err(NoMemory),
        Err(Unread::NoRow(fault)) => {
            push_place(alloc, name, at, report)?;
            push_fault(fault, report)?;
            Ok(false)
        }
    }
}

/// Writes the report on a row that doesn't agree.
fn tell<O: Sink>(agrees: bool, report: &Text, out: &mut O) -> Result<(), Stop> {
    if agrees {
        return Ok(());
    }
    send(out, report.bytes())?;
    Ok(())
}

/// The text without a line feed at its end.
fn without_end(text: &[u8]) -> &[u8] {
    match text {
        [front @ .., b'\n'] => front,
        _ => text,
    }
}

/// Runs what stands between two empty lines: a row, a heading, or nothing.
fn run_paragraph<O: Sink>(
    alloc: Global,
    name: &[u8],
    text: &[u8],
    line: u32,
    out: &mut O,
    tally: &mut Tally,
) -> Result<(), Stop>
    ensures { tally.old.others ≤ tally.new.others }
{
    let text = without_end(text);
    if text.is_empty() || is_heading(text) {
        return Ok(());
    }
    let mut report = Text::new(alloc);
    let agrees = judge_text(alloc, name, text, line, &mut report)?;
    tally.count(agrees);
    tell(agrees, &report, out)
}

/// Runs the rows of a text, one after the other.
pub fn run_rows<O: Sink>(
    alloc: Global,
    name: &[u8],
    text: &[u8],
    out: &mut O,
    tally: &mut Tally,
) -> Result<(), Stop>
    ensures { tally.old.others ≤ tally.new.others }
{
    let mut rest = text;
    let mut line = 1u32;
    while !rest.is_empty() {
        let (paragraph, behind) = cut_paragraph(rest);
        run_paragraph(alloc, name, paragraph, line, out, tally)?;
        line = line.saturating_add(line_feeds(&rest[..rest.len() - behind.len()]));
        rest = behind;
    }
    Ok(())
}
