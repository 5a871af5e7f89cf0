//! What is told of a row that differs, in the form of a row.

use crate::comparing::Wanted;
use crate::running::Outcome;
use spiel_frac::{NoMemory, Text, cut, write_number};
use std::alloc::Global;

/// The most bytes that are told of a text.
const MOST: usize = 2000;

/// The hexadecimal digits.
static DIGITS: [u8; 16] = *b"0123456789abcdef";

/// Adds a byte as a row writes it.
fn push_byte(byte: u8, report: &mut Text) -> Result<(), NoMemory> {
    match byte {
        b'\\' => report.push(b"\\\\"),
        b'\t' => report.push(b"\\t"),
        b'\r' => report.push(b"\\r"),
        b' '..=b'~' => report.push(&[byte]),
        _ => {
            let high = DIGITS[(byte / 16) as usize];
            let low = DIGITS[(byte % 16) as usize];
            report.push(&[b'\\', b'x', high, low])
        }
    }
}

/// Adds a mark with a line behind it.
fn push_line(mark: &[u8], line: &[u8], report: &mut Text) -> Result<(), NoMemory> {
    report.push(mark)?;
    if !line.is_empty() {
        report.push(b" ")?;
    }
    for byte in line {
        push_byte(*byte, report)?;
    }
    Ok(())
}

/// Adds the lines of a text, each behind this mark.
fn push_lines(mark: &[u8], text: &[u8], report: &mut Text) -> Result<(), NoMemory> {
    let mut rest = text;
    while let Some((line, behind)) = cut(rest, b'\n') {
        push_line(mark, line, report)?;
        report.push(b"\n")?;
        rest = behind;
    }
    if rest.is_empty() {
        return Ok(());
    }
    push_line(mark, rest, report)?;
    report.push(b"\\\n")
}

/// Adds a number in decimal digits.
fn push_number(alloc: Global, number: u64, report: &mut Text) -> Result<(), NoMemory> {
    let digits = number.to_string(alloc)?;
    report.push(digits.as_bytes())
}

/// Adds the lines of a text, or its first ones and how many bytes are left out.
fn push_text(alloc: Global, mark: &[u8], text: &[u8], report: &mut Text) -> Result<(), NoMemory> {
    push_lines(mark, &text[..text.len().min(MOST)], report)?;
    let left = text.len().saturating_sub(MOST);
    if left == 0 {
        return Ok(());
    }
    report.push(b"and ")?;
    push_number(alloc, left as u64, report)?;
    report.push(b" bytes more\n")
}

/// Adds what was wanted and what came, where these differ.
fn push_texts(
    alloc: Global,
    mark: &[u8],
    wanted: &[u8],
    came: &[u8],
    report: &mut Text,
) -> Result<(), NoMemory> {
    if came == wanted {
        return Ok(());
    }
    report.push(b"wanted:\n")?;
    push_text(alloc, mark, wanted, report)?;
    report.push(b"came:\n")?;
    push_text(alloc, mark, came, report)
}

/// Adds a line with a number.
fn push_count(alloc: Global, name: &[u8], number: u64, report: &mut Text) -> Result<(), NoMemory> {
    report.push(name)?;
    report.push(b" ")?;
    push_number(alloc, number, report)?;
    report.push(b"\n")
}

/// Adds the number that was wanted and that which came, where these differ.
fn push_counts(
    alloc: Global,
    name: &[u8],
    wanted: u64,
    came: u64,
    report: &mut Text,
) -> Result<(), NoMemory> {
    if came == wanted {
        return Ok(());
    }
    report.push(b"wanted:\n")?;
    push_count(alloc, name, wanted, report)?;
    report.push(b"came:\n")?;
    push_count(alloc, name, came, report)
}

/// Adds each part that differs, as it was wanted and as it came.
pub fn push_difference(
    alloc: Global,
    wanted: &Wanted<'_>,
    outcome: &Outcome,
    report: &mut Text,
) -> Result<(), NoMemory> {
    let status = u64::from(outcome.status);
    push_counts(alloc, b"status", u64::from(wanted.status), status, report)?;
    push_texts(alloc, b">", wanted.out, outcome.out.taken(), report)?;
    push_texts(alloc, b"!", wanted.err, outcome.err.taken(), report)?;
    for (count, number) in wanted.counts {
        let came = outcome.count(*count);
        push_counts(alloc, count.name(), u64::from(*number), came, report)?;
    }
    Ok(())
}

/// Adds which call failed in a run.
pub fn push_call(alloc: Global, number: u32, report: &mut Text) -> Result<(), NoMemory> {
    report.push(b"with call ")?;
    write_number(number, report)?;
    report.push(b" failing\n")
}
