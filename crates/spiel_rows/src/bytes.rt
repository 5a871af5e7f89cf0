//! The bytes that a row writes, where a backslash with what follows it stands for bytes.
ghost use Rattle.std.specs.Prelude.{◌≡◌, ◌<◌, ◌++◌, None, IfSome, OnOk, IfOk, length};
ghost use Rattle.spiel_frac.specs.Cuts.{cut};

use crate::fault::{RowFault, Unread};
use spiel_frac::{NoMemory, Text, cut, read_number};
use std::alloc::Global;

/// About how many bytes of a repeated text are added at a time.
const PIECE: usize = 4096;

/// The value of a hexadecimal digit.
fn hex_value(digit: u8) -> Option<u8>
    ensures { IfSome result (λ value. value < 16) }
{
    match digit {
        b'0'..=b'9' => Some(digit - b'0'),
        b'a'..=b'f' => Some(digit - b'a' + 10),
        _ => None,
    }
}

/// The byte of two hexadecimal digits.
fn hex_byte(high: u8, low: u8) -> Option<u8> {
    let high = hex_value(high)?;
    let low = hex_value(low)?;
    Some(high * 16 + low)
}

/// The byte that what follows a backslash stands for, and what is behind it.
fn one_byte(text: &[u8]) -> Option<(u8, &[u8])>
    ensures { IfSome result (λ sides. length sides.1.now < length text.now) }
{
    match text {
        [b'\\', rest @ ..] => Some((b'\\', rest)),
        [b'"', rest @ ..] => Some((b'"', rest)),
        [b'n', rest @ ..] => Some((b'\n', rest)),
        [b'r', rest @ ..] => Some((b'\r', rest)),
        [b't', rest @ ..] => Some((b'\t', rest)),
        [b'x', high, low, rest @ ..] => Some((hex_byte(*high, *low)?, rest)),
        _ => None,
    }
}

/// Adds the bytes that a text without a repeat stands for.
fn push_plain(text: &[u8], out: &mut Text) -> Result<(), Unread> {
    let mut rest = text;
    while let Some((plain, behind)) = cut(rest, b'\\') {
        out.push(plain)?;
        let (byte, behind) = one_byte(behind).ok_or(RowFault::UnknownEscape)?;
        out.push(&[byte])?;
        rest = behind;
    }
    out.push(rest)?;
    Ok(())
}

/// Adds the bytes so many times.
fn push_times(bytes: &[u8], times: u32, out: &mut Text) -> Result<(), NoMemory> {
    for _ in 0..times {
        out.push(bytes)?;
    }
    Ok(())
}

/// Adds the bytes so many times, by pieces of some length.
fn push_repeated(alloc: Global, bytes: &[u8], times: u32, out: &mut Text) -> Result<(), NoMemory> {
    if bytes.is_empty() {
        return Ok(());
    }
    let most = (PIECE / bytes.len()).max(1) as u32;
    let mut piece = Text::new(alloc);
    push_times(bytes, most.min(times), &mut piece)?;
    push_times(piece.bytes(), times / most, out)?;
    push_times(bytes, times % most, out)
}

/// The number, the text and what is behind a repeat, which begins behind its brace.
fn repeat_parts(text: &[u8]) -> Option<(u32, &[u8], &[u8])>
    ensures { IfSome result (λ parts. length parts.2.now < length text.now) }
{
    let (number, behind) = cut(text, b':')?;
    let (repeated, rest) = cut(behind, b'}')?;
    Some((read_number(number)?, repeated, rest))
}

/// Adds what a repeat stands for, and answers what is behind it.
fn push_repeat<'a>(alloc: Global, text: &'a [u8], out: &mut Text) -> Result<&'a [u8], Unread>
    ensures { IfOk result (λ rest. length rest.now < length text.now) }
{
    let (times, repeated, rest) = repeat_parts(text).ok_or(RowFault::UnknownEscape)?;
    let mut bytes = Text::new(alloc);
    push_plain(repeated, &mut bytes)?;
    push_repeated(alloc, bytes.bytes(), times, out)?;
    Ok(rest)
}

/// Adds what a backslash stands for with what follows it, and answers what is behind.
fn push_escape<'a>(alloc: Global, text: &'a [u8], out: &mut Text) -> Result<&'a [u8], Unread>
    ensures { IfOk result (λ rest. length rest.now < length text.now) }
{
    if let [b'{', rest @ ..] = text {
        return push_repeat(alloc, rest, out);
    }
    let (byte, rest) = one_byte(text).ok_or(RowFault::UnknownEscape)?;
    out.push(&[byte])?;
    Ok(rest)
}

/// Adds the bytes that the text stands for. One without a backslash stands for itself.
pub fn push_bytes(alloc: Global, text: &[u8], out: &mut Text) -> Result<(), Unread>
    ensures plain { cut 92 text.now ≡ None → OnOk result (out.new ≡ out.old ++ text.now) }
{
    let mut rest = text;
    while let Some((plain, behind)) = cut(rest, b'\\') {
        out.push(plain)?;
        rest = push_escape(alloc, behind, out)?;
    }
    out.push(rest)?;
    Ok(())
}

/// Whether the text ends with a backslash that no other one stands for.
fn ends_open(text: &[u8]) -> bool {
    let mut is_open = false;
    for byte in text {
        is_open = *byte == b'\\' && !is_open;
    }
    is_open
}

/// Adds the bytes of a line, which ends with a line feed, unless a backslash stands at its end.
pub fn push_line(alloc: Global, text: &[u8], out: &mut Text) -> Result<(), Unread> {
    if let [front @ .., b'\\'] = text
        && ends_open(text)
    {
        return push_bytes(alloc, front, out);
    }
    push_bytes(alloc, text, out)?;
    out.push(b"\n")?;
    Ok(())
}
