//! The words of a row's line, which are parted by spaces and may be quoted.
ghost use Rattle.std.specs.Prelude.{◌<◌, ◌≤◌, length, IfOk, IfSome};

use crate::bytes::push_bytes;
use crate::fault::{RowFault, Unread};
use spiel_frac::{List, NoMemory, Text, cut};
use std::alloc::Global;
use std::str;

/// What is behind the spaces at the front.
fn behind_spaces(text: &[u8]) -> &[u8]
    ensures { length result.now ≤ length text.now }
{
    for (i, byte) in text.iter().enumerate() {
        if *byte != b' ' {
            return &text[i..];
        }
    }
    &[]
}

/// Where a quotation ends: at the first quotation mark that no backslash stands for.
fn quotation_end(text: &[u8]) -> Option<usize>
    ensures { IfSome result (λ end. end < length text.now) }
{
    let mut is_escaped = false;
    for (i, byte) in text.iter().enumerate() {
        if *byte == b'"' && !is_escaped {
            return Some(i);
        }
        is_escaped = *byte == b'\\' && !is_escaped;
    }
    None
}

/// A quotation, and what is behind it: nothing, or what a space begins.
fn quotation(text: &[u8]) -> Option<(&[u8], &[u8])>
    ensures { IfSome result (λ sides. length sides.1.now ≤ length text.now) }
{
    let end = quotation_end(text)?;
    let rest = &text[end + 1..];
    match rest {
        [] | [b' ', ..] => Some((&text[..end], rest)),
        _ => None,
    }
}

/// A word as it is written, and what is behind it. The text begins with no space.
fn first_word(text: &[u8]) -> Result<(&[u8], &[u8]), RowFault>
    requires { 0 < length text.now }
    ensures { IfOk result (λ sides. length sides.1.now < length text.now) }
{
    if let [b'"', quoted @ ..] = text {
        return quotation(quoted).ok_or(RowFault::UnendedQuotation);
    }
    match cut(text, b' ') {
        Some(sides) => Ok(sides),
        None => Ok((text, &[])),
    }
}

/// The bytes of each word.
pub fn read_words(alloc: Global, line: &[u8]) -> Result<List<Text>, Unread> {
    let mut words = List::new(alloc);
    let mut rest = behind_spaces(line);
    while !rest.is_empty() {
        let (word, behind) = first_word(rest)?;
        let mut bytes = Text::new(alloc);
        push_bytes(alloc, word, &mut bytes)?;
        words.push(bytes)?;
        rest = behind_spaces(behind);
    }
    Ok(words)
}

/// Adds a word.
fn push_string(alloc: Global, text: &str, words: &mut Vec<String>) -> Result<(), NoMemory> {
    words.push(String::from_str(alloc, text)?)?;
    Ok(())
}

/// The words of a command.
pub fn read_command(alloc: Global, line: &[u8]) -> Result<Vec<String>, Unread> {
    let words = read_words(alloc, line)?;
    let mut command = Vec::new(alloc);
    for word in words.items() {
        let Ok(text) = str::from_utf8(word.bytes()) else {
            return Err(Unread::NoRow(RowFault::NoText));
        };
        push_string(alloc, text, &mut command)?;
    }
    Ok(command)
}

/// The name on the line of a file.
pub fn read_name(alloc: Global, line: &[u8]) -> Result<Text, Unread> {
    let words = read_words(alloc, line)?;
    let [word] = words.items() else {
        return Err(Unread::NoRow(RowFault::NotOneName));
    };
    let mut name = Text::new(alloc);
    name.push(word.bytes())?;
    Ok(name)
}
