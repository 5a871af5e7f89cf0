//! What the reader of a game string keeps of what it has read.
ghost use Rattle.std.specs.Prelude.{◌≡◌, IfOk, OnOk, option_map};
ghost use Rattle.spiel_string.specs.Game.{inner};
ghost use Rattle.spiel_string.specs.View.{view, value_view};
ghost use Rattle.spiel_string.specs.Kept.{kept_view, nothing, with_byte, opened, keyed, value_read, ended, closed_up, closed_with, kept_after, game_read};

use crate::pairs::insert_pair;
use crate::scan::{Class, Mode};
use crate::value::{GameText, ParamValue};
use crate::words::word_value;
use spiel_frac::{List, NoMemory, Text};
use std::alloc::Global;
use std::mem;

/// An open bracket.
#[derive(Drop)]
pub struct Frame {
    /// The name before it.
    pub name: Text,
    /// The parameters that are whole, in byte order of their keys.
    pub params: Vec<(Text, ParamValue)>,
    /// The key whose value is being read.
    pub key: Text,
}

/// What is kept of what was read.
#[derive(Drop)]
pub struct Kept {
    /// The open brackets, the innermost last.
    pub frames: Vec<Frame>,
    /// The word that is being read.
    pub part: Text,
    /// The game whose bracket was closed last, until it goes to its key.
    pub last: Option<GameText>,
}

/// Nothing was read.
pub fn nothing(alloc: Global) -> Kept
    ensures { kept_view result ≡ nothing }
{
    Kept {
        frames: Vec::new(alloc),
        part: Text::new(alloc),
        last: None,
    }
}

// One byte more of the word.
fn push_byte(kept: &mut Kept, byte: u8) -> Result<(), NoMemory>
    ensures { OnOk result (kept_view kept.new ≡ with_byte byte (kept_view kept.old)) }
{
    kept.part.push(&[byte])
}

// The word opens a bracket.
fn open(alloc: Global, kept: &mut Kept) -> Result<(), NoMemory>
    ensures { OnOk result (kept_view kept.new ≡ opened (kept_view kept.old)) }
{
    let name = mem::replace(&mut kept.part, Text::new(alloc));
    kept.frames.push(Frame {
        name,
        params: Vec::new(alloc),
        key: Text::new(alloc),
    })?;
    Ok(())
}

// The word is a key.
fn set_key(alloc: Global, kept: &mut Kept) -> Result<(), NoMemory>
    ensures { OnOk result (kept_view kept.new ≡ keyed (kept_view kept.old)) }
{
    let part = mem::replace(&mut kept.part, Text::new(alloc));
    if let Some(mut frame) = kept.frames.pop() {
        frame.key = part;
        kept.frames.push(frame)?;
    }
    Ok(())
}

// The game as a value.
fn nested(alloc: Global, game: GameText) -> Result<ParamValue, NoMemory>
    ensures { IfOk result (λ v. value_view v ≡ inner (view game)) }
{
    Ok(ParamValue::Game(Box::new(alloc, game)?))
}

// The value that was read: the game, if there is one, and else that of the word.
fn value_read(alloc: Global, last: Option<GameText>, part: Text) -> Result<ParamValue, NoMemory>
    ensures { IfOk result (λ v. value_view v ≡ value_read (option_map view last) part) }
{
    match last {
        Some(game) => nested(alloc, game),
        None => Ok(word_value(part)),
    }
}

// The value goes to its key.
fn end_value(alloc: Global, kept: &mut Kept) -> Result<(), NoMemory>
    ensures { OnOk result (kept_view kept.new ≡ ended (kept_view kept.old)) }
{
    let part = mem::replace(&mut kept.part, Text::new(alloc));
    let last = kept.last.take();
    let value = value_read(alloc, last, part)?;
    if let Some(mut frame) = kept.frames.pop() {
        let key = mem::replace(&mut frame.key, Text::new(alloc));
        insert_pair(&mut frame.params, key, value)?;
        kept.frames.push(frame)?;
    }
    Ok(())
}

// These parameters, in their order.
fn listed(
    alloc: Global,
    params: Vec<(Text, ParamValue)>,
) -> Result<List<(Text, ParamValue)>, NoMemory>
    ensures { IfOk result (λ list. list ≡ params.items) }
{
    let mut list = List::new(alloc);
    for param in params {
        list.push(param)?;
    }
    Ok(list)
}

// The last bracket is closed.
fn close(alloc: Global, kept: &mut Kept) -> Result<(), NoMemory>
    ensures { OnOk result (kept_view kept.new ≡ closed_up (kept_view kept.old)) }
{
    match kept.frames.pop() {
        Some(
            Frame {
                name,
                params,
                key: _key,
            },
        ) => {
            let params = listed(alloc, params)?;
            kept.last = Some(GameText { name, params });
            Ok(())
        }
        None => {
            kept.last = None;
            Ok(())
        }
    }
}

// The last bracket is closed, by a byte that is read in this mode.
fn close_with(alloc: Global, kept: &mut Kept, mode: Mode) -> Result<(), NoMemory>
    ensures { OnOk result (kept_view kept.new ≡ closed_with mode (kept_view kept.old)) }
{
    if matches!(mode, Mode::Opened) {
        return close(alloc, kept);
    }
    end_value(alloc, kept)?;
    close(alloc, kept)
}

/// Keeps what a byte is for, which is read in this mode.
pub fn keep_byte(
    alloc: Global,
    kept: &mut Kept,
    mode: Mode,
    class: Class,
    byte: u8,
) -> Result<(), NoMemory>
    ensures { OnOk result (kept_view kept.new ≡ kept_after mode class byte (kept_view kept.old)) }
{
    match class {
        Class::Lower | Class::NameRest | Class::WordRest => push_byte(kept, byte),
        Class::Open => open(alloc, kept),
        Class::Equals => set_key(alloc, kept),
        Class::Comma => end_value(alloc, kept),
        Class::Close => close_with(alloc, kept, mode),
        Class::Space | Class::Other => Ok(()),
    }
}

/// The game that was read, at the end of a text.
pub fn game_read(alloc: Global, kept: Kept) -> GameText
    ensures { view result ≡ game_read (kept_view kept).last (kept_view kept).part }
{
    let Kept {
        frames: _frames,
        part,
        last,
    } = kept;
    match last {
        Some(game) => game,
        None => GameText {
            name: part,
            params: List::new(alloc),
        },
    }
}
