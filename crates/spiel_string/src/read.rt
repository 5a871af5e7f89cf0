//! Reading a game string byte by byte, or its first fault.
ghost use Rattle.std.specs.Prelude.{◌≡◌, ◌<◌, ◌≤◌, ◌+◌, length, IfOk, IfErr, MatchBool, MatchResult, Ok};
ghost use Rattle.spiel_string.specs.Answer.{reading, IsAnswer, IsComputed};
ghost use Rattle.spiel_string.specs.Game.{Game};
ghost use Rattle.spiel_string.specs.Grammar.{IsSyntaxPlace};
ghost use Rattle.spiel_string.specs.Reading.{most_bytes, IsRead, IsFaultOf, MayRefuse, Gives, Refuses};
ghost use Rattle.spiel_string.specs.Stands.{Stands};
ghost use Rattle.spiel_string.specs.View.{view};
ghost use Rattle.spiel_string.specs.WellFormed.{EachGame, IsWellFormed};
ghost use Rattle.spiel_string.specs.declared.fault.StringFault.{StringFault};

use crate::fault::StringFault;
use crate::kept::{Kept, game_read, keep_byte, nothing};
use crate::scan::{Mode, class_of};
use crate::step::{may_end, next};
use crate::track::{first_after, from_after};
use crate::value::GameText;
use spiel_frac::NoMemory;
use std::alloc::Global;

/// The most bytes of a text.
const MOST_BYTES: usize = 4096;

/// The most brackets that may nest.
const MOST_BRACKETS: u32 = 8;

/// How far a game string is read.
#[derive(Drop)]
pub struct Reader {
    mode: Mode,
    /// How many brackets are open.
    depth: u32,
    /// The most that were open at once.
    deepest: u32,
    /// Where the word that is being read begins.
    from: usize,
    /// Where the first second key begins.
    first: Option<usize>,
    kept: Kept,
}

// The reader before the first byte.
fn start(alloc: Global, text: &[u8]) -> Reader
    ensures { Stands text.now 0 result }
{
    let _text = text;
    Reader {
        mode: Mode::Start,
        depth: 0,
        deepest: 0,
        from: 0,
        first: None,
        kept: nothing(alloc),
    }
}

// Reads the byte at a place. False where no such byte can stand there.
fn step(alloc: Global, reader: &mut Reader, text: &[u8], at: usize) -> Result<bool, NoMemory>
    requires within { at < length text.now }
    requires short { length text.now ≤ most_bytes }
    requires stands { Stands text.now at reader.old }
    ensures { IfOk result (λ went. MatchBool went (Stands text.now (at + 1) reader.new) (IsSyntaxPlace text.now at)) }
{
    let byte = text[at];
    let class = class_of(byte);
    let Some((mode, depth)) = next(reader.mode, reader.depth, class) else {
        return Ok(false);
    };
    let from = from_after(reader.mode, class, reader.from, at);
    let first = first_after(class, reader.first, reader.from, &reader.kept);
    keep_byte(alloc, &mut reader.kept, reader.mode, class, byte)?;
    reader.mode = mode;
    reader.depth = depth;
    reader.deepest = reader.deepest.max(depth);
    reader.from = from;
    reader.first = first;
    Ok(true)
}

// What was read, at the end of the text.
fn finish(alloc: Global, reader: Reader, text: &[u8]) -> Result<GameText, StringFault>
    requires short { length text.now ≤ most_bytes }
    requires stands { Stands text.now (length text.now) reader }
    ensures ok { IfOk result (λ game. IsRead text.now (view game)) }
    ensures err { IfErr result (MayRefuse text.now) }
{
    if !may_end(reader.mode) {
        return Err(StringFault::Syntax {
            at: text.len() as u32,
        });
    }
    if reader.deepest > MOST_BRACKETS {
        return Err(StringFault::TooDeep);
    }
    if let Some(at) = reader.first {
        return Err(StringFault::Repeated { at: at as u32 });
    }
    Ok(game_read(alloc, reader.kept))
}

// Reads a text from its first byte to its last.
fn read_text(alloc: Global, text: &[u8]) -> Result<GameText, StringFault>
    ensures ok { IfOk result (λ game. IsRead text.now (view game)) }
    ensures err { IfErr result (MayRefuse text.now) }
{
    if text.len() > MOST_BYTES {
        return Err(StringFault::TooLong);
    }
    let mut reader = start(alloc, text);
    for at in 0..text.len() {
        if !step(alloc, &mut reader, text, at)? {
            return Err(StringFault::Syntax { at: at as u32 });
        }
    }
    finish(alloc, reader, text)
}

/// The game that a string names, or the first fault of the string.
pub fn read_game(alloc: Global, text: &[u8]) -> Result<GameText, StringFault>
    ensures ok { IfOk result (λ game. IsRead text.now (view game)) }
    ensures err { IfErr result (MayRefuse text.now) }

    // What can be read is read, and a fault is answered, unless memory runs out.
    ensures read { (game : Game) → IsRead text.now game → Gives game result }
    ensures fault { (fault : StringFault) → IsFaultOf text.now fault → Refuses fault result }

    // The same as a function of the text, which is what the grammar tells.
    ensures computed { MatchResult result (λ game. reading text.now ≡ Ok (view game)) (IsComputed (reading text.now)) }
    ensures exact { IsAnswer text.now (reading text.now) }

    ensures well_formed { IfOk result (λ game. EachGame IsWellFormed (view game)) }
{
    read_text(alloc, text)
}
