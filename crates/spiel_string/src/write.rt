//! Writing the canonical text of a game string's value.
ghost use Rattle.std.specs.Prelude.{◌≡◌, ◌++◌, ◌∷◌, [], IfOk, OnOk, OnErr, ◌≤◌, length};
ghost use Rattle.std.specs.Fmt.{signed_decimal};
ghost use Rattle.spiel_string.specs.Canonical.{value_text, game_text, joined, comma_at};
ghost use Rattle.spiel_string.specs.Reading.{most_bytes, IsRead};
ghost use Rattle.spiel_string.specs.View.{view, value_view};
ghost use Rattle.spiel_string.specs.WellFormed.{IsWellFormed};

use crate::pairs::insert_pair;
use crate::value::{GameText, ParamValue};
use spiel_frac::{NoMemory, Text};
use std::alloc::Global;

fn text_of(alloc: Global, bytes: &[u8]) -> Result<Text, NoMemory>
    ensures { IfOk result (λ t. t ≡ bytes.now) }
{
    let mut out = Text::new(alloc);
    out.push(bytes)?;
    Ok(out)
}

fn number_text(alloc: Global, n: i64) -> Result<Text, NoMemory>
    ensures { IfOk result (λ t. t ≡ signed_decimal n) }
{
    let digits = format!(in alloc; "{n}")?;
    text_of(alloc, digits.as_bytes())
}

// Adds the comma before the entry at a place.
fn push_comma(out: &mut Text, at: usize) -> Result<(), NoMemory>
    ensures { OnOk result (out.new ≡ out.old ++ comma_at at) }
{
    if at == 0 { Ok(()) } else { out.push(b",") }
}

// Adds the entry at a place, a key and the text of its value.
fn push_entry(out: &mut Text, at: usize, entry: &(Text, Text)) -> Result<(), NoMemory>
    ensures { OnOk result (out.new ≡ out.old ++ (comma_at at ++ (entry.now.0 ++ 61 ∷ entry.now.1))) }
{
    push_comma(out, at)?;
    out.push(entry.0.bytes())?;
    out.push(b"=")?;
    out.push(entry.1.bytes())
}

// The entries with a comma between two.
fn joined(alloc: Global, entries: &[(Text, Text)]) -> Result<Text, NoMemory>
    ensures { IfOk result (λ t. t ≡ joined entries.now) }
{
    let mut out = Text::new(alloc);
    for (at, entry) in entries.iter().enumerate() {
        push_entry(&mut out, at, entry)?;
    }
    Ok(out)
}

// The name, and the entries between brackets.
fn bracketed(alloc: Global, name: &[u8], entries: &[(Text, Text)]) -> Result<Text, NoMemory>
    ensures { IfOk result (λ t. t ≡ name.now ++ 40 ∷ (joined entries.now ++ 41 ∷ [])) }
{
    let inside = joined(alloc, entries)?;
    let mut out = Text::new(alloc);
    out.push(name)?;
    out.push(b"(")?;
    out.push(inside.bytes())?;
    out.push(b")")?;
    Ok(out)
}

#[cycle(write)]
fn value_text(alloc: Global, value: &ParamValue) -> Result<Text, NoMemory>
    ensures { IfOk result (λ t. t ≡ value_text (value_view value.now)) }
{
    match value {
        ParamValue::Int(n) => number_text(alloc, *n),
        ParamValue::Flag(true) => text_of(alloc, b"True"),
        ParamValue::Flag(false) => text_of(alloc, b"False"),
        ParamValue::Word(word) => text_of(alloc, word.bytes()),
        ParamValue::Game(game) => {
            let text = game_text(alloc, game)?;
            Ok(text)
        }
    }
}

#[cycle(write)]
fn game_text(alloc: Global, game: &GameText) -> Result<Text, NoMemory>
    ensures { IfOk result (λ t. t ≡ game_text (view game.now)) }
{
    let mut entries: Vec<(Text, Text)> = Vec::new(alloc);
    for param in game.params.items() {
        let key = text_of(alloc, param.0.bytes())?;
        let text = value_text(alloc, &param.1)?;
        insert_pair(&mut entries, key, text)?;
    }
    bracketed(alloc, game.name.bytes(), &entries)
}

/// Adds the canonical text of a game: no spaces, keys in byte order, brackets behind each name.
/// After `NoMemory` the text is as it was.
pub fn write_game(alloc: Global, game: &GameText, out: &mut Text) -> Result<(), NoMemory>
    ensures ok { OnOk result (out.new ≡ out.old ++ game_text (view game.now)) }
    ensures err { OnErr result (out.new ≡ out.old) }

    // Reading the text gives the game again.
    ensures reads_back { IsWellFormed (view game.now) → length (game_text (view game.now)) ≤ most_bytes
        → IsRead (game_text (view game.now)) (view game.now) }
{
    let text = game_text(alloc, game)?;
    out.push(text.bytes())
}
