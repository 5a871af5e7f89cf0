//! Writing a saved file.
ghost use Rattle.std.specs.Prelude.{◌≡◌, ◌++◌, ◌∷◌, [], ◌≤◌, length, map, IfOk, OnOk, OnErr};
ghost use Rattle.std.specs.Fmt.{decimal};
ghost use Rattle.spiel_string.specs.Canonical.{game_text};
ghost use Rattle.spiel_string.specs.Reading.{most_bytes};
ghost use Rattle.spiel_string.specs.View.{view};
ghost use Rattle.spiel_string.specs.WellFormed.{IsWellFormed};
ghost use Rattle.spiel_save.specs.Lines.{lines_text};
ghost use Rattle.spiel_save.specs.Saved.{saved_lines, saved_text, IsSaved};

use spiel_frac::{NoMemory, Text, write_number};
use spiel_string::{GameText, write_game};
use std::alloc::Global;

// Adds a line of each number.
fn push_numbers(numbers: &[u32], out: &mut Text) -> Result<(), NoMemory>
    ensures { OnOk result (out.new ≡ out.old ++ lines_text (map decimal numbers.now)) }
{
    for number in numbers {
        write_number(*number, out)?;
        out.push(b"\n")?;
    }
    Ok(())
}

// The text of all lines, with this line of the game string.
fn text_of(alloc: Global, game: &[u8], history: &[u32]) -> Result<Text, NoMemory>
    ensures { IfOk result (λ text. text ≡ lines_text (saved_lines game.now history.now)) }
{
    let mut text = Text::new(alloc);
    text.push(b"[Meta]\nVersion: 1\n[Game]\n")?;
    text.push(game)?;
    text.push(b"\n[State]\n")?;
    push_numbers(history, &mut text)?;
    Ok(text)
}

/// Adds the saved file of a game and a history. After `NoMemory` the text is as it was.
#[tactic(auto, unfolding(crate::specs::Saved::saved_text))]
pub fn write_saved(
    alloc: Global,
    game: &GameText,
    history: &[u32],
    out: &mut Text,
) -> Result<(), NoMemory>
    ensures ok { OnOk result (out.new ≡ out.old ++ saved_text (view game.now) history.now) }
    ensures err { OnErr result (out.new ≡ out.old) }

    // Reading the file gives the game and the history again.
    ensures reads_back { IsWellFormed (view game.now) → length (game_text (view game.now)) ≤ most_bytes
        → IsSaved (saved_text (view game.now) history.now) (view game.now) history.now }
{
    let mut name = Text::new(alloc);
    write_game(alloc, game, &mut name)?;
    let text = text_of(alloc, name.bytes(), history)?;
    out.push(text.bytes())
}
