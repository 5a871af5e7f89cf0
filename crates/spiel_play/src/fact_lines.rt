//! The lines that tell what holds of a whole game.
ghost use Rattle.std.specs.Prelude.{◌≡◌, ◌++◌, ℤ, ℕ, pos, OnOk, OnErr};
ghost use Rattle.std.specs.Fmt.{decimal, signed_decimal};
ghost use Rattle.spiel_string.specs.View.{view};
ghost use Rattle.spiel_play.specs.Block.{ended};
ghost use Rattle.spiel_play.specs.Facts.{answer_text, cap_line, facts_text, one_shot_line, players_line, title_line, unit_line};

use spiel_api::Game;
use spiel_frac::{NoMemory, Text, write_number};
use spiel_string::{GameText, write_game};
use std::alloc::Global;

/// Adds the line of the game's canonical text.
fn push_title(alloc: Global, text: &GameText, out: &mut Text) -> Result<(), NoMemory>
    ensures { OnOk result (out.new ≡ out.old ++ ended (title_line (view text.now))) }
{
    out.push(b"game ")?;
    write_game(alloc, text, out)?;
    out.push(b"\n")
}

/// Adds the line of how many players there are.
fn push_players<G: Game>(game: &G, out: &mut Text) -> Result<(), NoMemory>
    requires { G.is_game game.now }
    ensures { OnOk result (out.new ≡ out.old ++ ended (players_line (G.rules game.now))) }
{
    out.push(b"players ")?;
    write_number(game.players(), out)?;
    out.push(b"\n")
}

/// Adds the decimal text of a number.
fn push_long(alloc: Global, number: i64, out: &mut Text) -> Result<(), NoMemory>
    ensures { OnOk result (out.new ≡ out.old ++ signed_decimal number) }
{
    let digits = number.to_string(alloc)?;
    out.push(digits.as_bytes())
}

/// Adds the line of how many parts a whole return has.
fn push_unit<G: Game>(alloc: Global, game: &G, out: &mut Text) -> Result<(), NoMemory>
    requires { G.is_game game.now }
    ensures { OnOk result (out.new ≡ out.old ++ ended (unit_line (G.rules game.now))) }
{
    out.push(b"unit ")?;
    push_long(alloc, game.unit(), out)?;
    out.push(b"\n")
}

/// Adds the line of the size that no return passes.
fn push_cap<G: Game>(alloc: Global, game: &G, out: &mut Text) -> Result<(), NoMemory>
    requires { G.is_game game.now }
    ensures { OnOk result (out.new ≡ out.old ++ ended (cap_line (G.rules game.now))) }
{
    out.push(b"cap ")?;
    push_long(alloc, game.pay_cap(), out)?;
    out.push(b"\n")
}

/// The word for an answer.
fn answer(yes: bool) -> &'static [u8]
    ensures { result.now ≡ answer_text yes }
{
    if yes { b"yes" } else { b"no" }
}

/// Adds the line of whether the game is one joint step and no more.
fn push_one_shot<G: Game>(game: &G, out: &mut Text) -> Result<(), NoMemory>
    requires { G.is_game game.now }
    ensures { OnOk result (out.new ≡ out.old ++ ended (one_shot_line (G.rules game.now))) }
{
    out.push(b"one_shot ")?;
    out.push(answer(game.one_shot()))?;
    out.push(b"\n")
}

/// Adds all lines of the facts.
#[tactic(auto, unfolding(crate::specs::Facts::facts_text))]
fn push_facts<G: Game>(
    alloc: Global,
    game: &G,
    text: &GameText,
    out: &mut Text,
) -> Result<(), NoMemory>
    requires { G.is_game game.now }
    ensures { OnOk result (out.new ≡ out.old ++ facts_text (G.rules game.now) (view text.now)) }
{
    push_title(alloc, text, out)?;
    push_players(game, out)?;
    push_unit(alloc, game, out)?;
    push_cap(alloc, game, out)?;
    push_one_shot(game, out)
}

/// Adds the line `game TEXT` with the canonical text of a game's string. After `NoMemory` the text is
/// as it was.
pub fn title(alloc: Global, text: &GameText, out: &mut Text) -> Result<(), NoMemory>
    ensures ok { OnOk result (out.new ≡ out.old ++ ended (title_line (view text.now))) }
    ensures err { OnErr result (out.new ≡ out.old) }
{
    let mut line = Text::new(alloc);
    push_title(alloc, text, &mut line)?;
    out.push(line.bytes())
}

/// Adds the five lines that tell what holds of a whole game: the canonical text of its string, the
/// number of players, how many parts a whole return has, the size in such parts that no return
/// passes, and whether the game is one joint step and no more. The string is taken as it is: that it
/// names this game isn't looked at. After `NoMemory` the text is as it was.
pub fn facts<G: Game>(
    alloc: Global,
    game: &G,
    text: &GameText,
    out: &mut Text,
) -> Result<(), NoMemory>
    requires { G.is_game game.now }
    ensures ok { OnOk result (out.new ≡ out.old ++ facts_text (G.rules game.now) (view text.now)) }
    ensures err { OnErr result (out.new ≡ out.old) }
{
    let mut lines = Text::new(alloc);
    push_facts(alloc, game, text, &mut lines)?;
    out.push(lines.bytes())
}
