//! The verb `legal`: what may be chosen after a play.
ghost use Rattle.std.specs.Prelude.{None};
ghost use Rattle.spiel_io.specs.Plan.{Agrees, BeginsAtMost, Follows};
ghost use Rattle.spiel_cli.specs.Legal.{legal_plan, choices_of};
ghost use Rattle.spiel_cli.specs.Named.{with_game};
ghost use Rattle.spiel_cli.specs.Refusal.{kind_of};
ghost use Rattle.spiel_string.specs.View.{view};

use crate::lists::read_list;
use crate::named::{Load, read_game_string};
use crate::refusal::Refusal;
use spiel_api::{Game, walk};
use spiel_frac::Text;
use spiel_io::Shelf;
use spiel_play::legal_lines;
use spiel_string::GameText;
use std::alloc::Global;

/// What may be chosen after a history.
fn show_choices<G: Game>(
    alloc: Global,
    game: G,
    text: &GameText,
    history: &[u32],
) -> Result<Text, Refusal>
    requires { G.is_game game }
    ensures { Agrees kind_of (choices_of history.now (record { text = view text.now; rules = G.rules game })) None result }
{
    let state = walk(alloc, &game, history).map_err(Refusal::Walk)?;
    let mut out = Text::new(alloc);
    legal_lines(alloc, &game, &state, &mut out)?;
    Ok(out)
}

/// What may be chosen after a history of the game that a word names.
fn show_choices_named<G: Load, F: Shelf>(
    alloc: Global,
    shelf: &mut F,
    game: &[u8],
    history: &[u32],
) -> Result<Text, Refusal>
    ensures follows { Follows kind_of (with_game game.now (choices_of history.now)) (F.state shelf.old) (F.state shelf.new) result }
    ensures begins { BeginsAtMost 0 1 (F.state shelf.old) (F.state shelf.new) }
{
    let text = read_game_string(alloc, game)?;
    let game = G::load(alloc, shelf, &text)?;
    show_choices(alloc, game, &text, history)
}

/// `legal GAME LIST`: the chance outcomes after a play, or the legal actions of whoever chooses next.
pub fn legal<G: Load, F: Shelf>(
    alloc: Global,
    shelf: &mut F,
    game: &[u8],
    list: &[u8],
) -> Result<Text, Refusal>
    ensures follows { Follows kind_of (legal_plan game.now list.now) (F.state shelf.old) (F.state shelf.new) result }
    ensures begins { BeginsAtMost 0 1 (F.state shelf.old) (F.state shelf.new) }
{
    let Some(history) = read_list(alloc, list)? else {
        return Err(Refusal::BadList);
    };
    show_choices_named::<G, F>(alloc, shelf, game, history.items())
}
