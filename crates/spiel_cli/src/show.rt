//! The verb `show`: what holds of a whole game.
ghost use Rattle.std.specs.Prelude.{None};
ghost use Rattle.spiel_io.specs.Plan.{Agrees, BeginsAtMost, Follows};
ghost use Rattle.spiel_string.specs.View.{view};
ghost use Rattle.spiel_cli.specs.Refusal.{kind_of};
ghost use Rattle.spiel_cli.specs.Show.{facts_of, show_plan};

use crate::named::{Load, read_game_string};
use crate::refusal::Refusal;
use spiel_api::Game;
use spiel_frac::Text;
use spiel_io::Shelf;
use spiel_play::facts;
use spiel_string::GameText;
use std::alloc::Global;

/// The fact lines of a game.
fn show_facts<G: Game>(alloc: Global, game: G, text: &GameText) -> Result<Text, Refusal>
    requires { G.is_game game }
    ensures { Agrees kind_of (facts_of (record { text = view text.now; rules = G.rules game })) None result }
{
    let mut out = Text::new(alloc);
    facts(alloc, &game, text, &mut out)?;
    Ok(out)
}

/// `show GAME`: what holds of a whole game.
pub fn show<G: Load, F: Shelf>(alloc: Global, shelf: &mut F, game: &[u8]) -> Result<Text, Refusal>
    ensures follows { Follows kind_of (show_plan game.now) (F.state shelf.old) (F.state shelf.new) result }
    ensures begins { BeginsAtMost 0 1 (F.state shelf.old) (F.state shelf.new) }
{
    let text = read_game_string(alloc, game)?;
    let game = G::load(alloc, shelf, &text)?;
    show_facts(alloc, game, &text)
}
