//! Games that words name.
ghost use Rattle.std.specs.Prelude.{IfOk, None};
ghost use Rattle.spiel_io.specs.Plan.{Agrees, BeginsAtMost, Follows, decide, refusing, seeing};
ghost use Rattle.spiel_string.specs.Answer.{reading};
ghost use Rattle.spiel_string.specs.View.{view};
ghost use Rattle.spiel_string.specs.WellFormed.{IsWellFormed};
ghost use Rattle.spiel_load.specs.Named.{named_game};
ghost use Rattle.spiel_cli.specs.Refusal.{kind_of};
ghost use Rattle.spiel_cli.specs.declared.refusal.Refusal.TheVariants.{GameString, Loading};

use crate::refusal::Refusal;
use spiel_api::Game;
use spiel_io::Shelf;
use spiel_load::Any;
use spiel_string::{GameText, read_game};
use std::alloc::Global;

/// The game string that a word is.
pub fn read_game_string(alloc: Global, word: &[u8]) -> Result<GameText, Refusal>
    ensures agrees { Agrees kind_of (decide GameString (reading word.now)) None (seeing view result) }
    ensures well_formed { IfOk result (λ text. IsWellFormed (view text)) }
{
    read_game(alloc, word).map_err(Refusal::GameString)
}

/// A type for all games that game strings name. What commands do is proved for any such type, so that no
/// proof sees what `Any` is made of.
pub trait Load: Game {
    /// The game that a game string names.
    fn load<F: Shelf>(alloc: Global, shelf: &mut F, text: &GameText) -> Result<Self, Refusal>
        requires { IsWellFormed (view text.now) }
        ensures follows { Follows kind_of (refusing Loading (named_game (view text.now))) (F.state shelf.old) (F.state shelf.new) (seeing Self.rules result) }
        ensures playable { IfOk result Self.is_game }
        ensures begins { BeginsAtMost 0 1 (F.state shelf.old) (F.state shelf.new) };
}

impl Load for Any {
    fn load<F: Shelf>(alloc: Global, shelf: &mut F, text: &GameText) -> Result<Any, Refusal> {
        match spiel_load::load::<Any, F>(alloc, shelf, text) {
            Ok(game) => Ok(game),
            Err(fault) => Err(Refusal::Loading(fault)),
        }
    }
}
