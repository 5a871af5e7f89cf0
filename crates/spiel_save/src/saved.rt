//! What a saved file has, a game and a history, and the state to which they lead.
ghost use Rattle.std.specs.Prelude.{◌≡◌, None, IfOk, IfErr, OnOk, MatchResult};
ghost use Rattle.spiel_api.specs.States.{StandsFor};
ghost use Rattle.spiel_api.specs.Walks.{IsFinished, HasWalkFault, walk_fault, IsComputed};

use spiel_api::{Game, WalkFault, walk};
use spiel_frac::List;
use spiel_string::GameText;
use std::alloc::Global;

/// A game, and the numbers of a history in it.
#[derive(Debug, Drop)]
pub struct Saved {
    pub game: GameText,
    pub history: List<u32>,
}

/// The state that stands for the history, in a game that the caller made of the game string. Faults
/// come as in [`walk`].
pub fn restore<G: Game>(alloc: Global, game: &G, saved: &Saved) -> Result<G::State, WalkFault>
    requires { G.is_game game.now }
    ensures stands { IfOk result (λ s. StandsFor (G.is_at game.now) (G.history_of game.now) s saved.now.history) }
    ensures finished { OnOk result (IsFinished (G.rules game.now) saved.now.history) }
    ensures fault { IfErr result (HasWalkFault (G.rules game.now) saved.now.history) }
    ensures computed { MatchResult result
        (λ s. walk_fault (G.rules game.now) saved.now.history ≡ None)
        (IsComputed (walk_fault (G.rules game.now) saved.now.history)) }
{
    walk(alloc, game, saved.history.items())
}
