//! How many histories a game has, counted with nothing kept of them.
ghost use Rattle.std.specs.Prelude.{◌≡◌, ◌<◌, ◌≤◌, ◌+◌, length, IfOk, IfErr, OnOk, OnErr};
ghost use Rattle.spiel_api.specs.States.{StandsFor};
ghost use Rattle.spiel_tree.specs.Rows.{rows, rows_from};
ghost use Rattle.spiel_tree.specs.Walked.{TakesAll, IsWithin};

use crate::node::{next_at, next_count};
use crate::walking::Stop;
use spiel_api::Game;
use std::alloc::Global;

/// Takes 1 off `left` for each history from a state on, if there are so many left. The state goes to
/// each of them in turn, and stands in the end where it stood.
fn take_each<G: Game>(
    alloc: Global,
    game: &G,
    state: &mut G::State,
    left: &mut u32,
) -> Result<(), Stop>
    requires { G.is_at game.now state.old }
    ensures all { TakesAll result left.old left.new (length (rows_from (G.rules game.now) (G.history_of game.now state.old))) }
    ensures back { OnOk result (StandsFor (G.is_at game.now) (G.history_of game.now) state.new (G.history_of game.now state.old)) }
{
    if *left == 0 {
        return Err(Stop::TooMany);
    }
    *left -= 1;
    let place = game.place(state);
    for index in 0..next_count(game, state, place) {
        let number = next_at(game, state, place, index);
        game.apply(alloc, state, number)?;
        take_each(alloc, game, state, left)?;
        game.undo(state);
    }
    Ok(())
}

/// Whether a game has at most `limit` histories: `TooMany` where it has more.
pub(crate) fn count_all<G: Game>(alloc: Global, game: &G, limit: u32) -> Result<(), Stop>
    requires { G.is_game game.now }
    ensures { IsWithin result (length (rows (G.rules game.now))) limit }
{
    let mut state = game.start(alloc)?;
    let mut left = limit;
    take_each(alloc, game, &mut state, &mut left)
}
