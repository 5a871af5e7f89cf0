//! Games by their names.
ghost use Rattle.std.specs.Prelude.{IfOk, IfSome, ◌++◌};
ghost use Rattle.std.specs.Option.{option_map};
ghost use Rattle.spiel_load.specs.Asked.{ReadsAs, asked_view};
ghost use Rattle.spiel_load.specs.Games.{Table, rules_among, rules_named};

use crate::asked::Asked;
use crate::fault::LoadFault;
use spiel_api::Game;
use spiel_layers::Either;

/// Games that have names.
pub trait Known: Game {
    /// The names, and the rules of the game of each by what is given.
    ghost known: { Table };

    /// The game that has the name, as it is asked for, or the first fault; none where no game of these
    /// has the name.
    fn find(asked: Asked) -> Result<Option<Self>, LoadFault>
        ensures reads { ReadsAs (option_map Self.rules) (rules_among known (asked_view asked.entry)) result }
        ensures playable { IfOk result (λ game. IfSome game Self.is_game) };
}

// The game on the right that has the name, if one has it.
fn find_right<A: Known, B: Known>(asked: Asked) -> Result<Option<Either<A, B>>, LoadFault>
    ensures reads { ReadsAs (option_map ⟦<Either<A, B> as Game>⟧.rules) (rules_among B.known (asked_view asked.entry)) result }
    ensures playable { IfOk result (λ game. IfSome game ⟦<Either<A, B> as Game>⟧.is_game) }
{
    let right = B::find(asked)?;
    match right {
        Some(game) => Ok(Some(Either::right(game))),
        None => Ok(None),
    }
}

impl<A: Known, B: Known> Known for Either<A, B> {
    ghost known = { A.known ++ B.known };

    fn find(asked: Asked) -> Result<Option<Either<A, B>>, LoadFault> {
        let left = A::find(asked)?;
        match left {
            Some(game) => Ok(Some(Either::left(game))),
            None => find_right(asked),
        }
    }
}

/// The game that has the name, as it is asked for, or the first fault.
#[tactic(auto, using(crate::proofs::Reading::reading_steps), unfolding(crate::specs::Games::rules_named))]
pub fn load_known<G: Known>(asked: Asked) -> Result<G, LoadFault>
    ensures reads { ReadsAs G.rules (rules_named G.known (asked_view asked.entry)) result }
    ensures playable { IfOk result G.is_game }
{
    match G::find(asked)? {
        Some(game) => Ok(game),
        None => Err(asked.unknown_game()?),
    }
}
