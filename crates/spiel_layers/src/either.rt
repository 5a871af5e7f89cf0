//! A game that is one of two.
ghost use Rattle.std.specs.Prelude.{◌≡◌};

use spiel_api::{Game, Place};
use spiel_frac::{NoMemory, Text};
use std::alloc::Global;

/// One of two games. All meanings are those of the game inside. Sums of more games are one inside the
/// other: `Either<Either<A, B>, C>`.
#[derive(Drop)]
pub enum Either<A, B> {
    Left(A),
    Right(B),
}

/// A state of one of two games. It stands for a play of an [`Either`] only where both are on one side.
#[derive(Drop)]
pub enum EitherState<A: Game, B: Game> {
    Left(A::State),
    Right(B::State),
}

// What the game inside answers, the same at both sides.
macro_rules! at_game {
    ($either:expr, $game:ident => $answer:expr) => {
        match $either {
            Either::Left($game) => $answer,
            Either::Right($game) => $answer,
        }
    };
}

// What the game inside answers of the state inside, the same at both sides. A game and a state of two
// sides stand for no play.
macro_rules! at_state {
    ($either:expr, $state:expr, ($game:ident, $inner:ident) => $answer:expr) => {
        match ($either, $state) {
            (Either::Left($game), EitherState::Left($inner)) => $answer,
            (Either::Right($game), EitherState::Right($inner)) => $answer,
            _ => unreachable!(),
        }
    };
}

#[tactic(auto, unfolding(crate::specs::Either::IsEitherGame, crate::specs::Either::either_rules))]
impl<A: Game, B: Game> Either<A, B> {
    /// The game on the left.
    pub fn left(game: A) -> Either<A, B>
        ensures rules { ⟦<Either<A, B> as Game>⟧.rules result ≡ A.rules game }
        ensures game { A.is_game game → ⟦<Either<A, B> as Game>⟧.is_game result }
    {
        Either::Left(game)
    }

    /// The game on the right.
    pub fn right(game: B) -> Either<A, B>
        ensures rules { ⟦<Either<A, B> as Game>⟧.rules result ≡ B.rules game }
        ensures game { B.is_game game → ⟦<Either<A, B> as Game>⟧.is_game result }
    {
        Either::Right(game)
    }
}

#[tactic(auto, unfolding(crate::specs::Either::IsEitherGame, crate::specs::Either::either_rules, crate::specs::Either::IsEitherAt, crate::specs::Either::either_history))]
impl<A: Game, B: Game> Game for Either<A, B> {
    ghost use Rattle.spiel_layers.specs.Either.{IsEitherGame, either_rules, IsEitherAt, either_history};
    ghost use Rattle.spiel_layers.specs.EitherLaws.{either_plays, either_lawful, either_playable};

    type State = EitherState<A, B>;

    ghost is_game = { IsEitherGame ⟦<A as Game>⟧ ⟦<B as Game>⟧ };

    ghost rules = { either_rules ⟦<A as Game>⟧ ⟦<B as Game>⟧ };

    ghost is_at = { IsEitherAt ⟦<A as Game>⟧ ⟦<B as Game>⟧ };

    ghost history_of = { either_history ⟦<A as Game>⟧ ⟦<B as Game>⟧ };

    ghost plays = { either_plays ⟦<A as Game>⟧ ⟦<B as Game>⟧ A.plays B.plays };

    ghost lawful = { either_lawful ⟦<A as Game>⟧ ⟦<B as Game>⟧ A.lawful B.lawful };

    ghost can_be_played = { either_playable ⟦<A as Game>⟧ ⟦<B as Game>⟧ A.can_be_played B.can_be_played };

    fn players(&self) -> u32 {
        at_game!(self, game => game.players())
    }

    fn unit(&self) -> i64 {
        at_game!(self, game => game.unit())
    }

    fn pay_cap(&self) -> i64 {
        at_game!(self, game => game.pay_cap())
    }

    fn one_shot(&self) -> bool {
        at_game!(self, game => game.one_shot())
    }

    fn start(&self, alloc: Global) -> Result<EitherState<A, B>, NoMemory> {
        Ok(match self {
            Either::Left(game) => EitherState::Left(game.start(alloc)?),
            Either::Right(game) => EitherState::Right(game.start(alloc)?),
        })
    }

    fn place(&self, state: &EitherState<A, B>) -> Place {
        at_state!(self, state, (game, inner) => game.place(inner))
    }

    fn legal_count(&self, state: &EitherState<A, B>, player: u32) -> u32 {
        at_state!(self, state, (game, inner) => game.legal_count(inner, player))
    }

    fn legal_at(&self, state: &EitherState<A, B>, player: u32, index: u32) -> u32 {
        at_state!(self, state, (game, inner) => game.legal_at(inner, player, index))
    }

    fn weight_at(&self, state: &EitherState<A, B>, index: u32) -> u64 {
        at_state!(self, state, (game, inner) => game.weight_at(inner, index))
    }

    fn pay(&self, state: &EitherState<A, B>, player: u32) -> i64 {
        at_state!(self, state, (game, inner) => game.pay(inner, player))
    }

    fn history<'a>(&self, state: &'a EitherState<A, B>) -> &'a [u32] {
        at_state!(self, state, (game, inner) => game.history(inner))
    }

    fn info(
        &self,
        alloc: Global,
        state: &EitherState<A, B>,
        player: u32,
        out: &mut Text,
    ) -> Result<(), NoMemory> {
        at_state!(self, state, (game, inner) => game.info(alloc, inner, player, out))
    }

    fn action_name(
        &self,
        alloc: Global,
        state: &EitherState<A, B>,
        player: u32,
        action: u32,
        out: &mut Text,
    ) -> Result<(), NoMemory> {
        at_state!(self, state, (game, inner) => game.action_name(alloc, inner, player, action, out))
    }

    fn apply(
        &self,
        alloc: Global,
        state: &mut EitherState<A, B>,
        action: u32,
    ) -> Result<(), NoMemory> {
        at_state!(self, state, (game, inner) => game.apply(alloc, inner, action))
    }

    fn undo(&self, state: &mut EitherState<A, B>) {
        at_state!(self, state, (game, inner) => game.undo(inner))
    }

    fn copy(
        &self,
        alloc: Global,
        state: &EitherState<A, B>,
    ) -> Result<EitherState<A, B>, NoMemory> {
        Ok(match (self, state) {
            (Either::Left(game), EitherState::Left(inner)) => {
                EitherState::Left(game.copy(alloc, inner)?)
            }
            (Either::Right(game), EitherState::Right(inner)) => {
                EitherState::Right(game.copy(alloc, inner)?)
            }
            _ => unreachable!(),
        })
    }
}
