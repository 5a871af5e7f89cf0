//! A game with each kind of node: chance, a joint step, a move, and an end.

use spiel_api::{Game, Place};
use spiel_frac::{List, NoMemory, Text};
use std::alloc::Global;

/// Chance lays a stake of 1 or 2, the first twice as often. Two players choose heads (0) or tails (1)
/// at once, and player 1 then chooses again. Player 0 wins the stake where the last choice is that of
/// player 0, else player 1 wins it. A state is the history.
#[derive(Clone, Copy)]
pub struct Stakes;

impl Game for Stakes {
    ghost use Rattle.std.specs.Prelude.{⊤};
    ghost use Rattle.spiel_api.specs.Plays.{IsPlay};
    ghost use Rattle.spiel_test_games.specs.Stakes.{stakes_rules};
    ghost use Rattle.spiel_test_games.specs.StakesLaws.{stakes_lawful};

    type State = List<u32>;

    ghost is_game = { λ _. ⊤ };

    ghost rules = { λ _. stakes_rules };

    ghost is_at = { λ _ s. IsPlay stakes_rules s };

    ghost history_of = { λ _ s. s };

    ghost plays = { λ g s at. at };

    ghost lawful = { λ g h. stakes_lawful };

    ghost can_be_played = { λ g s at. tt };

    fn players(&self) -> u32 {
        2
    }

    fn unit(&self) -> i64 {
        1
    }

    fn pay_cap(&self) -> i64 {
        2
    }

    fn one_shot(&self) -> bool {
        false
    }

    fn start(&self, alloc: Global) -> Result<List<u32>, NoMemory> {
        Ok(List::new(alloc))
    }

    fn place(&self, state: &List<u32>) -> Place {
        match state.items() {
            [] => Place::Chance,
            [_] => Place::Joint(0),
            [_, _] => Place::Joint(1),
            [_, _, _] => Place::Move(1),
            _ => Place::End,
        }
    }

    fn legal_count(&self, state: &List<u32>, player: u32) -> u32 {
        match state.items() {
            [] | [_] | [_, _] => 2,
            [_, _, _] => if player == 0 { 0 } else { 2 },
            _ => 0,
        }
    }

    fn legal_at(&self, _state: &List<u32>, _player: u32, index: u32) -> u32 {
        index
    }

    fn weight_at(&self, _state: &List<u32>, index: u32) -> u64 {
        if index == 0 { 2 } else { 1 }
    }

    fn pay(&self, state: &List<u32>, player: u32) -> i64 {
        match state.items() {
            [stake, first, _, again, ..] => {
                let amount = if *stake == 0 { 1 } else { 2 };
                let winner = if first == again { 0 } else { 1 };
                if player == winner { amount } else { -amount }
            }
            _ => 0,
        }
    }

    fn history<'a>(&self, state: &'a List<u32>) -> &'a [u32] {
        state.items()
    }

    fn info(
        &self,
        _alloc: Global,
        state: &List<u32>,
        _player: u32,
        out: &mut Text,
    ) -> Result<(), NoMemory> {
        match state.items() {
            [] => out.push(b""),
            [stake, ..] => out.push(if *stake == 0 { b"one" } else { b"two" }),
        }
    }

    fn action_name(
        &self,
        _alloc: Global,
        state: &List<u32>,
        _player: u32,
        action: u32,
        out: &mut Text,
    ) -> Result<(), NoMemory> {
        match state.items() {
            [] => out.push(if action == 0 { b"one" } else { b"two" }),
            _ => out.push(if action == 0 { b"heads" } else { b"tails" }),
        }
    }

    fn apply(&self, _alloc: Global, state: &mut List<u32>, action: u32) -> Result<(), NoMemory> {
        state.push(action)
    }

    fn undo(&self, state: &mut List<u32>) {
        state.pop();
    }

    fn copy(&self, alloc: Global, state: &List<u32>) -> Result<List<u32>, NoMemory> {
        let mut history = List::new(alloc);
        history.extend(state.items())?;
        Ok(history)
    }
}
