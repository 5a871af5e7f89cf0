//! A chain, a game in which two plays have the most numbers that a play may have.

use spiel_api::{Game, Place};
use spiel_frac::{List, NoMemory, Text};
use std::alloc::Global;

/// A chain of one player. Chance draws 0 or 1, each as likely as the other. Then the player, who
/// doesn't see which, but how many numbers there were, has the number 0 until the history has 4,096
/// numbers. Nothing is paid. A state is the history.
#[derive(Clone, Copy)]
pub struct Chain;

impl Game for Chain {
    ghost use Rattle.std.specs.Prelude.{⊤};
    ghost use Rattle.spiel_api.specs.Plays.{IsPlay};
    ghost use Rattle.spiel_test_games.specs.Chain.{chain_rules};
    ghost use Rattle.spiel_test_games.specs.ChainLaws.{chain_lawful};

    type State = List<u32>;

    ghost is_game = { λ _. ⊤ };

    ghost rules = { λ _. chain_rules };

    ghost is_at = { λ _ s. IsPlay chain_rules s };

    ghost history_of = { λ _ s. s };

    ghost plays = { λ g s at. at };

    ghost lawful = { λ g h. chain_lawful };

    ghost can_be_played = { λ g s at. tt };

    fn players(&self) -> u32 {
        1
    }

    fn unit(&self) -> i64 {
        1
    }

    fn pay_cap(&self) -> i64 {
        1
    }

    fn one_shot(&self) -> bool {
        false
    }

    fn start(&self, alloc: Global) -> Result<List<u32>, NoMemory> {
        Ok(List::new(alloc))
    }

    fn place(&self, state: &List<u32>) -> Place {
        match state.items() {
            [] => Place::Chance,
            history if history.len() < 4096 => Place::Move(0),
            _ => Place::End,
        }
    }

    fn legal_count(&self, state: &List<u32>, _player: u32) -> u32 {
        match state.items() {
            [] => 2,
            history if history.len() < 4096 => 1,
            _ => 0,
        }
    }

    fn legal_at(&self, _state: &List<u32>, _player: u32, index: u32) -> u32 {
        index
    }

    fn weight_at(&self, _state: &List<u32>, _index: u32) -> u64 {
        1
    }

    fn pay(&self, _state: &List<u32>, _player: u32) -> i64 {
        0
    }

    fn history<'a>(&self, state: &'a List<u32>) -> &'a [u32] {
        state.items()
    }

    fn info(
        &self,
        _alloc: Global,
        state: &List<u32>,
        _player: u32,
        out: &mut Text,
    ) -> Result<(), NoMemory> {
        let count = state.items().len();
        out.push(&[b'0' + (count / 64 % 64) as u8, b'0' + (count % 64) as u8])
    }

    fn action_name(
        &self,
        _alloc: Global,
        _state: &List<u32>,
        _player: u32,
        _action: u32,
        out: &mut Text,
    ) -> Result<(), NoMemory> {
        out.push(b"go")
    }

    fn apply(&self, _alloc: Global, state: &mut List<u32>, action: u32) -> Result<(), NoMemory> {
        state.push(action)
    }

    fn undo(&self, state: &mut List<u32>) {
        state.pop();
    }

    fn copy(&self, alloc: Global, state: &List<u32>) -> Result<List<u32>, NoMemory> {
        let mut history = List::new(alloc);
        history.extend(state.items())?;
        Ok(history)
    }
}
