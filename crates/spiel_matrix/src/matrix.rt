//! The game of a payoff table.
ghost use Rattle.std.specs.Prelude.{◌≡◌, ◌<◌, ◌≤◌, IfOk, MatchResult, length, map, true, None};
ghost use Rattle.spiel_matrix.specs.Matrix.{is_choosing, matrix_rules, strategies_of};
ghost use Rattle.spiel_matrix.specs.Parts.{is_matrix, matrix_fault, most_pays, IsMatrixFault};
ghost use Rattle.spiel_matrix.specs.Pays.{cap_of, common_unit, in_parts};

use crate::contingencies::contingency_at;
use crate::fault::MatrixFault;
use crate::names::push_strategy;
use crate::parts::MatrixParts;
use crate::pays::{common_unit, greatest_size, pays_in};
use crate::shape::has_shape;
use spiel_api::{Game, Place};
use spiel_frac::{List, NoMemory, Text};
use std::alloc::Global;

/// A matrix game: all players choose a strategy at once, and then each gets what the payoff table
/// has for that contingency (games in strategic form: von Neumann and Morgenstern 1944).
///
/// The strategies of a player are counted from 0. The name of one is the printed form of its name in
/// the parts: the first 64 bytes, with a question mark in place of each that isn't printable ASCII;
/// where the name is empty, it is the strategy's number counted from 1. The information text is
/// `start`. The unit is the least common denominator of the pays, and the cap is the greatest size
/// of a pay in parts of it, or 1. A state is the history.
#[derive(Debug, Drop)]
pub struct Matrix {
    parts: MatrixParts,
    unit: u64,
    cap: u64,
    pays: List<i64>,
    ghost sound: { is_matrix parts ≡ true },
    ghost unit_is: { unit ≡ common_unit parts.pays },
    ghost unit_low: { 0 < common_unit parts.pays },
    ghost cap_is: { cap ≡ cap_of parts.pays },
    ghost pays_are: { pays ≡ map (in_parts (common_unit parts.pays)) parts.pays },
}

impl Matrix {
    /// The game of these parts.
    ///
    /// `Shape` comes exactly where there aren't 1 to 64 players, or not one list of strategies for
    /// each, or a list is empty, or contingencies times players pass 4,194,304, or the pays aren't
    /// as many as that product. `PayTooFine` comes exactly where the shape is right and the least
    /// common denominator of the pays, or the size of a pay in that unit, passes 2^62. After a fault
    /// the parts are dropped.
    pub fn of(alloc: Global, parts: MatrixParts) -> Result<Matrix, MatrixFault>
        ensures parts { IfOk result (λ game. game.parts ≡ parts) }
        ensures rules { IfOk result (λ game. ⟦<Matrix as Game>⟧.rules game ≡ matrix_rules parts) }
        ensures fault { MatchResult result (λ game. matrix_fault parts ≡ None) (IsMatrixFault parts) }
    {
        if !has_shape(&parts) {
            return Err(MatrixFault::Shape);
        }
        let Some(unit) = common_unit(parts.pays.items()) else {
            return Err(MatrixFault::PayTooFine);
        };
        let pays = pays_in(alloc, unit, parts.pays.items())?;
        let cap = greatest_size(pays.items());
        Ok(Matrix {
            parts,
            unit,
            cap,
            pays,
        })
    }

    /// What the game is made of.
    pub fn parts(&self) -> &MatrixParts
        ensures parts { result.now ≡ self.now.parts }
        ensures sound { is_matrix self.now.parts ≡ true }
    {
        &self.parts
    }

    /// How many players there are.
    fn player_count(&self) -> usize
        ensures { result ≡ length self.now.parts.players }
    {
        self.parts.players.items().len()
    }

    /// Whether somebody has yet to choose.
    fn is_choosing(&self, state: &List<u32>) -> bool
        ensures { result ≡ is_choosing self.now.parts state.now }
    {
        state.items().len() < self.player_count()
    }

    /// The names of a player's strategies.
    fn strategies(&self, player: u32) -> &[Text]
        requires { player < length self.now.parts.players }
        ensures names { result.now ≡ strategies_of self.now.parts player }
        ensures few { length result.now ≤ most_pays }
    {
        self.parts.strategies.items()[player as usize].items()
    }
}

impl Game for Matrix {
    ghost use Rattle.std.specs.Prelude.{⊤};
    ghost use Rattle.spiel_api.specs.Plays.{IsPlay};
    ghost use Rattle.spiel_matrix.specs.Matrix.{matrix_rules};
    ghost use Rattle.spiel_matrix.specs.MatrixLaws.{matrix_lawful};

    type State = List<u32>;

    ghost is_game = { λ _. ⊤ };

    ghost rules = { λ g. matrix_rules g.parts };

    ghost is_at = { λ g s. IsPlay (matrix_rules g.parts) s };

    ghost history_of = { λ _ s. s };

    ghost plays = { λ g s at. at };

    ghost lawful = { λ g h. matrix_lawful g.parts g.sound g.unit_low };

    ghost can_be_played = { λ g s at. tt };

    fn players(&self) -> u32 {
        self.player_count() as u32
    }

    fn unit(&self) -> i64 {
        self.unit as i64
    }

    fn pay_cap(&self) -> i64 {
        self.cap as i64
    }

    fn one_shot(&self) -> bool {
        true
    }

    fn start(&self, alloc: Global) -> Result<List<u32>, NoMemory> {
        Ok(List::new(alloc))
    }

    fn place(&self, state: &List<u32>) -> Place {
        if self.is_choosing(state) {
            Place::Joint(state.items().len() as u32)
        } else {
            Place::End
        }
    }

    fn legal_count(&self, state: &List<u32>, player: u32) -> u32 {
        if self.is_choosing(state) {
            self.strategies(player).len() as u32
        } else {
            0
        }
    }

    fn legal_at(&self, _state: &List<u32>, _player: u32, index: u32) -> u32 {
        index
    }

    fn weight_at(&self, _state: &List<u32>, _index: u32) -> u64 {
        0
    }

    fn pay(&self, state: &List<u32>, player: u32) -> i64 {
        let contingency = contingency_at(self.parts.strategies.items(), state.items());
        self.pays.items()[self.player_count() * contingency + player as usize]
    }

    fn history<'a>(&self, state: &'a List<u32>) -> &'a [u32] {
        state.items()
    }

    fn info(
        &self,
        _alloc: Global,
        _state: &List<u32>,
        _player: u32,
        out: &mut Text,
    ) -> Result<(), NoMemory> {
        out.push(b"start")
    }

    fn action_name(
        &self,
        _alloc: Global,
        _state: &List<u32>,
        player: u32,
        action: u32,
        out: &mut Text,
    ) -> Result<(), NoMemory> {
        let name = &self.strategies(player)[action as usize];
        push_strategy(name.bytes(), action, out)
    }

    fn apply(&self, _alloc: Global, state: &mut List<u32>, action: u32) -> Result<(), NoMemory> {
        state.push(action)
    }

    fn undo(&self, state: &mut List<u32>) {
        state.pop();
    }

    fn copy(&self, alloc: Global, state: &List<u32>) -> Result<List<u32>, NoMemory> {
        state.copy(alloc)
    }
}
