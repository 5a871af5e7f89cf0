//! Tic-tac-toe: its rules in words, and its state.
ghost use Rattle.std.specs.Prelude.{◌≡◌, ◌<◌, length, slice_index, slice_index_or, false};
ghost use Rattle.spiel_board.specs.TicTacToe.{has_three, has_line, is_over, free_cells, tic_tac_toe_rules};
ghost use Rattle.spiel_board.specs.TicTacToeState.{IsTicTacToeAt};

use spiel_api::{Game, Place};
use spiel_frac::{List, NoMemory, Text};
use std::alloc::Global;

/// Tic-tac-toe of two players.
///
/// Player 0 writes x and player 1 writes o, in turn, into the empty cells of a board of three by
/// three. The play ends with a line of three, or with a full board. Whoever has a line gets 1 from
/// the other, and without one nobody gets anything.
///
/// The cells are numbered by rows, from 0 to 8. The name of an action is the mark, the row and the
/// column, as `o(0,1)`. The information text is `moves`, and a space and the number of the cell for
/// each move so far.
#[derive(Clone, Copy, Debug, PartialEq, Eq)]
pub struct TicTacToe;

/// A state of tic-tac-toe: the moves of a play, and the cells that each player has marked.
#[derive(Drop)]
pub struct TicTacToeState {
    history: List<u32>,
    crosses: [bool; 9],
    noughts: [bool; 9],
}

impl TicTacToe {
    /// The game.
    pub fn new() -> TicTacToe
        ensures { ⟦<TicTacToe as Game>⟧.rules result ≡ tic_tac_toe_rules }
    {
        TicTacToe
    }
}

/// Whether all cells of a row, a column or a diagonal are marked.
#[tactic(auto, unfolding(crate::specs::TicTacToe::has_three))]
fn has_three(marked: &[bool; 9]) -> bool
    ensures { result ≡ has_three (λ cell. slice_index_or marked.now cell false) }
{
    let [a, b, c, d, e, f, g, h, i] = *marked;
    let rows = (a & b & c) | (d & e & f) | (g & h & i);
    let columns = (a & d & g) | (b & e & h) | (c & f & i);
    let diagonals = (a & e & i) | (c & e & g);
    rows | columns | diagonals
}

impl TicTacToeState {
    /// Whether the player has marked all cells of some line.
    fn has_line(&self, player: u32) -> bool
        requires at { IsTicTacToeAt self.now }
        requires player { player < 2 }
        ensures { result ≡ has_line player self.now.history }
    {
        if player == 0 {
            has_three(&self.crosses)
        } else {
            has_three(&self.noughts)
        }
    }

    /// Whether somebody has a line, or the board is full. Only who moved last can have made a line.
    fn is_over(&self) -> bool
        requires { IsTicTacToeAt self.now }
        ensures { result ≡ is_over self.now.history }
    {
        let count = self.history.items().len();
        let last = 1 - (count % 2) as u32;
        self.has_line(last) || count == 9
    }

    /// The empty cell with so many empty cells before it.
    fn free_cell(&self, index: u32) -> u32
        requires at { IsTicTacToeAt self.now }
        requires index { index < length (free_cells self.now.history) }
        ensures { result ≡ slice_index (free_cells self.now.history) index }
    {
        let mut before = 0;
        for cell in 0..9 {
            if !(self.crosses[cell] | self.noughts[cell]) {
                if before == index {
                    return cell as u32;
                }
                before += 1;
            }
        }
        unreachable!()
    }
}

impl Game for TicTacToe {
    ghost use Rattle.std.specs.Prelude.{◌≡◌, List, ℕ, ⊤};
    ghost use Rattle.spiel_board.specs.TicTacToe.{tic_tac_toe_rules};
    ghost use Rattle.spiel_board.specs.TicTacToeState.{IsTicTacToeAt};
    ghost use Rattle.spiel_board.specs.TicTacToeLaws.{tic_tac_toe_lawful};

    type State = TicTacToeState;

    ghost is_game = { λ _. ⊤ };

    ghost rules = { λ _. tic_tac_toe_rules };

    ghost is_at = { λ _ s. IsTicTacToeAt s };

    ghost history_of = { λ _ s. s.history };

    ghost plays = { λ g s at. at.play };

    ghost lawful = { λ g h. tic_tac_toe_lawful };

    ghost can_be_played = { λ g s at. tt };

    fn players(&self) -> u32 {
        2
    }

    fn unit(&self) -> i64 {
        1
    }

    fn pay_cap(&self) -> i64 {
        1
    }

    fn one_shot(&self) -> bool {
        false
    }

    fn start(&self, alloc: Global) -> Result<TicTacToeState, NoMemory> {
        Ok(TicTacToeState {
            history: List::new(alloc),
            crosses: [false; 9],
            noughts: [false; 9],
        })
    }

    fn place(&self, state: &TicTacToeState) -> Place {
        if state.is_over() {
            Place::End
        } else {
            Place::Move((state.history.items().len() % 2) as u32)
        }
    }

    #[tactic(auto, using(spiel_api::proofs::TurnLaws::turn_steps, crate::specs::TicTacToePlays::nine_cells, crate::specs::TicTacToePlays::nine_moves))]
    fn legal_count(&self, state: &TicTacToeState, player: u32) -> u32 {
        match self.place(state) {
            Place::Move(mover) if mover == player => 9 - state.history.items().len() as u32,
            Place::Move(_) | Place::End | Place::Chance | Place::Joint(_) => 0,
        }
    }

    fn legal_at(&self, state: &TicTacToeState, _player: u32, index: u32) -> u32 {
        state.free_cell(index)
    }

    fn weight_at(&self, _state: &TicTacToeState, _index: u32) -> u64 {
        0
    }

    fn pay(&self, state: &TicTacToeState, player: u32) -> i64 {
        if state.has_line(player) {
            1
        } else if state.has_line(1 - player) {
            -1
        } else {
            0
        }
    }

    fn history<'a>(&self, state: &'a TicTacToeState) -> &'a [u32] {
        state.history.items()
    }

    fn info(
        &self,
        _alloc: Global,
        state: &TicTacToeState,
        _player: u32,
        out: &mut Text,
    ) -> Result<(), NoMemory> {
        out.push(b"moves")?;
        for cell in state.history.items() {
            out.push(&[b' ', b'0' + *cell as u8])?;
        }
        Ok(())
    }

    fn action_name(
        &self,
        _alloc: Global,
        _state: &TicTacToeState,
        player: u32,
        action: u32,
        out: &mut Text,
    ) -> Result<(), NoMemory> {
        let mark = if player == 0 { b'x' } else { b'o' };
        let row = b'0' + (action / 3) as u8;
        let column = b'0' + (action % 3) as u8;
        out.push(&[mark, b'(', row, b',', column, b')'])
    }

    fn apply(
        &self,
        _alloc: Global,
        state: &mut TicTacToeState,
        action: u32,
    ) -> Result<(), NoMemory> {
        state.history.push(action)?;
        if state.history.items().len() % 2 == 1 {
            state.crosses[action as usize] = true;
        } else {
            state.noughts[action as usize] = true;
        }
        Ok(())
    }

    fn undo(&self, state: &mut TicTacToeState) {
        if let Some(cell) = state.history.pop() {
            if state.history.items().len() % 2 == 0 {
                state.crosses[cell as usize] = false;
            } else {
                state.noughts[cell as usize] = false;
            }
        }
    }

    fn copy(&self, alloc: Global, state: &TicTacToeState) -> Result<TicTacToeState, NoMemory> {
        Ok(TicTacToeState {
            history: state.history.copy(alloc)?,
            crosses: state.crosses,
            noughts: state.noughts,
        })
    }
}
