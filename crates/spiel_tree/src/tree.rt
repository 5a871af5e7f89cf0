//! The tree of a game and what is read of it, and why a game has none, with the text of each fault.
ghost use Rattle.std.specs.Prelude.{◌≡◌, ◌<◌, ◌≤◌, ◌^◌, length, pos, slice_index, slice_index_or, Contains, IfNone, IfSome, Some};
ghost use Rattle.spiel_api.specs.declared.place.Place.TheVariants.{Chance, End};
ghost use Rattle.spiel_tree.specs.Flat.{IsBefore, row_at, rows_of, way_to};
ghost use Rattle.spiel_tree.specs.PerfectRecall.{HasPerfectRecall};
ghost use Rattle.spiel_tree.specs.States.{numbers_of, state_at, state_of, states_below};
ghost use Rattle.spiel_tree.specs.Trees.{IsGameTree, IsParent, IsTree, last_index};
ghost use Rattle.spiel_tree.specs.FaultTexts.{fault_text};

use crate::bracketed::{Bracketed, Pair};
use crate::flat::{FlatRow, Rows};
use crate::states::{find, player_of, state_of, text_of};
use spiel_api::Place;
use spiel_frac::List;
use std::error::Error;
use std::fmt;
use std::marker::Model;

/// The tree of a game: all its histories in preorder, each before those that go on from it, by the
/// numbers in their order. It has at most 1,048,576 histories. Whoever moves at an information
/// state made the same own choices before each of its histories (perfect recall, Kuhn 1953) and has
/// the same numbers there, and nobody chooses at once with others.
#[derive(Drop)]
pub struct Tree {
    unit: i64,
    players: u32,
    rows: Rows,
    starts: Vec<u32>,
    firsts: Vec<u32>,
}

impl Model for Tree {
    ghost use Rattle.spiel_tree.specs.Flat.{rows_of};
    ghost use Rattle.spiel_tree.specs.Trees.{Whole, IsTree};

    ghost Value = { Whole };

    ghost view = { λ tree. record { unit = tree.unit; players = tree.players; rows = rows_of tree.rows } };

    ghost invariant = { λ tree. IsTree (record { unit = tree.unit; players = tree.players; rows = rows_of tree.rows }) tree.rows tree.starts.items tree.firsts.items };
}

/// Why a game has no tree.
#[derive(Debug, Drop)]
pub enum TreeFault {
    /// There are more histories than this limit.
    TooMany {
        limit: u32,
    },
    /// Players choose at once after this history. No history before it shows a fault.
    Simultaneous {
        history: List<u32>,
    },
    /// Before the second history the player made other own choices than before the first history of
    /// the same information state: another number of them, another number taken, or another text
    /// seen at one. No history before the second shows a fault.
    Recall {
        player: u32,
        first: List<u32>,
        second: List<u32>,
    },
    /// At the second history the player has other numbers than at the first history of the same
    /// information state, before which the own choices were the same. No history before the second
    /// shows a fault.
    Actions {
        player: u32,
        first: List<u32>,
        second: List<u32>,
    },
    /// Memory ran out.
    NoMemory,
}

impl fmt::Display for TreeFault {
    ghost output = { λ fault. Some (fault_text fault) };

    fn fmt<W: fmt::Write>(&self, f: &mut fmt::Formatter<W>) -> fmt::Result {
        match self {
            TreeFault::TooMany { limit } => write!(f, "more than {limit} histories"),
            TreeFault::Simultaneous { history } => {
                write!(f, "simultaneous node at {}", Bracketed(history.items()))
            }
            TreeFault::Recall {
                player,
                first,
                second,
            } => {
                let pair = Pair {
                    player: *player,
                    first: first.items(),
                    second: second.items(),
                };
                write!(f, "imperfect recall of {pair}")
            }
            TreeFault::Actions {
                player,
                first,
                second,
            } => {
                let pair = Pair {
                    player: *player,
                    first: first.items(),
                    second: second.items(),
                };
                write!(f, "actions differ for {pair}")
            }
            TreeFault::NoMemory => write!(f, "no memory"),
        }
    }
}

impl Error for TreeFault {}

impl Tree {
    /// A tree of these parts.
    pub(crate) fn new(
        unit: i64,
        players: u32,
        rows: Rows,
        starts: Vec<u32>,
        firsts: Vec<u32>,
    ) -> Tree
        requires { IsTree (record { unit = unit; players = players; rows = rows_of rows }) rows starts.items firsts.items }
        ensures { result ≡ record { unit = unit; players = players; rows = rows_of rows } }
    {
        Tree {
            unit,
            players,
            rows,
            starts,
            firsts,
        }
    }

    /// A return is counted in parts of 1/`unit`.
    pub fn unit(&self) -> i64
        ensures { result ≡ self.now.unit }
    {
        self.unit
    }

    /// How many players there are.
    pub fn players(&self) -> u32
        ensures { result ≡ self.now.players }
    {
        self.players
    }

    /// How many histories there are: the empty one at least. The tree is that of a game, and it has
    /// perfect recall, one list of numbers for each information state, and nobody who chooses at once
    /// with others.
    pub fn histories(&self) -> u32
        ensures count { result ≡ length self.now.rows }
        ensures some { 1 ≤ result }
        ensures game { IsGameTree self.now }
        ensures recall { HasPerfectRecall self.now.rows }
    {
        self.rows.count()
    }

    /// How many information states there are. The tree is that of a game.
    pub fn states(&self) -> u32
        ensures count { result ≡ length (states_below self.now.players self.now.rows) }
        ensures game { IsGameTree self.now }
    {
        self.firsts.len() as u32
    }

    fn player_at(&self, state: u32) -> u32
        requires { state < length (states_below self.now.players self.now.rows) }
        ensures { result ≡ (state_at self.now.players self.now.rows state).player }
    {
        player_of(&self.rows, &self.starts, state)
    }

    /// Who moves at an information state. They are numbered by player, and within a player by their
    /// first histories.
    pub fn state_player(&self, state: u32) -> u32
        requires { state < length (states_below self.now.players self.now.rows) }
        ensures player { result ≡ (state_at self.now.players self.now.rows state).player }
        ensures within { result < self.now.players }
    {
        self.player_at(state)
    }

    /// What the mover sees at an information state.
    pub fn state_text(&self, state: u32) -> &[u8]
        requires { state < length (states_below self.now.players self.now.rows) }
        ensures { result.now ≡ (state_at self.now.players self.now.rows state).text }
    {
        text_of(&self.rows, &self.starts, state)
    }

    /// How many numbers the mover has at an information state: one at least.
    pub fn action_count(&self, state: u32) -> u32
        requires { state < length (states_below self.now.players self.now.rows) }
        ensures count { result ≡ length (numbers_of self.now.players self.now.rows state) }
        ensures some { 1 ≤ result }
    {
        self.row_count(self.firsts[state as usize])
    }

    /// One of the numbers of the mover at an information state.
    pub fn action_at(&self, state: u32, index: u32) -> u32
        requires state { state < length (states_below self.now.players self.now.rows) }
        requires index { index < length (numbers_of self.now.players self.now.rows state) }
        ensures { result ≡ slice_index (numbers_of self.now.players self.now.rows state) index }
    {
        self.row_action(self.firsts[state as usize], index)
    }

    /// The information state of a player with this text.
    pub fn find(&self, player: u32, text: &[u8]) -> Option<u32>
        requires { player < self.now.players }
        ensures there { IfSome result (λ s. state_at self.now.players self.now.rows s ≡ record { player = player; text = text.now }) }
        ensures within { IfSome result (λ s. s < length (states_below self.now.players self.now.rows)) }
        ensures none { IfNone result (Contains (states_below self.now.players self.now.rows) (record { player = player; text = text.now }) → ⊥) }
    {
        find(&self.rows, &self.starts, player, text)
    }

    /// Whose number is next at a history.
    pub fn row_place(&self, row: u32) -> Place
        requires { row < length self.now.rows }
        ensures { result ≡ (row_at self.now.rows row).here.place }
    {
        self.flat_row(row).place
    }

    /// The history without its last number; there is none before the first.
    pub fn row_parent(&self, row: u32) -> Option<u32>
        requires { row < length self.now.rows }
        ensures some { IfSome result (λ parent. IsParent self.now.rows parent row) }
        ensures none { IfNone result (row ≡ 0) }
    {
        self.flat_row(row).parent
    }

    /// The place of the last number of a history among those of its parent.
    #[tactic(auto, using(crate::proofs::TreeRows::last_of_way))]
    pub fn row_step(&self, row: u32) -> u32
        requires within { row < length self.now.rows }
        requires later { 0 < row }
        ensures { result ≡ last_index (row_at self.now.rows row).way }
    {
        self.flat_row(row).step
    }

    /// How many numbers there are at a history.
    pub fn row_count(&self, row: u32) -> u32
        requires { row < length self.now.rows }
        ensures { result ≡ length (row_at self.now.rows row).here.numbers }
    {
        self.numbers_at(row).len() as u32
    }

    /// One of the numbers at a history.
    fn row_action(&self, row: u32, index: u32) -> u32
        requires within { row < length self.now.rows }
        requires index { index < length (row_at self.now.rows row).here.numbers }
        ensures { result ≡ slice_index (row_at self.now.rows row).here.numbers index }
    {
        self.numbers_at(row)[index as usize]
    }

    /// The weight of one of the numbers at a chance node.
    pub fn row_weight(&self, row: u32, index: u32) -> u64
        requires within { row < length self.now.rows }
        requires chance { (row_at self.now.rows row).here.place ≡ Chance }
        requires index { index < length (row_at self.now.rows row).here.numbers }
        ensures { result ≡ slice_index (row_at self.now.rows row).here.weights index }
    {
        self.weights_at(row)[index as usize]
    }

    /// The information state of a history, at a move. The mover has the same numbers there as at the
    /// state's first history.
    pub fn row_state(&self, row: u32) -> Option<u32>
        requires { row < length self.now.rows }
        ensures state { result ≡ state_of self.now.rows (row_at self.now.rows row) }
        ensures within { IfSome result (λ s. s < length (states_below self.now.players self.now.rows)) }
        ensures same_numbers { IfSome result (λ s. numbers_of self.now.players self.now.rows s ≡ (row_at self.now.rows row).here.numbers) }
    {
        state_of(&self.rows, &self.starts, row)
    }

    /// What a player gets at the end, in parts of 1/`unit`.
    pub fn row_pay(&self, row: u32, player: u32) -> i64
        requires within { row < length self.now.rows }
        requires over { (row_at self.now.rows row).here.place ≡ End }
        requires player { player < self.now.players }
        ensures { result ≡ slice_index_or (row_at self.now.rows row).here.pays player (pos 0) }
    {
        self.pays_at(row)[player as usize]
    }

    fn flat_row(&self, row: u32) -> FlatRow
        requires { row < length self.now.rows }
        ensures place { (row_at self.now.rows row).here.place ≡ result.place }
        ensures way { (row_at self.now.rows row).way ≡ way_to self.now.rows result.parent result.step }
        ensures before { IsBefore result.parent row }
        ensures taken { IfSome result.parent (λ parent. result.step < length (row_at self.now.rows parent).here.numbers) }
    {
        self.rows.flat.items()[row as usize]
    }

    fn numbers_at(&self, row: u32) -> &[u32]
        requires { row < length self.now.rows }
        ensures numbers { result.now ≡ (row_at self.now.rows row).here.numbers }
        ensures few { length result.now < 2 ^ 32 }
    {
        self.rows.numbers.at(row as usize)
    }

    fn weights_at(&self, row: u32) -> &[u64]
        requires { row < length self.now.rows }
        ensures weights { result.now ≡ (row_at self.now.rows row).here.weights }
        ensures each { (row_at self.now.rows row).here.place ≡ Chance → length result.now ≡ length (row_at self.now.rows row).here.numbers }
    {
        self.rows.weights.at(row as usize)
    }

    fn pays_at(&self, row: u32) -> &[i64]
        requires { row < length self.now.rows }
        ensures pays { result.now ≡ (row_at self.now.rows row).here.pays }
        ensures each { (row_at self.now.rows row).here.place ≡ End → length result.now ≡ self.now.players }
    {
        self.rows.pays.at(row as usize)
    }
}
