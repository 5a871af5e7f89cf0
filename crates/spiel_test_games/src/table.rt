//! Games that are given as tables of nodes.
ghost use Rattle.std.specs.Prelude.{◌≡◌, ◌↔◌, true, IsSome, IsTrue, IfSome};
ghost use Rattle.spiel_test_games.specs.Node.{is_node};
ghost use Rattle.spiel_test_games.specs.Table.{is_table, next_node, node_after, node_at, node_in, table_rules};

use crate::node::{CAP, Node, are_nodes, entry_after};
use spiel_api::{Game, Place};
use spiel_frac::{List, NoMemory, Text};
use std::alloc::Global;

/// A game that is given as a table of nodes. A play begins at the first node, goes from node to node
/// as its numbers say, and ends at a terminal node, outside the table, or with its 4,096th number.
/// Several numbers may lead to one node. No return passes 2^62, which is the cap.
///
/// Each number has the name `go`. A state is the history.
#[derive(Clone, Copy)]
pub struct NodeTable {
    /// How many players there are.
    pub players: u32,
    /// How many parts a whole return has.
    pub unit: u64,
    /// The nodes, of which the first is the root.
    pub nodes: &'static [Node],
    ghost sound: { is_table players unit nodes.now ≡ true },
}

impl NodeTable {
    /// The game of this table. There is none exactly where it is out of range: 1 to 64 players, a unit
    /// of 1 to 2^62, movers among the players, at least one number for each decision, weights of a
    /// chance node that sum to 1 to 2^62, at most 1,048,576 numbers at a node, texts of at most 32,768
    /// printable ASCII characters, and returns of at most 2^62 in size.
    pub fn new(players: u32, unit: u64, nodes: &'static [Node]) -> Option<NodeTable>
        ensures some { IsSome result ↔ IsTrue (is_table players unit nodes.now) }
        ensures rules { IfSome result (λ game. table_rules game.players game.unit game.nodes.now ≡ table_rules players unit nodes.now) }
    {
        if is_table(players, unit, nodes) {
            Some(NodeTable {
                players,
                unit,
                nodes,
            })
        } else {
            None
        }
    }

    /// The node at which a play stands, if it isn't over.
    fn node(&self, state: &List<u32>) -> Option<Node>
        ensures value { result ≡ node_at self.now.nodes.now state.now }
        ensures sound { IfSome result (λ node. is_node self.now.players node ≡ true) }
    {
        if state.items().len() < 4096 {
            self.node_after(state.items())
        } else {
            None
        }
    }

    /// The node to which numbers lead from the root.
    fn node_after(&self, history: &[u32]) -> Option<Node>
        ensures { result ≡ node_after self.now.nodes.now history.now }
    {
        let mut node = self.node_in(Some(0));
        for number in history {
            node = self.next(node, *number);
        }
        node
    }

    /// The node to which a number leads.
    fn next(&self, node: Option<Node>, number: u32) -> Option<Node>
        ensures { result ≡ next_node self.now.nodes.now node number }
    {
        match node {
            Some(node) => self.node_in(entry_after(node, number)),
            None => None,
        }
    }

    fn node_in(&self, entry: Option<u32>) -> Option<Node>
        ensures { result ≡ node_in self.now.nodes.now entry }
    {
        match entry {
            Some(entry) => self.nodes.get(entry as usize).copied(),
            None => None,
        }
    }
}

fn is_table(players: u32, unit: u64, nodes: &[Node]) -> bool
    ensures { result ≡ is_table players unit nodes.now }
{
    1 <= players && players <= 64 && 1 <= unit && unit <= CAP && are_nodes(players, nodes)
}

impl Game for NodeTable {
    ghost use Rattle.std.specs.Prelude.{⊤};
    ghost use Rattle.spiel_api.specs.Plays.{IsPlay};
    ghost use Rattle.spiel_test_games.specs.Table.{table_rules};
    ghost use Rattle.spiel_test_games.specs.TableLaws.{table_lawful};

    type State = List<u32>;

    ghost is_game = { λ _. ⊤ };

    ghost rules = { λ g. table_rules g.players g.unit g.nodes.now };

    ghost is_at = { λ g s. IsPlay (table_rules g.players g.unit g.nodes.now) s };

    ghost history_of = { λ _ s. s };

    ghost plays = { λ g s at. at };

    ghost lawful = { λ g h. table_lawful g.players g.unit g.nodes.now g.sound };

    ghost can_be_played = { λ g s at. tt };

    fn players(&self) -> u32 {
        self.players
    }

    fn unit(&self) -> i64 {
        self.unit as i64
    }

    fn pay_cap(&self) -> i64 {
        CAP as i64
    }

    fn one_shot(&self) -> bool {
        false
    }

    fn start(&self, alloc: Global) -> Result<List<u32>, NoMemory> {
        Ok(List::new(alloc))
    }

    fn place(&self, state: &List<u32>) -> Place {
        match self.node(state) {
            Some(Node::Chance(_)) => Place::Chance,
            Some(Node::Decision(mover, _, _)) => Place::Move(mover),
            _ => Place::End,
        }
    }

    fn legal_count(&self, state: &List<u32>, player: u32) -> u32 {
        match self.node(state) {
            Some(Node::Chance(outcomes)) => outcomes.len() as u32,
            Some(Node::Decision(mover, _, entries)) if mover == player => entries.len() as u32,
            _ => 0,
        }
    }

    fn legal_at(&self, _state: &List<u32>, _player: u32, index: u32) -> u32 {
        index
    }

    fn weight_at(&self, state: &List<u32>, index: u32) -> u64 {
        match self.node(state) {
            Some(Node::Chance(outcomes)) => match outcomes.get(index as usize) {
                Some((weight, _)) => *weight,
                None => 0,
            },
            _ => 0,
        }
    }

    fn pay(&self, state: &List<u32>, player: u32) -> i64 {
        match self.node(state) {
            Some(Node::Terminal(pays)) => match pays.get(player as usize) {
                Some(pay) => *pay,
                None => 0,
            },
            _ => 0,
        }
    }

    fn history<'a>(&self, state: &'a List<u32>) -> &'a [u32] {
        state.items()
    }

    fn info(
        &self,
        _alloc: Global,
        state: &List<u32>,
        _player: u32,
        out: &mut Text,
    ) -> Result<(), NoMemory> {
        match self.node(state) {
            Some(Node::Decision(_, seen, _)) => out.push(seen),
            _ => out.push(b""),
        }
    }

    fn action_name(
        &self,
        _alloc: Global,
        _state: &List<u32>,
        _player: u32,
        _action: u32,
        out: &mut Text,
    ) -> Result<(), NoMemory> {
        out.push(b"go")
    }

    fn apply(&self, _alloc: Global, state: &mut List<u32>, action: u32) -> Result<(), NoMemory> {
        state.push(action)
    }

    fn undo(&self, state: &mut List<u32>) {
        state.pop();
    }

    fn copy(&self, alloc: Global, state: &List<u32>) -> Result<List<u32>, NoMemory> {
        let mut history = List::new(alloc);
        history.extend(state.items())?;
        Ok(history)
    }
}
