//! What an extensive game is made of.

use spiel_frac::{Frac, List, Text};

/// An action of an information set.
#[derive(Debug, Drop)]
pub struct EfgAction {
    /// The action's name.
    pub name: Text,
    /// At a chance set the action's probability, and else 0.
    pub weight: Frac,
}

/// An information set (Kuhn 1953): nodes with the same actions, which whoever moves can't tell
/// apart.
#[derive(Debug, Drop)]
pub struct EfgSet {
    /// Who moves there, counted from 0, or `None` for chance.
    pub player: Option<u32>,
    /// The number by which the set is known among those of its player, or of chance.
    pub number: u32,
    /// The set's name, which no rule reads.
    pub name: Text,
    /// The actions of each of its nodes.
    pub actions: List<EfgAction>,
}

/// An outcome: what each player gets where a node has it.
#[derive(Debug, Drop)]
pub struct EfgOutcome {
    /// The number by which the outcome is known. It isn't 0.
    pub number: u32,
    /// The outcome's name, which no rule reads.
    pub name: Text,
    /// The payoff of each player.
    pub pays: List<Frac>,
}

/// What happens at a node.
#[derive(Clone, Copy, Debug, PartialEq, Eq)]
pub enum NodeKind {
    /// Chance moves.
    Chance {
        /// The place of the node's set in the list of sets.
        set: u32,
    },
    /// A player moves.
    Personal {
        /// The place of the node's set in the list of sets.
        set: u32,
    },
    /// The game is over.
    Terminal,
}

/// A node of the tree.
#[derive(Debug, Drop)]
pub struct EfgNode {
    /// The node's name, which no rule reads.
    pub name: Text,
    /// What happens there.
    pub kind: NodeKind,
    /// The number of the node's outcome, or 0 for none.
    pub outcome: u32,
}

/// What an extensive game is made of (Gambit's extensive form games).
///
/// The nodes stand in preorder: behind a node stand the subtrees of its actions, in order. Sets and
/// outcomes stand in the order in which nodes first mention them.
#[derive(Debug, Drop)]
pub struct EfgParts {
    /// The title, which no rule reads.
    pub title: Text,
    /// The names of the players, which no rule reads.
    pub players: List<Text>,
    /// A comment, which no rule reads.
    pub comment: Text,
    /// The information sets, those of chance among them.
    pub sets: List<EfgSet>,
    /// The outcomes.
    pub outcomes: List<EfgOutcome>,
    /// The nodes, of which the first is the root.
    pub nodes: List<EfgNode>,
}
