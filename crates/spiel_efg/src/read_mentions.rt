//! What one node's line says.

use crate::parts::EfgAction;
use spiel_frac::{Frac, List, Text};

/// What the word that begins a node says of it.
#[derive(Clone, Copy, Debug, PartialEq, Eq)]
pub(crate) enum Begins {
    /// `c`
    Chance,
    /// `p`
    Personal,
    /// `t`
    Terminal,
}

/// A set as a node mentions it. An absent name is an empty one.
#[derive(Debug, Drop)]
pub(crate) struct SetMention {
    pub(crate) player: Option<u32>,
    pub(crate) number: u32,
    pub(crate) name: Text,
    pub(crate) actions: Option<List<EfgAction>>,
}

/// An outcome as a node mentions it. An absent name is an empty one.
#[derive(Debug, Drop)]
pub(crate) struct OutcomeMention {
    pub(crate) number: u32,
    pub(crate) name: Text,
    pub(crate) pays: Option<List<Frac>>,
}

/// A node as its line gives it: there is no set where it is terminal.
#[derive(Debug, Drop)]
pub(crate) struct NodeMention {
    pub(crate) name: Text,
    pub(crate) set: Option<SetMention>,
    pub(crate) outcome: OutcomeMention,
}

/// What stands above the nodes.
#[derive(Debug, Drop)]
pub(crate) struct Head {
    pub(crate) title: Text,
    pub(crate) players: List<Text>,
    pub(crate) comment: Text,
}
