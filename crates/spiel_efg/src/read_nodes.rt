//! What the nodes of a file come to.
ghost use Rattle.std.specs.Prelude.{◌≡◌, ◌<◌, ◌≤◌, ◌+◌, ◌^◌, [], length, Ok, MatchResult, IfOk, OnOk, IsTrue, ◌↔◌};
ghost use Rattle.spiel_efg.specs.Sets.{set_at};
ghost use Rattle.spiel_efg.specs.Reading.{is_whole, seed};
ghost use Rattle.spiel_efg.specs.ReadingTokens.{IsComputed};
ghost use Rattle.spiel_efg.specs.ReadingNodes.{grown_by, kind_at, placed, settled, taken, with_node};

use crate::parts::{EfgNode, NodeKind};
use crate::read_fault::EfgFault;
use crate::read_mentions::{NodeMention, SetMention};
use crate::read_outcomes::{Outcomes, with_outcome};
use crate::read_sets::{Sets, with_set};
use crate::waiting::Waiting;
use spiel_frac::{List, NoMemory};
use std::alloc::Global;

/// What has grown so far of a game.
#[derive(Debug, Drop)]
pub(crate) struct Grown {
    pub(crate) sets: Sets,
    pub(crate) outcomes: Outcomes,
    pub(crate) nodes: List<EfgNode>,
    /// How many subtrees are still to come at each node above, that of the nearest first.
    pub(crate) to_come: Waiting<usize>,
}

/// A node's kind, how many actions it has, and the sets after it.
#[derive(Debug, Drop)]
pub(crate) struct Placed {
    pub(crate) kind: NodeKind,
    pub(crate) count: usize,
    pub(crate) sets: Sets,
}

impl Grown {
    /// Nothing: one tree is to come.
    pub(crate) fn new(alloc: Global) -> Result<Grown, NoMemory>
        ensures { IfOk result (λ grown. grown ≡ seed) }
    {
        let mut to_come = Waiting::new(alloc);
        to_come.put(1, 1)?;
        Ok(Grown {
            sets: Sets::new(alloc),
            outcomes: Outcomes::new(alloc),
            nodes: List::new(alloc),
            to_come,
        })
    }

    /// Whether no subtree is to come.
    pub(crate) fn is_whole(&self) -> bool
        ensures { result ≡ is_whole self.now.to_come }
    {
        self.to_come.len() == 0
    }
}

// Leaves the nodes that have no subtrees to come, up to the nearest that has some.
fn settle(to_come: &mut Waiting<usize>) -> Result<(), NoMemory>
    requires { length to_come.old < 2 ^ 32 }
    ensures { OnOk result (to_come.new ≡ settled to_come.old) }
{
    while let Some(count) = to_come.next() {
        if count > 0 {
            to_come.put(count, 1)?;
            return Ok(());
        }
    }
    Ok(())
}

// Takes a subtree from the nearest node.
fn take(to_come: &mut Waiting<usize>) -> Result<(), NoMemory>
    requires { length to_come.old < 2 ^ 32 }
    ensures { OnOk result (to_come.new ≡ taken to_come.old) }
{
    if let Some(count) = to_come.next() {
        to_come.put(count.saturating_sub(1), 1)?;
    }
    Ok(())
}

// Goes on behind a node with so many subtrees.
fn grow(to_come: &mut Waiting<usize>, count: usize) -> Result<(), NoMemory>
    requires { length to_come.old < 2 ^ 31 }
    ensures { OnOk result (to_come.new ≡ grown_by count to_come.old) }
{
    take(to_come)?;
    to_come.put(count, 1)?;
    settle(to_come)
}

// The kind of a node that mentions the set at a place.
fn kind_at(player: Option<u32>, place: u32) -> NodeKind
    ensures { result ≡ kind_at player place }
{
    match player {
        Some(_) => NodeKind::Personal { set: place },
        None => NodeKind::Chance { set: place },
    }
}

// Where a node is placed by its mention of a set.
fn place(
    alloc: Global,
    node: u32,
    sets: Sets,
    mention: Option<SetMention>,
) -> Result<Placed, EfgFault>
    requires { length sets < 2 ^ 32 }
    ensures answer { MatchResult result
        (λ at. placed node sets mention ≡ Ok at)
        (IsComputed (placed node sets mention)) }
    ensures count { IfOk result (λ at. length at.sets ≤ length sets + 1) }
{
    let Some(mention) = mention else {
        return Ok(Placed {
            kind: NodeKind::Terminal,
            count: 0,
            sets,
        });
    };
    let player = mention.player;
    let (place, sets) = with_set(alloc, node, sets, mention)?;
    let count = sets.items()[place as usize].actions.items().len();
    Ok(Placed {
        kind: kind_at(player, place),
        count,
        sets,
    })
}

/// What has grown after a node.
#[tactic(auto, unfolding(crate::specs::ReadingNodes::with_node))]
pub(crate) fn with_node(
    alloc: Global,
    grown: Grown,
    mention: NodeMention,
) -> Result<Grown, EfgFault>
    requires sets { length grown.sets ≤ length grown.nodes }
    requires nodes { length grown.nodes < 2 ^ 31 }
    requires depth { length grown.to_come < 2 ^ 31 }
    ensures answer { MatchResult result
        (λ more. with_node grown mention ≡ Ok more)
        (IsComputed (with_node grown mention)) }
    ensures sets { IfOk result (λ more. length more.sets ≤ length more.nodes) }
    ensures nodes { IfOk result (λ more. length more.nodes ≡ length grown.nodes + 1) }
{
    let NodeMention { name, set, outcome } = mention;
    let Grown {
        sets,
        outcomes,
        mut nodes,
        mut to_come,
    } = grown;
    let node = nodes.items().len() as u32;
    let at = place(alloc, node, sets, set)?;
    let number = outcome.number;
    let outcomes = with_outcome(node, outcomes, outcome)?;
    nodes.push(EfgNode {
        name,
        kind: at.kind,
        outcome: number,
    })?;
    grow(&mut to_come, at.count)?;
    Ok(Grown {
        sets: at.sets,
        outcomes,
        nodes,
        to_come,
    })
}
