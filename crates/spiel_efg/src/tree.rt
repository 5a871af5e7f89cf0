//! Whether nodes are a tree, and where the children of each node stand.
ghost use Rattle.std.specs.Prelude.{◌≡◌, ◌≤◌, ◌<◌, true, length, reverse, take, drop, slice_index_or, IfOk, OnOk, MatchOption, Contains};
ghost use Rattle.spiel_efg.specs.Places.{children_from};
ghost use Rattle.spiel_efg.specs.Sets.{action_count, set_at};
ghost use Rattle.spiel_efg.specs.Tree.{counts_of, is_forest, is_shallow, is_tree, most_nodes};

use crate::parts::{EfgNode, EfgSet, NodeKind};
use crate::waiting::Waiting;
use spiel_frac::{List, NoMemory, Packed};
use std::alloc::Global;

/// The most nodes of a tree.
const MOST_NODES: usize = 1_048_576;

/// The most moves on a path.
const MOST_MOVES: u32 = 1024;

/// The set at a place, if there is one.
pub(crate) fn set_at(sets: &[EfgSet], place: u32) -> Option<&EfgSet>
    ensures { MatchOption result (length sets.now ≤ place) (λ one. (place < length sets.now) × (one.now ≡ set_at sets.now place)) }
{
    sets.get(place as usize)
}

/// How many actions there are at a set.
fn actions_at(sets: &[EfgSet], place: u32) -> usize
    ensures { result ≡ length (set_at sets.now place).actions }
{
    match set_at(sets, place) {
        Some(one) => one.actions.items().len(),
        None => 0,
    }
}

/// How many actions there are at a node.
fn action_count(sets: &[EfgSet], kind: NodeKind) -> usize
    ensures { result ≡ action_count sets.now kind }
{
    match kind {
        NodeKind::Chance { set } => actions_at(sets, set),
        NodeKind::Personal { set } => actions_at(sets, set),
        NodeKind::Terminal => 0,
    }
}

/// How many subtrees stand behind each node.
pub(crate) fn counts_of(
    alloc: Global,
    sets: &[EfgSet],
    nodes: &[EfgNode],
) -> Result<List<usize>, NoMemory>
    ensures { IfOk result (λ counts. counts ≡ counts_of sets.now nodes.now) }
{
    let mut counts = List::new(alloc);
    for node in nodes {
        counts.push(action_count(sets, node.kind))?;
    }
    Ok(counts)
}

/// Whether the nodes are exactly one tree.
fn is_forest(counts: &[usize]) -> bool
    requires { length counts.now ≤ most_nodes }
    ensures { result ≡ is_forest 1 counts.now }
{
    let mut coming = 1usize;
    for count in counts {
        if coming == 0 {
            return false;
        }
        if *count > counts.len() + 1 - coming {
            return false;
        }
        coming = coming - 1 + *count;
    }
    coming == 0
}

/// Whether there aren't too many moves on any path.
fn is_shallow(alloc: Global, counts: &[usize]) -> Result<bool, NoMemory>
    requires few { length counts.now ≤ most_nodes }
    requires tree { is_forest 1 counts.now ≡ true }
    ensures { IfOk result (λ is. is ≡ is_shallow counts.now) }
{
    let mut waiting = Waiting::new(alloc);
    waiting.put(0u32, 1)?;
    for count in counts {
        let Some(depth) = waiting.next() else {
            return Ok(true);
        };
        if depth > MOST_MOVES {
            return Ok(false);
        }
        waiting.put(depth + 1, *count)?;
    }
    Ok(true)
}

/// Whether there aren't too many nodes, they are exactly one tree, and there aren't too many moves
/// on any path.
pub(crate) fn is_tree(alloc: Global, counts: &[usize]) -> Result<bool, NoMemory>
    ensures { IfOk result (λ is. is ≡ is_tree counts.now) }
{
    if counts.len() > MOST_NODES || !is_forest(counts) {
        return Ok(false);
    }
    is_shallow(alloc, counts)
}

/// Takes so many roots.
#[tactic(auto, using(crate::proofs::Forests::taken_more, crate::proofs::Forests::none_left))]
fn take_roots(alloc: Global, roots: &mut Waiting<u32>, count: usize) -> Result<List<u32>, NoMemory>
    ensures own { IfOk result (λ own. own ≡ take count roots.old) }
    ensures rest { OnOk result (roots.new ≡ drop count roots.old) }
{
    let mut own = List::new(alloc);
    for _taken in 0..count {
        let Some(root) = roots.next() else {
            return Ok(own);
        };
        own.push(root)?;
    }
    Ok(own)
}

/// The places of the children of each node, those of the last node first.
pub(crate) fn children_of(alloc: Global, counts: &[usize]) -> Result<Packed<u32>, NoMemory>
    requires { length counts.now ≤ most_nodes }
    ensures { IfOk result (λ lists. lists ≡ reverse (children_from 0 counts.now)) }
{
    let mut roots = Waiting::new(alloc);
    let mut lists = Packed::new(alloc);
    for place in (0..counts.len()).rev() {
        let own = take_roots(alloc, &mut roots, counts[place])?;
        lists.push(own.items())?;
        roots.put(place as u32, 1)?;
    }
    Ok(lists)
}
