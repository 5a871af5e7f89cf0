//! Whether sets and outcomes stand in the order in which nodes first mention them.
ghost use Rattle.std.specs.Prelude.{◌≡◌, [], ◌∷◌, drop, map, IfOk};
ghost use Rattle.spiel_efg.specs.Mentions.{are_equal, are_sets_in_order, begins_with, first_mentions, place_after, place_of, seen_after};

use crate::parts::{EfgNode, EfgOutcome, EfgSet, NodeKind};
use crate::seen::Numbers;
use spiel_frac::{List, NoMemory};
use std::alloc::Global;

/// How many sets were seen behind a mention: none where it is too far ahead.
fn place_after(seen: usize, place: u32) -> Option<usize>
    ensures { result ≡ place_after seen place }
{
    let place = place as usize;
    if place < seen {
        Some(seen)
    } else if place == seen {
        Some(seen + 1)
    } else {
        None
    }
}

/// How many sets were seen behind a node.
fn seen_after(seen: usize, kind: NodeKind) -> Option<usize>
    ensures { result ≡ seen_after seen kind }
{
    match kind {
        NodeKind::Chance { set } => place_after(seen, set),
        NodeKind::Personal { set } => place_after(seen, set),
        NodeKind::Terminal => Some(seen),
    }
}

/// Whether every set is mentioned, and they stand in the order of first mention.
pub(crate) fn are_sets_in_order(sets: &[EfgSet], nodes: &[EfgNode]) -> bool
    ensures { result ≡ are_sets_in_order sets.now nodes.now }
{
    let mut seen = 0usize;
    for node in nodes {
        let Some(after) = seen_after(seen, node.kind) else {
            return false;
        };
        seen = after;
    }
    seen == sets.len()
}

/// The numbers of outcomes in the order of first mention, behind 0.
pub(crate) fn numbers_of(alloc: Global, nodes: &[EfgNode]) -> Result<Numbers, NoMemory>
    ensures { IfOk result (λ seen. seen ≡ first_mentions (0 ∷ []) (map (λ node. node.outcome) nodes.now)) }
{
    let mut seen = Numbers::new(alloc);
    seen.note(0)?;
    for node in nodes {
        seen.note(node.outcome)?;
    }
    Ok(seen)
}

/// Whether a number was seen at a place.
fn stands_at(seen: &Numbers, place: usize, number: u32) -> bool
    ensures { result ≡ begins_with (drop place seen.now) number }
{
    place < seen.len() && seen.at(place) == number
}

/// Whether 0 and the numbers of these outcomes were seen, in order.
pub(crate) fn are_numbered(seen: &Numbers, outcomes: &[EfgOutcome]) -> bool
    ensures { result ≡ are_equal seen.now (0 ∷ map (λ outcome. outcome.number) outcomes.now) }
{
    if !stands_at(seen, 0, 0) {
        return false;
    }
    for (place, outcome) in outcomes.iter().enumerate() {
        if !stands_at(seen, place + 1, outcome.number) {
            return false;
        }
    }
    seen.len() <= outcomes.len() + 1
}

/// For each node the place of its outcome among these numbers.
pub(crate) fn rows_of(
    alloc: Global,
    seen: &Numbers,
    nodes: &[EfgNode],
) -> Result<List<usize>, NoMemory>
    ensures { IfOk result (λ rows. rows ≡ map (λ node. place_of seen.now node.outcome) nodes.now) }
{
    let mut rows = List::new(alloc);
    for node in nodes {
        rows.push(seen.place(node.outcome))?;
    }
    Ok(rows)
}
