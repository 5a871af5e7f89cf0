//! The tree of a file.
ghost use Rattle.std.specs.Prelude.{◌≡◌, ◌<◌, ◌≤◌, ◌+◌, ◌^◌, [], length, Ok, MatchResult, IfOk, OnOk};
ghost use Rattle.spiel_efg.specs.Tree.{most_nodes};
ghost use Rattle.spiel_efg.specs.Reading.{begun_at, node_at, parts_at, seed, tree_at};
ghost use Rattle.spiel_efg.specs.ReadingTokens.{IsComputed};

use crate::parts::EfgParts;
use crate::read_fault::EfgFault;
use crate::read_lines::{head, node_behind};
use crate::read_mentions::Begins;
use crate::read_nodes::{Grown, with_node};
use crate::read_tokens::Reader;
use std::alloc::Global;

/// How many nodes a tree may have.
const MOST_NODES: usize = 1_048_576;

/// How many moves may stand above a node.
const MOST_MOVES: usize = 1_024;

// The word that a node begins with, where the node isn't too deep.
fn begun(reader: &mut Reader<'_>, grown: &Grown) -> Result<Begins, EfgFault>
    ensures answer { MatchResult result
        (λ begins. begun_at grown.now reader.old ≡ Ok (begins, reader.new))
        (IsComputed (begun_at grown.now reader.old)) }
    ensures depth { OnOk result (length grown.now.to_come ≤ 1025) }
{
    let begins = reader.take_begins()?;
    if grown.to_come.len() > MOST_MOVES + 1 {
        return Err(EfgFault::TooLarge);
    }
    Ok(begins)
}

// What has grown after the next node.
#[tactic(auto, unfolding(crate::specs::Reading::node_at))]
fn node(
    alloc: Global,
    reader: &mut Reader<'_>,
    players: u32,
    grown: Grown,
) -> Result<Grown, EfgFault>
    requires sets { length grown.sets ≤ length grown.nodes }
    requires nodes { length grown.nodes < 2 ^ 31 }
    ensures answer { MatchResult result
        (λ more. node_at players grown reader.old ≡ Ok (more, reader.new))
        (IsComputed (node_at players grown reader.old)) }
    ensures sets { IfOk result (λ more. length more.sets ≤ length more.nodes) }
    ensures nodes { IfOk result (λ more. length more.nodes ≡ length grown.nodes + 1) }
{
    let begins = begun(reader, &grown)?;
    let mention = node_behind(alloc, reader, players, begins)?;
    with_node(alloc, grown, mention)
}

// What has grown when the tree is whole.
fn tree(alloc: Global, reader: &mut Reader<'_>, players: u32) -> Result<Grown, EfgFault>
    ensures { MatchResult result
        (λ grown. tree_at most_nodes players seed reader.old ≡ Ok (grown, reader.new))
        (IsComputed (tree_at most_nodes players seed reader.old)) }
{
    let mut grown = Grown::new(alloc)?;
    for _ in 0..MOST_NODES {
        if grown.is_whole() {
            return Ok(grown);
        }
        grown = node(alloc, reader, players, grown)?;
    }
    if grown.is_whole() {
        return Ok(grown);
    }
    reader.take_begins()?;
    Err(EfgFault::TooLarge)
}

/// The parts that the tokens give.
#[tactic(auto, unfolding(crate::specs::Reading::parts_at))]
pub(crate) fn parts(alloc: Global, reader: &mut Reader<'_>) -> Result<EfgParts, EfgFault>
    ensures { MatchResult result
        (λ parts. parts_at reader.old ≡ Ok parts)
        (IsComputed (parts_at reader.old)) }
{
    let head = head(alloc, reader)?;
    let grown = tree(alloc, reader, head.players.items().len() as u32)?;
    if !reader.is_done() {
        return Err(reader.fault());
    }
    Ok(EfgParts {
        title: head.title,
        players: head.players,
        comment: head.comment,
        sets: grown.sets.into_list(),
        outcomes: grown.outcomes.into_list(),
        nodes: grown.nodes,
    })
}
