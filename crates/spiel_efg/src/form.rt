//! Whether parts have the form of an extensive game.
ghost use Rattle.std.specs.Prelude.{◌≡◌, ◌==◌, ◌∷◌, true, map, IfOk, MatchResult, length};
ghost use Rattle.std.specs.List.{list_all};
ghost use Rattle.spiel_efg.specs.Faults.{IsRefused};
ghost use Rattle.spiel_efg.specs.Mentions.{place_of};
ghost use Rattle.spiel_efg.specs.Sets.{kept_weights};
ghost use Rattle.spiel_efg.specs.Sound.{are_outcomes, are_sets, has_form, is_among, is_kind, is_outcome, is_player_count};
ghost use Rattle.spiel_efg.specs.Tables.{IsForm};
ghost use Rattle.spiel_efg.specs.Tree.{counts_of, is_tree};

use crate::fault::PartsFault;
use crate::mentions::{are_numbered, are_sets_in_order, numbers_of, rows_of};
use crate::parts::{EfgNode, EfgOutcome, EfgParts, EfgSet, NodeKind};
use crate::sets::{all_weights, have_own_numbers};
use crate::tree::{counts_of, is_tree, set_at};
use spiel_frac::{List, Packed};
use std::alloc::Global;

/// What is made on the way: the whole weights of each set, how many subtrees stand behind each node,
/// and the row of each node's outcome.
#[derive(Debug, Drop)]
pub(crate) struct Form {
    pub weights: Packed<u64>,
    pub counts: List<usize>,
    pub rows: List<usize>,
}

fn is_among(players: usize, player: Option<u32>) -> bool
    ensures { result ≡ is_among players player }
{
    match player {
        Some(player) => (player as usize) < players,
        None => false,
    }
}

/// Whether a node's set is there, and is one of chance, or of a player, as the node is.
fn is_kind(players: usize, sets: &[EfgSet], kind: NodeKind) -> bool
    ensures { result ≡ is_kind players sets.now kind }
{
    match kind {
        NodeKind::Chance { set } => match set_at(sets, set) {
            Some(one) => one.player.is_none(),
            None => false,
        },
        NodeKind::Personal { set } => match set_at(sets, set) {
            Some(one) => is_among(players, one.player),
            None => false,
        },
        NodeKind::Terminal => true,
    }
}

fn are_kinds(players: usize, sets: &[EfgSet], nodes: &[EfgNode]) -> bool
    ensures { result ≡ list_all (λ node. is_kind players sets.now node.kind) nodes.now }
{
    nodes.iter().all(|node| is_kind(players, sets, node.kind))
}

/// The whole weights of each set. `Bad` comes exactly where the sets aren't those of a game.
fn set_weights(
    alloc: Global,
    players: usize,
    sets: &[EfgSet],
    nodes: &[EfgNode],
) -> Result<Packed<u64>, PartsFault>
    ensures weights { IfOk result (λ lists. lists ≡ map kept_weights sets.now) }
    ensures test { MatchResult result (λ _. are_sets players sets.now nodes.now ≡ true) (IsRefused (are_sets players sets.now nodes.now)) }
{
    let weights = all_weights(alloc, sets)?;
    if !have_own_numbers(alloc, sets)? {
        return Err(PartsFault::Bad);
    }
    if !are_kinds(players, sets, nodes) {
        return Err(PartsFault::Bad);
    }
    if !are_sets_in_order(sets, nodes) {
        return Err(PartsFault::Bad);
    }
    Ok(weights)
}

/// How many subtrees stand behind each node. `Bad` comes exactly where the nodes are no tree.
fn tree_counts(alloc: Global, sets: &[EfgSet], nodes: &[EfgNode]) -> Result<List<usize>, PartsFault>
    ensures counts { IfOk result (λ counts. counts ≡ counts_of sets.now nodes.now) }
    ensures test { MatchResult result (λ _. is_tree (counts_of sets.now nodes.now) ≡ true) (IsRefused (is_tree (counts_of sets.now nodes.now))) }
{
    let counts = counts_of(alloc, sets, nodes)?;
    if is_tree(alloc, counts.items())? {
        Ok(counts)
    } else {
        Err(PartsFault::Bad)
    }
}

/// Whether an outcome has a payoff for each player.
fn is_whole(players: usize, outcome: &EfgOutcome) -> bool
    ensures { result ≡ is_outcome players outcome.now }
{
    let _number = outcome.number;
    outcome.pays.items().len() == players
}

fn are_whole(players: usize, outcomes: &[EfgOutcome]) -> bool
    ensures { result ≡ list_all (is_outcome players) outcomes.now }
{
    outcomes.iter().all(|outcome| is_whole(players, outcome))
}

/// The row of each node's outcome. `Bad` comes exactly where the outcomes aren't those of a game.
fn node_rows(
    alloc: Global,
    players: usize,
    outcomes: &[EfgOutcome],
    nodes: &[EfgNode],
) -> Result<List<usize>, PartsFault>
    ensures rows { IfOk result (λ rows. rows ≡ map (λ node. place_of (0 ∷ map (λ outcome. outcome.number) outcomes.now) node.outcome) nodes.now) }
    ensures test { MatchResult result (λ _. are_outcomes players outcomes.now nodes.now ≡ true) (IsRefused (are_outcomes players outcomes.now nodes.now)) }
{
    if !are_whole(players, outcomes) {
        return Err(PartsFault::Bad);
    }
    let seen = numbers_of(alloc, nodes)?;
    if !are_numbered(&seen, outcomes) {
        return Err(PartsFault::Bad);
    }
    let rows = rows_of(alloc, &seen, nodes)?;
    Ok(rows)
}

fn is_player_count(players: usize) -> bool
    ensures { result ≡ is_player_count players }
{
    (1..=64).contains(&players)
}

/// What is made of parts on the way. `Bad` comes exactly where all but the sizes of payoffs is right
/// isn't so.
pub(crate) fn form_of(alloc: Global, parts: &EfgParts) -> Result<Form, PartsFault>
    ensures form { IfOk result (IsForm parts.now) }
    ensures test { MatchResult result (λ _. has_form parts.now ≡ true) (IsRefused (has_form parts.now)) }
{
    let players = parts.players.items().len();
    if !is_player_count(players) {
        return Err(PartsFault::Bad);
    }
    let weights = set_weights(alloc, players, parts.sets.items(), parts.nodes.items())?;
    let counts = tree_counts(alloc, parts.sets.items(), parts.nodes.items())?;
    let rows = node_rows(alloc, players, parts.outcomes.items(), parts.nodes.items())?;
    Ok(Form {
        weights,
        counts,
        rows,
    })
}
