//! Policies, made and read, by their weights in whole parts, and the files that are written of them.
ghost use Rattle.std.specs.Prelude.{IfSome};
ghost use Rattle.spiel_policy.specs.Profiles.{Fits};

use super::games::{THREE, THREE_POLICY};
use spiel_frac::Text;
use spiel_policy::{Policy, first_action, read_policy, uniform, write_policy};
use spiel_test_games::{Node, NodeTable};
use spiel_tree::{Tree, TreeFault, build};
use std::alloc::Global;

/// A policy that each tree has, or one from a policy file.
#[derive(Clone, Copy)]
pub(super) enum Given {
    /// Whoever moves takes each number with the same probability.
    Uniform,
    /// Whoever moves takes the first number.
    First,
    File(&'static [u8]),
}

/// The tree of a game that is given as a table.
pub(super) fn tree_of(
    alloc: Global,
    players: u32,
    unit: u64,
    nodes: &'static [Node],
) -> Option<Tree> {
    let game = NodeTable::new(players, unit, nodes)?;
    build(alloc, &game, 1000).ok()
}

/// A policy for a tree.
pub(super) fn policy_for(alloc: Global, tree: &Tree, given: Given) -> Option<Policy>
    ensures { IfSome result (λ policy. Fits tree.now policy) }
{
    match given {
        Given::Uniform => uniform(alloc, tree).ok(),
        Given::First => first_action(alloc, tree).ok(),
        Given::File(bytes) => read_policy(alloc, tree, bytes).ok(),
    }
}

/// The weight of the number at an index, at an information state.
fn weight_at(tree: &Tree, policy: &Policy, state: u32, index: u32) -> Option<u128>
    requires { Fits tree.now policy.now }
{
    if state < tree.states() && index < tree.action_count(state) {
        Some(policy.weight(state, index))
    } else {
        None
    }
}

/// The sum of the weights at an information state.
fn total_at(tree: &Tree, policy: &Policy, state: u32) -> Option<u128>
    requires { Fits tree.now policy.now }
{
    if state < tree.states() {
        Some(policy.total(state))
    } else {
        None
    }
}

/// Whether the last of three information states has these three weights, and this sum.
fn ends_with(tree: &Tree, policy: &Policy, weights: [u128; 3], total: u128) -> bool
    requires { Fits tree.now policy.now }
{
    for (index, weight) in weights.iter().enumerate() {
        if weight_at(tree, policy, 2, index as u32) != Some(*weight) {
            return false;
        }
    }
    tree.states() == 3 && total_at(tree, policy, 2) == Some(total)
}

/// Whether player 2 of three has these weights by a policy.
fn has_weights(alloc: Global, given: Given, weights: [u128; 3], total: u128) -> bool {
    let Some(tree) = tree_of(alloc, 3, 2, THREE) else {
        return false;
    };
    match policy_for(alloc, &tree, given) {
        Some(policy) => ends_with(&tree, &policy, weights, total),
        None => false,
    }
}

#[test]
fn weights_are_whole_parts(rt: HostRuntime) {
    assert!(rt; has_weights(rt.alloc(), Given::Uniform, [1, 1, 1], 3));
    assert!(rt; has_weights(rt.alloc(), Given::First, [1, 0, 0], 1));
    assert!(rt; has_weights(rt.alloc(), Given::File(THREE_POLICY), [0, 1, 1], 2));
}

/// Texts that JSON writes in another way, and an empty one.
const QUOTED: &[Node] = &[
    Node::Decision(0, b"\"/\\ ~", &[1]),
    Node::Decision(0, b"", &[2]),
];

const QUOTED_POLICY: &[u8] =
    br#"{"policy":1,"states":[{"player":0,"state":"\u0022\/\u005c\u0020\u007E","actions":[[0,"3/3"]]},{"player":0,"state":"","actions":[[0,1]]}]}"#;

const QUOTED_WRITTEN: &[u8] =
    b"before {\"policy\":1,\"states\":[{\"actions\":[[0,\"1\"]],\"player\":0,\"state\":\"\\\"/\\\\ ~\"},{\"actions\":[[0,\"1\"]],\"player\":0,\"state\":\"\"}]}\n";

/// The file that is written of a policy for such texts, behind a text that stood there before.
fn written(alloc: Global) -> Option<Text> {
    let tree = tree_of(alloc, 1, 1, QUOTED)?;
    let policy = policy_for(alloc, &tree, Given::File(QUOTED_POLICY))?;
    let mut text = Text::new(alloc);
    text.push(b"before ").ok()?;
    write_policy(alloc, &tree, &policy, &mut text).ok()?;
    Some(text)
}

fn is_written(alloc: Global) -> bool {
    match written(alloc) {
        Some(text) => text.bytes() == QUOTED_WRITTEN,
        None => false,
    }
}

#[test]
fn texts_are_quoted(rt: HostRuntime) {
    assert!(rt; is_written(rt.alloc()));
}

/// Player 2 of three chooses, and then doesn't remember what.
const FORGETFUL: &[Node] = &[
    Node::Decision(0, b"a", &[1, 1]),
    Node::Decision(2, b"b", &[2, 3]),
    Node::Decision(1, b"c", &[4]),
    Node::Decision(1, b"c", &[4]),
    Node::Decision(2, b"d", &[5, 5]),
];

fn is_forgetful(alloc: Global) -> bool {
    let Some(game) = NodeTable::new(3, 1, FORGETFUL) else {
        return false;
    };
    match build(alloc, &game, 1000) {
        Err(
            TreeFault::Recall {
                player,
                first,
                second,
            },
        ) => player == 2
            && first.items() == [0, 0, 0].as_slice()
            && second.items() == [0, 1, 0].as_slice(),
        _ => false,
    }
}

#[test]
fn a_third_player_who_forgets_has_no_tree(rt: HostRuntime) {
    assert!(rt; is_forgetful(rt.alloc()));
}
