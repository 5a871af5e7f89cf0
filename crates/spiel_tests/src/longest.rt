//! The longest plays that there may be, judged: each pass goes down 4,096 numbers, one call inside the other.
use spiel_policy::uniform;
use spiel_response::{prepare, respond, value};
use spiel_test_games::Chain;
use spiel_tree::build;
use std::alloc::Global;

/// The denominator, and what the player gets by the only policy and by the best response.
fn judged(alloc: Global) -> Option<[i128; 3]> {
    let tree = build(alloc, &Chain, 8193).ok()?;
    let policy = uniform(alloc, &tree).ok()?;
    let mut work = prepare(alloc, &tree, &policy).ok()?;
    if tree.players() != 1 {
        return None;
    }
    Some([work.total(), value(&work, 0), respond(&mut work, 0)])
}

#[test]
fn the_longest_plays_are_judged(rt: HostRuntime) {
    assert_eq!(rt; judged(rt.alloc()), Some([2, 0, 0]));
}
