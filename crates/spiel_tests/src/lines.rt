//! The lines of a game with three players, unequal chances, and six parts in a whole return.

use crate::shown::{Row, has_facts, shows_all};
use spiel_api::{Game, walk};
use spiel_frac::Text;
use spiel_play::legal_lines;
use spiel_test_games::{Node, NodeTable};
use std::alloc::Global;

/// One outcome never comes, and only player 2 moves.
static NODES: [Node; 3] = [
    Node::Chance(&[(0, 1), (3, 1), (1, 2)]),
    Node::Decision(2, b"seen", &[2]),
    Node::Terminal(&[1, -3, 6]),
];

static LINES: [Row; 3] = [
    (
        &[],
        b"history:\nplayer: -1\noutcome: 0 0 go\noutcome: 1 3/4 go\noutcome: 2 1/4 go\n",
    ),
    (
        &[0],
        b"history: 0\nplayer: 2\ninfo 2: seen\nlegal 2: 0 go\n",
    ),
    (&[2], b"history: 2\nplayer: -4\nreturns: 1/6 -1/2 1\n"),
];

const FACTS: &[u8] =
    b"before\ngame t(a=1,b=2)\nplayers 3\nunit 6\ncap 4611686018427387904\none_shot no\n";

#[test]
fn a_game_of_three_players_is_shown(rt: HostRuntime) {
    let table = NodeTable::new(3, 6, &NODES).expect(&rt, "three players");
    assert!(rt; shows_all(rt.alloc(), &table, &LINES));
    assert!(rt; has_facts(rt.alloc(), &table, FACTS));
}

/// Whether there is this to choose from behind the numbers, told behind a text that stood there before.
fn offers<G: Game>(alloc: Global, game: &G, numbers: &[u32], want: &[u8]) -> bool
    requires { G.is_game game.now }
{
    let Ok(state) = walk(alloc, game, numbers) else {
        return false;
    };
    let mut out = Text::new(alloc);
    out.push(b"before\n").is_ok()
        && legal_lines(alloc, game, &state, &mut out).is_ok()
        && out.bytes() == want
}

#[test]
fn choices_are_told_behind_a_text(rt: HostRuntime) {
    let table = NodeTable::new(3, 6, &NODES).expect(&rt, "three players");
    assert!(rt; offers(rt.alloc(), &table, &[1], b"before\nlegal 2: 0 go\n"));
    assert!(rt; offers(rt.alloc(), &table, &[2], b"before\n"));
}
