//! Layers round a game with a chance node, a joint step and a move, and one inside the other.

use crate::shown::{Row, shows_all};
use spiel_api::Game;
use spiel_layers::Layer;
use spiel_test_games::Stakes;

const ROOT: &[u8] = b"history:\nplayer: -1\noutcome: 0 2/3 one\noutcome: 1 1/3 two\n";

/// The second choice of player 1.
const AGAIN: &[u8] =
    b"history: 0 1 0\nplayer: 1\ninfo 1: one\nlegal 1: 0 heads\nlegal 1: 1 tails\n";

static AS_IT_IS: [Row; 5] = [
    (&[], ROOT),
    (
        &[1],
        b"history: 1\nplayer: -2\ninfo 0: two\ninfo 1: two\nlegal 0: 0 heads\nlegal 0: 1 tails\nlegal 1: 0 heads\nlegal 1: 1 tails\n",
    ),
    (&[0, 1, 0], AGAIN),
    (
        &[0, 1, 0, 1],
        b"history: 0 1 0 1\nplayer: -4\nreturns: 1 -1\n",
    ),
    (
        &[1, 0, 0, 1],
        b"history: 1 0 0 1\nplayer: -4\nreturns: -2 2\n",
    ),
];

/// The joint step is two moves, and returns are negated.
static TURNED: [Row; 6] = [
    (&[], ROOT),
    (
        &[1],
        b"history: 1\nplayer: 0\ninfo 0: two\nlegal 0: 0 heads\nlegal 0: 1 tails\n",
    ),
    (
        &[1, 0],
        b"history: 1 0\nplayer: 1\ninfo 1: two\nlegal 1: 0 heads\nlegal 1: 1 tails\n",
    ),
    (&[0, 1, 0], AGAIN),
    (
        &[0, 1, 0, 1],
        b"history: 0 1 0 1\nplayer: -4\nreturns: -1 1\n",
    ),
    (
        &[1, 0, 0, 1],
        b"history: 1 0 0 1\nplayer: -4\nreturns: 2 -2\n",
    ),
];

#[test]
fn a_plain_layer_changes_nothing(rt: HostRuntime) {
    assert!(rt; shows_all(rt.alloc(), &Layer::plain(Stakes), &AS_IT_IS));
}

/// The misère game of the turn-based one.
fn both() -> Layer<Layer<Stakes>>
    ensures { ⟦<Layer<Layer<Stakes>> as Game>⟧.is_game result }
{
    Layer::misere(Layer::turn_based(Stakes))
}

#[test]
fn layers_lie_one_in_another(rt: HostRuntime) {
    assert!(rt; shows_all(rt.alloc(), &both(), &TURNED));
}
