//! How large the numbers may be with which policies are judged: up to the edge, and just past it.
//!
//! Below, m is 2^62. The sizes that are summed are those of each leaf, twice: with the player's own steps as they
//! are, and with these as certain. All games have one player, who takes the first number.

use super::games::{Row, Want};
use super::policies::Given;
use spiel_test_games::Node;

/// m
const M: u64 = 0x4000_0000_0000_0000;

pub(super) static ROWS: [Row; 9] = [
    // (2^63 - 1) / 7 * 21 * ((2^63 + 1) / 3) = 2^126 - 1: twice that is 2^127 - 2
    Row {
        players: 1,
        unit: 3074457345618258603,
        nodes: &[
            Node::Chance(&[(1317624576693539401, 1)]),
            Node::Chance(&[(21, 2)]),
            Node::Terminal(&[]),
        ],
        given: Given::First,
        want: Some(Want {
            total: 0x3fff_ffff_ffff_ffff_ffff_ffff_ffff_ffff,
            values: &[0],
            bests: &[0],
            answers: &[],
            nash_conv: 0,
            constant_sum: false,
        }),
    },
    // m * 4 * m = 2^126: twice that is 2^127
    Row {
        players: 1,
        unit: M,
        nodes: &[
            Node::Chance(&[(M, 1)]),
            Node::Chance(&[(4, 2)]),
            Node::Terminal(&[]),
        ],
        given: Given::First,
        want: None,
    },
    // one of 2^186, which passes 128 bits before there is a return
    Row {
        players: 1,
        unit: 1,
        nodes: &[
            Node::Chance(&[(M, 1)]),
            Node::Chance(&[(M, 2)]),
            Node::Chance(&[(M, 3)]),
            Node::Terminal(&[]),
        ],
        given: Given::First,
        want: None,
    },
    // the draws 1 and 2 never come, and after 2 the game is over: there the return of m would count
    // m * 2^124, if it were reached
    Row {
        players: 1,
        unit: 1,
        nodes: &[
            Node::Chance(&[(1, 1), (0, 3), (0, 6)]),
            Node::Chance(&[(M, 2)]),
            Node::Chance(&[(M, 4)]),
            Node::Chance(&[(M, 5)]),
            Node::Terminal(&[1]),
            Node::Terminal(&[0]),
            Node::Terminal(&[0x4000_0000_0000_0000]),
        ],
        given: Given::First,
        want: Some(Want {
            total: 0x1000_0000_0000_0000_0000_0000_0000_0000,
            values: &[0x1000_0000_0000_0000_0000_0000_0000_0000],
            bests: &[0x1000_0000_0000_0000_0000_0000_0000_0000],
            answers: &[],
            nash_conv: 0,
            constant_sum: false,
        }),
    },
    // the same where 2 comes as often as 0: it does count m * 2^124
    Row {
        players: 1,
        unit: 1,
        nodes: &[
            Node::Chance(&[(1, 1), (0, 3), (1, 6)]),
            Node::Chance(&[(M, 2)]),
            Node::Chance(&[(M, 4)]),
            Node::Chance(&[(M, 5)]),
            Node::Terminal(&[1]),
            Node::Terminal(&[0]),
            Node::Terminal(&[0x4000_0000_0000_0000]),
        ],
        given: Given::First,
        want: None,
    },
    // the same where the player might take 2, of which a return of -4 comes: with the own steps as
    // certain the sizes are 2^124 * (1 + 4), and as they are 2^124 more: less than 2^127
    Row {
        players: 1,
        unit: 1,
        nodes: &[
            Node::Decision(0, b"dark", &[1, 3, 6]),
            Node::Chance(&[(M, 2)]),
            Node::Chance(&[(M, 4)]),
            Node::Chance(&[(M, 5)]),
            Node::Terminal(&[1]),
            Node::Terminal(&[0]),
            Node::Terminal(&[-4]),
        ],
        given: Given::First,
        want: Some(Want {
            total: 0x1000_0000_0000_0000_0000_0000_0000_0000,
            values: &[0x1000_0000_0000_0000_0000_0000_0000_0000],
            bests: &[0x1000_0000_0000_0000_0000_0000_0000_0000],
            answers: &[0],
            nash_conv: 0,
            constant_sum: false,
        }),
    },
    // the same with 6: 2^124 * (1 + 6 + 1) = 2^127
    Row {
        players: 1,
        unit: 1,
        nodes: &[
            Node::Decision(0, b"dark", &[1, 3, 6]),
            Node::Chance(&[(M, 2)]),
            Node::Chance(&[(M, 4)]),
            Node::Chance(&[(M, 5)]),
            Node::Terminal(&[1]),
            Node::Terminal(&[0]),
            Node::Terminal(&[-6]),
        ],
        given: Given::First,
        want: None,
    },
    // the player takes 0, which pays nothing, where a 1 would be followed by draws of 0, 7 times of 8, or again of
    // 0, m - 1 times of m, or of 1: the sums are those of 2^65 plays that pay m each, but one of which pays less by
    // one
    Row {
        players: 1,
        unit: 1,
        nodes: &[
            Node::Decision(0, b"dark", &[1, 2]),
            Node::Terminal(&[0]),
            Node::Chance(&[(7, 4), (1, 3)]),
            Node::Chance(&[(0x3fff_ffff_ffff_ffff, 4), (1, 5)]),
            Node::Terminal(&[0x4000_0000_0000_0000]),
            Node::Terminal(&[0x3fff_ffff_ffff_ffff]),
        ],
        given: Given::First,
        want: Some(Want {
            total: 0x2_0000_0000_0000_0000,
            values: &[0],
            bests: &[0x7fff_ffff_ffff_ffff_ffff_ffff_ffff_ffff],
            answers: &[1],
            nash_conv: 0x7fff_ffff_ffff_ffff_ffff_ffff_ffff_ffff,
            constant_sum: false,
        }),
    },
    // no play pays less: they are 2^127
    Row {
        players: 1,
        unit: 1,
        nodes: &[
            Node::Decision(0, b"dark", &[1, 2]),
            Node::Terminal(&[0]),
            Node::Chance(&[(7, 4), (1, 3)]),
            Node::Chance(&[(0x3fff_ffff_ffff_ffff, 4), (1, 4)]),
            Node::Terminal(&[0x4000_0000_0000_0000]),
        ],
        given: Given::First,
        want: None,
    },
];
