//! Games that are given as tables, policies for them, and what they come to, worked by hand.
//!
//! Values, gains and best values are told over the total, which stands first. Information states come player by
//! player, and within a player in the order of their first histories.

use super::policies::Given;
use spiel_test_games::Node;

/// What a policy comes to.
#[derive(Clone, Copy)]
pub(super) struct Want {
    pub total: i128,
    pub values: &'static [i128],
    pub bests: &'static [i128],
    pub answers: &'static [u32],
    pub nash_conv: i128,
    pub constant_sum: bool,
}

/// A game, a policy, and what it comes to: nothing where the numbers are too large.
pub(super) struct Row {
    pub players: u32,
    pub unit: u64,
    pub nodes: &'static [Node],
    pub given: Given,
    pub want: Option<Want>,
}

/// Chance draws, and each of three players moves once, of whom player 0 has one number alone. What they get
/// depends on the sum of the numbers.
pub(super) const THREE: &[Node] = &[
    Node::Chance(&[(1, 1), (2, 2)]),
    Node::Decision(2, b"dark", &[3, 4, 5]),
    Node::Decision(2, b"dark", &[4, 5, 6]),
    Node::Decision(0, b"dark", &[7]),
    Node::Decision(0, b"dark", &[8]),
    Node::Decision(0, b"dark", &[9]),
    Node::Decision(0, b"dark", &[10]),
    Node::Decision(1, b"dark", &[11, 12]),
    Node::Decision(1, b"dark", &[12, 13]),
    Node::Decision(1, b"dark", &[13, 14]),
    Node::Decision(1, b"dark", &[14, 15]),
    Node::Terminal(&[3, -1, 0]),
    Node::Terminal(&[-2, 5, 1]),
    Node::Terminal(&[7, 0, -4]),
    Node::Terminal(&[1, 1, -2]),
    Node::Terminal(&[0, -6, 2]),
];

/// Player 1 takes 1, and player 2 takes 1 and 2, each as often.
pub(super) const THREE_POLICY: &[u8] =
    br#"{"policy":1,"states":[{"player":0,"state":"dark","actions":[[0,"1"]]},{"player":1,"state":"dark","actions":[[1,"1"]]},{"player":2,"state":"dark","actions":[[1,"1/2"],[2,"1/2"]]}]}"#;

/// Chance draws one of three numbers, of which the last never comes, and the only player, who doesn't see
/// which, has two.
const DRAWN: &[Node] = &[
    Node::Chance(&[(1, 1), (2, 2), (0, 3)]),
    Node::Decision(0, b"dark", &[4, 5]),
    Node::Decision(0, b"dark", &[5, 6]),
    Node::Decision(0, b"dark", &[6, 7]),
    Node::Terminal(&[4]),
    Node::Terminal(&[-1]),
    Node::Terminal(&[7]),
    Node::Terminal(&[9]),
];

/// After a first draw of 0 chance weighs 1 to 2, after one of 1 it weighs 1 to 4: parts of 6 and of 10.
const FORKED: &[Node] = &[
    Node::Chance(&[(1, 1), (1, 2)]),
    Node::Chance(&[(1, 3), (2, 4)]),
    Node::Chance(&[(1, 4), (4, 5)]),
    Node::Terminal(&[3]),
    Node::Terminal(&[-5]),
    Node::Terminal(&[8]),
];

/// After player 0's 0 player 1 moves, and after a 1 chance draws.
const UNEVEN: &[Node] = &[
    Node::Decision(0, b"dark", &[1, 2]),
    Node::Decision(1, b"dark", &[3, 4, 5]),
    Node::Chance(&[(1, 4), (3, 5)]),
    Node::Terminal(&[1, -1]),
    Node::Terminal(&[-4, 2]),
    Node::Terminal(&[6, 3]),
];

/// After a 0 chance draws, and the player, who doesn't see which, has two numbers more.
const TWO_ROUNDS: &[Node] = &[
    Node::Decision(0, b"a", &[1, 2]),
    Node::Chance(&[(1, 3), (2, 4)]),
    Node::Decision(0, b"c", &[5, 6]),
    Node::Decision(0, b"b", &[5, 7]),
    Node::Decision(0, b"b", &[8, 6]),
    Node::Terminal(&[6]),
    Node::Terminal(&[1]),
    Node::Terminal(&[-3]),
    Node::Terminal(&[2]),
];

/// The draw 1 never comes.
const NEVER: &[Node] = &[
    Node::Chance(&[(1, 1), (0, 2)]),
    Node::Decision(0, b"a", &[3, 4]),
    Node::Decision(0, b"b", &[3, 5]),
    Node::Terminal(&[1]),
    Node::Terminal(&[2]),
    Node::Terminal(&[100]),
];

/// Both players have two numbers, which the other doesn't see, and what they get sums to 3. Chance could end
/// the play first, but never does: then both would get 2.
const NEARLY_SHARED: &[Node] = &[
    Node::Chance(&[(1, 1), (0, 8)]),
    Node::Decision(0, b"dark", &[2, 3]),
    Node::Decision(1, b"dark", &[4, 5]),
    Node::Decision(1, b"dark", &[6, 7]),
    Node::Terminal(&[1, 2]),
    Node::Terminal(&[3, 0]),
    Node::Terminal(&[-2, 5]),
    Node::Terminal(&[4, -1]),
    Node::Terminal(&[2, 2]),
];

/// Three players, whose returns sum to 0, and of whom player 1 alone has numbers.
const ZERO_OF_THREE: &[Node] = &[
    Node::Decision(1, b"dark", &[1, 2]),
    Node::Terminal(&[1, 0, -1]),
    Node::Terminal(&[-2, 1, 1]),
];

pub(super) static ROWS: [Row; 13] = [
    // over at its root: nobody can do otherwise, and the one sum is 5 - 7
    Row {
        players: 2,
        unit: 3,
        nodes: &[Node::Terminal(&[5, -7])],
        given: Given::Uniform,
        want: Some(Want {
            total: 3,
            values: &[5, -7],
            bests: &[5, -7],
            answers: &[],
            nash_conv: 0,
            constant_sum: true,
        }),
    },
    // one player alone has no constant sum
    Row {
        players: 1,
        unit: 1,
        nodes: &[],
        given: Given::First,
        want: Some(Want {
            total: 1,
            values: &[0],
            bests: &[0],
            answers: &[],
            nash_conv: 0,
            constant_sum: false,
        }),
    },
    // a 0 gets (1 * 4 + 2 * -1) / 3, a 1 gets (1 * -1 + 2 * 7) / 3; the draw 2 counts nothing
    Row {
        players: 1,
        unit: 1,
        nodes: DRAWN,
        given: Given::Uniform,
        want: Some(Want {
            total: 6,
            values: &[15],
            bests: &[26],
            answers: &[1],
            nash_conv: 11,
            constant_sum: false,
        }),
    },
    // the same in thirds, since all take 0
    Row {
        players: 1,
        unit: 1,
        nodes: DRAWN,
        given: Given::First,
        want: Some(Want {
            total: 3,
            values: &[2],
            bests: &[13],
            answers: &[1],
            nash_conv: 11,
            constant_sum: false,
        }),
    },
    // player 0: 0 gets (1 - 4 + 6) / 3, 1 gets (-4 + 3 * 6) / 4; player 1: half of 3 and of
    // (2 + 3 * 3) / 4, by 2
    Row {
        players: 2,
        unit: 1,
        nodes: UNEVEN,
        given: Given::Uniform,
        want: Some(Want {
            total: 24,
            values: &[54, 49],
            bests: &[84, 69],
            answers: &[1, 2],
            nash_conv: 50,
            constant_sum: false,
        }),
    },
    // player 0: 0 gets 1, 1 gets 14 / 4; player 1: all of 3, by 2
    Row {
        players: 2,
        unit: 1,
        nodes: UNEVEN,
        given: Given::First,
        want: Some(Want {
            total: 4,
            values: &[4, -4],
            bests: &[14, 12],
            answers: &[1, 2],
            nash_conv: 26,
            constant_sum: false,
        }),
    },
    // player 1: 0 gets (-1 + 3 * 5 + 3 * 0 + 2 * 1) / 9 and 1 gets (5 + 0 + 3 - 12) / 9; player 2:
    // 0 gets (0 + 3 - 8) / 6, 1 gets (1 - 12 - 4) / 6, 2 gets (-4 - 6 + 4) / 6; halves of these
    Row {
        players: 3,
        unit: 2,
        nodes: THREE,
        given: Given::Uniform,
        want: Some(Want {
            total: 36,
            values: &[42, 12, -26],
            bests: &[42, 32, -15],
            answers: &[0, 0, 0],
            nash_conv: 31,
            constant_sum: false,
        }),
    },
    // the sums 2, 3 and 4 come 1, 3 and 2 times of 6; player 1: 0 gets (5 + 0 + 2) / 6; player 2:
    // 0 gets (1 - 8) / 3, 1 gets (-4 - 4) / 3, 2 gets (-2 + 4) / 3
    Row {
        players: 3,
        unit: 2,
        nodes: THREE,
        given: Given::File(THREE_POLICY),
        want: Some(Want {
            total: 12,
            values: &[10, -9, -6],
            bests: &[10, 7, 4],
            answers: &[0, 0, 2],
            nash_conv: 26,
            constant_sum: false,
        }),
    },
    // b: 0 gets (6 + 2 * 2) / 3, 1 gets (-3 + 2 * 1) / 3; c: 0 gets 6; so a takes 1; the value is a
    // half of (10/3 - 1/3) / 2 and of 7/2
    Row {
        players: 1,
        unit: 1,
        nodes: TWO_ROUNDS,
        given: Given::Uniform,
        want: Some(Want {
            total: 12,
            values: &[30],
            bests: &[72],
            answers: &[1, 0, 0],
            nash_conv: 42,
            constant_sum: false,
        }),
    },
    // at b, which is never reached, all numbers get 0: the first is taken
    Row {
        players: 1,
        unit: 1,
        nodes: NEVER,
        given: Given::Uniform,
        want: Some(Want {
            total: 2,
            values: &[3],
            bests: &[4],
            answers: &[1, 0],
            nash_conv: 1,
            constant_sum: false,
        }),
    },
    // as without the draw, but the sum of 4 counts as well
    Row {
        players: 2,
        unit: 1,
        nodes: NEARLY_SHARED,
        given: Given::Uniform,
        want: Some(Want {
            total: 4,
            values: &[6, 6],
            bests: &[8, 14],
            answers: &[0, 0],
            nash_conv: 10,
            constant_sum: false,
        }),
    },
    // player 1 gets 1 in place of 0 or 1 by halves; the others get what the policy gives them
    Row {
        players: 3,
        unit: 1,
        nodes: ZERO_OF_THREE,
        given: Given::Uniform,
        want: Some(Want {
            total: 2,
            values: &[-1, 1, 0],
            bests: &[-1, 2, 0],
            answers: &[1],
            nash_conv: 1,
            constant_sum: false,
        }),
    },
    // thirtieths: 5 of 3, 10 of -5, 3 of -5, 12 of 8
    Row {
        players: 1,
        unit: 7,
        nodes: FORKED,
        given: Given::Uniform,
        want: Some(Want {
            total: 210,
            values: &[46],
            bests: &[46],
            answers: &[],
            nash_conv: 0,
            constant_sum: false,
        }),
    },
];
