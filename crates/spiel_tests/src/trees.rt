//! What building a tree comes to: players who forget, information states with two lists of numbers, who chooses
//! at once, one history too many, the longest plays, and texts that are numbered as they are first seen.

use spiel_api::Game;
use spiel_test_games::{Chain, Node, NodeTable, Stakes};
use spiel_tree::{Tree, TreeFault, build};
use std::alloc::Global;

/// What a game with as many histories as are allowed comes to.
enum Want {
    /// A tree of so many information states.
    States(u32),
    /// Players choose at once after this history.
    AtOnce(&'static [u32]),
    /// This player forgets: the first history of an information state, and the one that shows it.
    Forgets(u32, &'static [u32], &'static [u32]),
    /// This player has other numbers at the second history.
    OtherNumbers(u32, &'static [u32], &'static [u32]),
}

fn is_told(fault: &TreeFault, want: &Want) -> bool {
    match (fault, want) {
        (TreeFault::Simultaneous { history }, Want::AtOnce(at)) => history.items() == *at,
        (
            TreeFault::Recall {
                player,
                first,
                second,
            },
            Want::Forgets(whose, f, s),
        ) => player == whose && first.items() == *f && second.items() == *s,
        (
            TreeFault::Actions {
                player,
                first,
                second,
            },
            Want::OtherNumbers(whose, f, s),
        ) => player == whose && first.items() == *f && second.items() == *s,
        _ => false,
    }
}

fn is_tree(tree: &Tree, histories: u32, want: &Want) -> bool {
    match want {
        Want::States(states) => tree.histories() == histories && tree.states() == *states,
        _ => false,
    }
}

/// Whether a game has so many histories and comes to this, and is refused for its size where one fewer is
/// allowed.
fn comes_to<G: Game>(alloc: Global, game: &G, histories: u32, want: &Want) -> bool
    requires { G.is_game game.now }
{
    if histories < 2 || histories > 1048576 {
        return false;
    }
    let fewer = build(alloc, game, histories - 1);
    let built = build(alloc, game, histories);
    matches!(&fewer, Err(TreeFault::TooMany { .. }))
        && match &built {
            Ok(tree) => is_tree(tree, histories, want),
            Err(fault) => is_told(fault, want),
        }
}

/// Where no table here has a node: the play is over.
const OVER: u32 = 9;

/// Chance draws 0 or 1, each as likely as the other.
const DRAW: Node = Node::Chance(&[(1, 1), (1, 2)]);

/// Player 0 sees a, b or c and has two numbers, which end the play.
const A0: Node = Node::Decision(0, b"a", &[OVER, OVER]);

const B0: Node = Node::Decision(0, b"b", &[OVER, OVER]);

const C0: Node = Node::Decision(0, b"c", &[OVER, OVER]);

/// One number alone ends the play.
const ONE_B0: Node = Node::Decision(0, b"b", &[OVER]);

const ONE_A1: Node = Node::Decision(1, b"a", &[OVER]);

/// Both players begin with two numbers, and see a.
const BEGIN_0: Node = Node::Decision(0, b"a", &[1, 2]);

const BEGIN_1: Node = Node::Decision(1, b"a", &[1, 2]);

/// A game of two players, how many histories it has, and what it comes to.
type Case = (&'static [Node], u32, Want);

static CASES: [Case; 14] = [
    // the number taken before isn't known
    (&[BEGIN_0, B0, B0], 7, Want::Forgets(0, &[0], &[1])),
    // nor whether there was a move before
    (
        &[DRAW, Node::Decision(0, b"a", &[3, OVER]), B0, B0],
        9,
        Want::Forgets(0, &[0, 0], &[1]),
    ),
    // the numbers are known, but not what was seen at them
    (
        &[
            DRAW,
            Node::Decision(0, b"a", &[3, OVER]),
            Node::Decision(0, b"b", &[3, OVER]),
            C0,
        ],
        11,
        Want::Forgets(0, &[0, 0], &[1, 0]),
    ),
    // only how many moves there were is known
    (
        &[
            DRAW,
            Node::Decision(0, b"a", &[3, 3]),
            Node::Decision(0, b"a", &[3, 3]),
            B0,
        ],
        15,
        Want::Forgets(0, &[0, 0], &[0, 1]),
    ),
    // an information state comes twice in a play
    (
        &[Node::Decision(0, b"a", &[1, OVER]), A0],
        5,
        Want::Forgets(0, &[], &[0]),
    ),
    // fewer numbers
    (&[DRAW, B0, ONE_B0], 6, Want::OtherNumbers(0, &[0], &[1])),
    // more numbers
    (&[DRAW, ONE_B0, B0], 6, Want::OtherNumbers(0, &[0], &[1])),
    // a fault of recall at [0 1], and one of numbers at [1]
    (
        &[
            BEGIN_0,
            Node::Decision(1, b"a", &[3, 3]),
            ONE_A1,
            Node::Decision(1, b"b", &[OVER, OVER]),
        ],
        10,
        Want::Forgets(1, &[0, 0], &[0, 1]),
    ),
    // one of numbers at [1], and one of recall at [1 0]
    (
        &[
            BEGIN_0,
            Node::Decision(1, b"a", &[3, OVER]),
            Node::Decision(1, b"a", &[3]),
            B0,
        ],
        10,
        Want::OtherNumbers(1, &[0], &[1]),
    ),
    // both at [1]
    (&[BEGIN_0, B0, ONE_B0], 6, Want::Forgets(0, &[0], &[1])),
    // player 0 doesn't see what player 1 took, nor what was drawn
    (&[BEGIN_1, A0, A0], 7, Want::States(2)),
    (&[DRAW, A0, A0], 7, Want::States(1)),
    // each remembers the own number
    (&[BEGIN_0, B0, C0], 7, Want::States(3)),
    // the texts of two players are apart
    (&[DRAW, A0, ONE_A1], 6, Want::States(2)),
];

fn is_case(alloc: Global, case: &Case) -> bool {
    let (nodes, histories, want) = case;
    match NodeTable::new(2, 1, nodes) {
        Some(game) => comes_to(alloc, &game, *histories, want),
        None => false,
    }
}

#[test]
fn who_forgets_has_no_tree(rt: HostRuntime) {
    assert!(rt; CASES.iter().all(|case| is_case(rt.alloc(), case)));
}

#[test]
fn who_chooses_at_once_has_no_tree(rt: HostRuntime) {
    assert!(rt; comes_to(rt.alloc(), &Stakes, 31, &Want::AtOnce(&[0])));
}

#[test]
fn the_longest_plays_have_a_tree(rt: HostRuntime) {
    assert!(rt; comes_to(rt.alloc(), &Chain, 8193, &Want::States(4095)));
}

/// What is seen comes again, is empty, and is the front of another.
static SEEN: [Node; 7] = [
    Node::Chance(&[(1, 1), (1, 2), (1, 3), (1, 4), (1, 5), (1, 6)]),
    Node::Decision(0, b"king", &[OVER]),
    Node::Decision(0, b"", &[OVER]),
    Node::Decision(0, b"queen", &[OVER]),
    Node::Decision(0, b"king", &[OVER]),
    Node::Decision(0, b"", &[OVER]),
    Node::Decision(0, b"kin", &[OVER]),
];

static FOUND: [(&'static [u8], Option<u32>); 5] = [
    (b"king", Some(0)),
    (b"", Some(1)),
    (b"queen", Some(2)),
    (b"kin", Some(3)),
    (b"kings", None),
];

/// Whether the four texts are the information states, in the order in which they are first seen.
fn are_numbered(alloc: Global, game: &NodeTable) -> bool {
    match &build(alloc, game, 13) {
        Ok(tree) if tree.players() == 1 => {
            tree.states() == 4 && FOUND.iter().all(|(text, want)| tree.find(0, text) == *want)
        }
        _ => false,
    }
}

#[test]
fn texts_are_numbered_as_first_seen(rt: HostRuntime) {
    let game = NodeTable::new(1, 1, &SEEN).expect(&rt, "one player");
    assert!(rt; are_numbered(rt.alloc(), &game));
}
