//! Tables of pays that have no name, and rounds of them.
ghost use Rattle.std.specs.Prelude.{IfOk};

use crate::shown::{Row, has_facts, shows_all};
use spiel_api::Game;
use spiel_frac::{Frac, List, NoMemory, Text};
use spiel_layers::{RepeatFault, Repeated};
use spiel_matrix::{Matrix, MatrixFault, MatrixParts};
use std::alloc::Global;

/// The names of each player's strategies.
type Names = &'static [&'static [&'static [u8]]];

/// A numerator and a denominator.
type Pay = (i128, i128);

fn texts(alloc: Global, names: &[&[u8]]) -> Result<List<Text>, NoMemory> {
    let mut texts = List::new(alloc);
    for name in names {
        let mut text = Text::new(alloc);
        text.push(name)?;
        texts.push(text)?;
    }
    Ok(texts)
}

fn fractions(alloc: Global, pays: &[Pay]) -> Result<List<Frac>, NoMemory> {
    let mut list = List::new(alloc);
    for (num, den) in pays {
        list.push(Frac::new(*num, *den).unwrap_or(Frac::ratio(0, 1)))?;
    }
    Ok(list)
}

/// The game of a table, whose players have no names.
fn game(alloc: Global, names: Names, pays: &[Pay]) -> Result<Matrix, MatrixFault>
    ensures { IfOk result ⟦<Matrix as Game>⟧.is_game }
{
    let mut players = List::new(alloc);
    let mut strategies = List::new(alloc);
    for own in names {
        players.push(Text::new(alloc))?;
        strategies.push(texts(alloc, own)?)?;
    }
    let pays = fractions(alloc, pays)?;
    Matrix::of(
        alloc,
        MatrixParts {
            title: Text::new(alloc),
            players,
            comment: Text::new(alloc),
            strategies,
            pays,
        },
    )
}

/// Three players with two, three and one strategies. Names are empty, of 65 bytes, all printable, of bytes
/// that aren't, and of 64 bytes.
const NAMES: Names = &[
    &[
        b"",
        b"01234567890123456789012345678901234567890123456789012345678901234",
    ],
    &[b" a~", b"\x1f\n\x7f\xff", b"\xc3\xa9t\xc3\xa9"],
    &[b"0123456789012345678901234567890123456789012345678901234567890123"],
];

/// The pays 0, 1/2, 1 and so on.
static PAYS: [Pay; 18] = [
    (0, 1),
    (1, 2),
    (1, 1),
    (3, 2),
    (2, 1),
    (5, 2),
    (3, 1),
    (7, 2),
    (4, 1),
    (9, 2),
    (5, 1),
    (11, 2),
    (6, 1),
    (13, 2),
    (7, 1),
    (15, 2),
    (8, 1),
    (17, 2),
];

/// The strategy of player 0 changes fastest.
static ONCE: [Row; 5] = [
    (
        &[],
        b"history:\nplayer: -2\ninfo 0: start\ninfo 1: start\ninfo 2: start\nlegal 0: 0 1\nlegal 0: 1 0123456789012345678901234567890123456789012345678901234567890123\nlegal 1: 0  a~\nlegal 1: 1 ????\nlegal 1: 2 ??t??\nlegal 2: 0 0123456789012345678901234567890123456789012345678901234567890123\n",
    ),
    (
        &[0, 0, 0],
        b"history: 0 0 0\nplayer: -4\nreturns: 0 1/2 1\n",
    ),
    (
        &[1, 0, 0],
        b"history: 1 0 0\nplayer: -4\nreturns: 3/2 2 5/2\n",
    ),
    (
        &[0, 1, 0],
        b"history: 0 1 0\nplayer: -4\nreturns: 3 7/2 4\n",
    ),
    (
        &[1, 2, 0],
        b"history: 1 2 0\nplayer: -4\nreturns: 15/2 8 17/2\n",
    ),
];

const FACTS: &[u8] = b"before\ngame t(a=1,b=2)\nplayers 3\nunit 2\ncap 17\none_shot yes\n";

#[test]
fn a_table_of_three_players_is_played(rt: HostRuntime) {
    let game = game(rt.alloc(), NAMES, &PAYS).expect(&rt, "a table");
    assert!(rt; shows_all(rt.alloc(), &game, &ONCE));
    assert!(rt; has_facts(rt.alloc(), &game, FACTS));
}

/// A round has a number of each player, and returns are added.
static TWICE: [Row; 2] = [
    (
        &[1, 2, 0],
        b"history: 1 2 0\nplayer: -2\ninfo 0: 1 2 0 | start\ninfo 1: 1 2 0 | start\ninfo 2: 1 2 0 | start\nlegal 0: 0 1\nlegal 0: 1 0123456789012345678901234567890123456789012345678901234567890123\nlegal 1: 0  a~\nlegal 1: 1 ????\nlegal 1: 2 ??t??\nlegal 2: 0 0123456789012345678901234567890123456789012345678901234567890123\n",
    ),
    (
        &[1, 2, 0, 0, 1, 0],
        b"history: 1 2 0 0 1 0\nplayer: -4\nreturns: 21/2 23/2 25/2\n",
    ),
];

#[test]
fn rounds_have_a_number_of_each_player(rt: HostRuntime) {
    let stage = game(rt.alloc(), NAMES, &PAYS).expect(&rt, "a table");
    let game = Repeated::new(stage, 2).expect(&rt, "two rounds");
    assert!(rt; shows_all(rt.alloc(), &game, &TWICE));
}

const ONE: Names = &[&[b"only"]];

const LARGEST: i128 = 1 << 62;

/// What the one player gets in a round, how many rounds there are, and the cap, or why there are none.
type Rounds = (i128, u32, Result<i64, RepeatFault>);

static ROUNDS: [Rounds; 5] = [
    (1, 1024, Ok(1024)),
    (1, 1025, Err(RepeatFault::Repeats)),
    (LARGEST / 2, 2, Ok(1 << 62)),
    (LARGEST / 2 + 1, 2, Err(RepeatFault::PayTooFine)),
    (LARGEST, 1025, Err(RepeatFault::Repeats)),
];

fn are_rounds(alloc: Global, rounds: &Rounds) -> bool {
    let (pay, times, want) = *rounds;
    let Ok(stage) = game(alloc, ONE, &[(pay, 1)]) else {
        return false;
    };
    match Repeated::new(stage, times) {
        Ok(game) => want == Ok(game.pay_cap()),
        Err(fault) => want == Err(fault),
    }
}

#[test]
fn rounds_have_their_limits(rt: HostRuntime) {
    assert!(rt; ROUNDS.iter().all(|rounds| are_rounds(rt.alloc(), rounds)));
}
