//! The matrix games that have names, with their payoff tables.
ghost use Rattle.std.specs.Prelude.{◌≡◌, [], ◌∷◌, IfOk, map};
ghost use Rattle.spiel_matrix.specs.declared.fault.MatrixFault.TheVariants.{NoMemory as MatrixNoMemory};
ghost use Rattle.spiel_matrix.specs.Named.{named_parts, two_player_parts, whole};

use crate::fault::MatrixFault;
use crate::matrix::Matrix;
use crate::parts::MatrixParts;
use spiel_frac::{Frac, List, NoMemory, Text};
use std::alloc::Global;

/// A matrix game that has a name.
#[derive(Clone, Copy, Debug, PartialEq, Eq)]
pub enum Kind {
    /// Matching pennies.
    Pennies,
    /// Rock, paper, scissors.
    Rps,
    /// The prisoner's dilemma.
    Dilemma,
    /// The battle of the sexes.
    Sexes,
}

impl Matrix {
    /// A named game of two players, who have the same strategies. The players are called `1` and
    /// `2`; the title and the comment are empty.
    ///
    /// The pays of players 0 and 1, with a row for each strategy of player 0 and a column for each
    /// of player 1:
    ///
    /// - `Pennies`, with `Heads` and `Tails`: (1, -1) (-1, 1); (-1, 1) (1, -1)
    /// - `Rps`, with `Rock`, `Paper` and `Scissors`: (0, 0) (-1, 1) (1, -1); (1, -1) (0, 0) (-1, 1);
    ///   (-1, 1) (1, -1) (0, 0)
    /// - `Dilemma`, with `Cooperate` and `Defect`: (5, 5) (0, 10); (10, 0) (1, 1)
    /// - `Sexes`, with `Ballet` and `Fight`: (3, 2) (0, 0); (0, 0) (2, 3)
    pub fn named(alloc: Global, kind: Kind) -> Result<Matrix, NoMemory>
        ensures { IfOk result (λ game. game.parts ≡ named_parts kind) }
    {
        let parts = named_parts(alloc, kind)?;
        match Matrix::of(alloc, parts) {
            Ok(game) => Ok(game),
            Err(fault) => Err(memory_of(fault)),
        }
    }
}

/// The want of memory, which is the one fault that parts of a game can meet.
fn memory_of(fault: MatrixFault) -> NoMemory
    requires { fault ≡ MatrixNoMemory }
{
    match fault {
        MatrixFault::NoMemory => NoMemory,
        MatrixFault::Shape | MatrixFault::PayTooFine => unreachable!(),
    }
}

/// The parts of a named game.
fn named_parts(alloc: Global, kind: Kind) -> Result<MatrixParts, NoMemory>
    ensures { IfOk result (λ parts. parts ≡ named_parts kind) }
{
    match kind {
        Kind::Pennies => two_player_parts(
            alloc,
            &[b"Heads", b"Tails"],
            &[1, -1, -1, 1, -1, 1, 1, -1],
        ),
        Kind::Rps => two_player_parts(
            alloc,
            &[b"Rock", b"Paper", b"Scissors"],
            &[0, 0, 1, -1, -1, 1, -1, 1, 0, 0, 1, -1, 1, -1, -1, 1, 0, 0],
        ),
        Kind::Dilemma => two_player_parts(
            alloc,
            &[b"Cooperate", b"Defect"],
            &[5, 5, 10, 0, 0, 10, 1, 1],
        ),
        Kind::Sexes => two_player_parts(alloc, &[b"Ballet", b"Fight"], &[3, 2, 0, 0, 0, 0, 2, 3]),
    }
}

/// The table of two players, 1 and 2, who have the same strategies.
fn two_player_parts(
    alloc: Global,
    strategies: &[&[u8]],
    pays: &[i64],
) -> Result<MatrixParts, NoMemory>
    ensures { IfOk result (λ parts. parts ≡ two_player_parts (map (λ name. name.now) strategies.now) pays.now) }
{
    let players = texts(alloc, &[b"1", b"2"])?;
    let lists = twice(alloc, strategies)?;
    let pays = whole_pays(alloc, pays)?;
    Ok(MatrixParts {
        title: Text::new(alloc),
        players,
        comment: Text::new(alloc),
        strategies: lists,
        pays,
    })
}

/// The names of strategies, for each of two players.
fn twice(alloc: Global, names: &[&[u8]]) -> Result<List<List<Text>>, NoMemory>
    ensures { IfOk result (λ lists. lists ≡ map (λ name. name.now) names.now ∷ map (λ name. name.now) names.now ∷ []) }
{
    let mut lists = List::new(alloc);
    lists.push(texts(alloc, names)?)?;
    lists.push(texts(alloc, names)?)?;
    Ok(lists)
}

/// The names, each as a text of its own.
fn texts(alloc: Global, names: &[&[u8]]) -> Result<List<Text>, NoMemory>
    ensures { IfOk result (λ texts. texts ≡ map (λ name. name.now) names.now) }
{
    let mut texts = List::new(alloc);
    for name in names {
        texts.push(text(alloc, name)?)?;
    }
    Ok(texts)
}

/// A text of these bytes.
fn text(alloc: Global, bytes: &[u8]) -> Result<Text, NoMemory>
    ensures { IfOk result (λ text. text ≡ bytes.now) }
{
    let mut text = Text::new(alloc);
    text.push(bytes)?;
    Ok(text)
}

/// Whole numbers as fractions.
fn whole_pays(alloc: Global, pays: &[i64]) -> Result<List<Frac>, NoMemory>
    ensures { IfOk result (λ list. list ≡ map whole pays.now) }
{
    let mut list = List::new(alloc);
    for pay in pays {
        list.push(whole(*pay))?;
    }
    Ok(list)
}

/// A whole number as a fraction.
fn whole(number: i64) -> Frac
    ensures { result ≡ whole number }
{
    Frac::new(i128::from(number), 1).unwrap()
}
