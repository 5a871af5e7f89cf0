//! The games that have names. A game that joins them says its names in a file of its own, as
//! `Known`, and has a place in [`Table`].

mod board;
mod dice;
pub mod gambit;
mod goofspiel;
mod matrix;
mod poker;

use spiel_board::TicTacToe;
use spiel_dice::LiarsDice;
use spiel_efg::Efg;
use spiel_goof::Goofspiel;
use spiel_layers::Either;
use spiel_matrix::Matrix;
use spiel_poker::{Kuhn, Leduc};

/// Games of the table: some of one kind, or some of another.
pub type Table = Either<
    Either<Goofspiel, Either<Kuhn, Leduc>>,
    Either<LiarsDice, Either<Matrix, TicTacToe>>,
>;

/// A game in a file, or one of the table.
pub type Base = Either<Efg, Table>;
