//! Matrix games: payoff tables of players who choose at once.
#![tactic(auto)]

mod contingencies;
mod fault;
mod matrix;
mod named;
mod names;
mod parts;
mod pays;
mod shape;

pub use fault::MatrixFault;
pub use matrix::Matrix;
pub use named::Kind;
pub use names::push_strategy;
pub use parts::MatrixParts;
pub use pays::{common_unit, greatest_size, pays_in};
