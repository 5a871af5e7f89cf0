//! The lines in which plays are shown, for any game: those of a state, and those of the facts of a
//! whole game.
#![tactic(auto)]

mod block_lines;
mod fact_lines;

pub use block_lines::{block, legal_lines};
pub use fact_lines::{facts, title};
