//! Saved files: a game with its parameters, and the numbers of a history, as lines of text.
//! [`write_saved`] writes one, [`read_saved`] reads one with comments and empty lines in it, and
//! [`restore`] leads to the state.
#![tactic(auto)]

mod fault;
mod header;
mod lines;
mod numbers;
mod reader;
mod saved;
mod writer;

pub use fault::SavedFault;
pub use reader::read_saved;
pub use saved::{Saved, restore};
pub use writer::write_saved;
