//! The tree of all histories of a game, with its information states, or why a game has none.
#![tactic(auto)]

mod bracketed;
mod building;
mod counting;
mod faults;
mod flat;
mod history;
mod node;
mod pasts;
mod states;
mod texts;
mod tree;
mod walking;

pub use building::build;
pub use tree::{Tree, TreeFault};
