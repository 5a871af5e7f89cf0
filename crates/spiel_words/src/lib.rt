//! What the words behind the program's name ask for. [`read_words`] reads them by `clap`, each verb by
//! a command of its own, and it is proved that they are read by the project's own rule.
#![tactic(auto)]

mod command;
mod fault;
mod laws;
mod line;
mod rules;
mod shape;
mod verbs;

pub use command::Command;
pub use fault::WordsFault;
pub use laws::places_are_filled;
pub use verbs::read_words;
