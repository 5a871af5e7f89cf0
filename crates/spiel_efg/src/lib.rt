//! Extensive games: trees of nodes with information sets and outcomes.
#![tactic(auto)]

mod efg;
mod fault;
mod form;
mod mentions;
mod parts;
mod pays;
mod read;
mod read_fault;
mod read_lines;
mod read_mentions;
mod read_nodes;
mod read_outcomes;
mod read_sets;
mod read_tokens;
mod read_tree;
mod read_weights;
mod read_words;
mod seen;
mod sets;
mod tree;
mod waiting;
mod write;

pub use efg::Efg;
pub use fault::PartsFault;
pub use parts::{EfgAction, EfgNode, EfgOutcome, EfgParts, EfgSet, NodeKind};
pub use read::{read_efg, read_parts};
pub use read_fault::EfgFault;
pub use write::write_efg;
