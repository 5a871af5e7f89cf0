//! Policies for the information states of a tree, with exact weights, and policy files.
#![tactic(auto)]

mod adding;
mod entries;
mod entrywise;
mod fault;
mod heads;
mod partial;
mod policy;
mod reading;
mod standard;
mod tables;
mod tokens;
mod weighing;
mod writing;

pub use fault::PolicyFault;
pub use policy::Policy;
pub use reading::read_policy;
pub use standard::{first_action, uniform};
pub use writing::write_policy;
