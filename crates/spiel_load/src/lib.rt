//! Games by their names: what a game string names, with its parameters.
#![tactic(auto)]

mod asked;
mod fault;
mod games;
mod known;
mod loading;
mod nesting;
mod transforms;

pub use fault::LoadFault;
pub use games::Base;
pub use loading::{Any, load};
pub use nesting::Named;
