//! Games that are made of other games.
#![tactic(auto)]

mod either;
mod laws;
mod layer;
mod misere;
mod repeated;
mod start_at;
mod told;
mod turn_based;

pub use either::{Either, EitherState};
pub use laws::{choices_are_hidden, plays_go_on, rounds_are_plays};
pub use layer::{Layer, LayerState};
pub use misere::Misere;
pub use repeated::{RepeatFault, Repeated, RepeatedState};
pub use start_at::StartAt;
pub use turn_based::TurnBased;
