//! Poker games.
#![tactic(auto)]

mod betting;
mod deck;
mod kuhn;
mod leduc;

pub use kuhn::{BadPlayers, Kuhn, KuhnState};
pub use leduc::{Leduc, LeducState};
