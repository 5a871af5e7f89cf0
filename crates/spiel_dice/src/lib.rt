//! Games with dice.
#![tactic(auto)]

mod liars_dice;

pub use liars_dice::{BadDice, LiarsDice, LiarsDiceState};
