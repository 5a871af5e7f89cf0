//! Goofspiel, a game in which both players bid at once.
#![tactic(auto)]

mod cards;
mod goofspiel;
mod table;
mod turns;

pub use goofspiel::{BadCards, Goofspiel, GoofspielState, PointOrder, ReturnKind};
