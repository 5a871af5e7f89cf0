//! A game string's value: a name, with parameters and their values.
use spiel_frac::{List, Text};

/// A game as a string names it: the game's name, and the parameters that are given. What
/// [`read_game`](crate::read_game) gives has its parameters in byte order of their keys.
#[cycle(game)]
#[derive(Debug, Drop)]
pub struct GameText {
    /// The name of the game.
    pub name: Text,
    /// Keys with their values.
    pub params: List<(Text, ParamValue)>,
}

/// The value of a parameter.
#[cycle(game)]
#[derive(Debug, Drop)]
pub enum ParamValue {
    /// A whole number of at most 18 digits.
    Int(i64),
    /// `True` or `False`.
    Flag(bool),
    /// A word that is neither.
    Word(Text),
    /// A game with its own parameters.
    Game(Box<GameText>),
}
