//! What a matrix game is made of.

use spiel_frac::{Frac, List, Text};

/// What a matrix game is made of (Gambit's strategic form games).
///
/// A contingency is one strategy of each player. The pays stand by contingency, where the first
/// player's strategy changes fastest, and within one contingency by player.
#[derive(Debug, Drop)]
pub struct MatrixParts {
    /// The title, which no rule reads.
    pub title: Text,
    /// The names of the players, which no rule reads.
    pub players: List<Text>,
    /// A comment, which no rule reads.
    pub comment: Text,
    /// For each player the names of the strategies.
    pub strategies: List<List<Text>>,
    /// What each player gets at each contingency.
    pub pays: List<Frac>,
}
