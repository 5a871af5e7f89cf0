//! Whose number is next after a history.

/// Whose number is next after a history. Players are counted from 0.
#[derive(Clone, Copy, Debug, PartialEq, Eq)]
pub enum Place {
    /// Nobody's: the game is over.
    End,
    /// The number of an outcome of chance.
    Chance,
    /// The action of this player, who alone moves.
    Move(u32),
    /// The action of this player inside a joint step. The step begins with player 0, and the others
    /// follow in player order without knowing the earlier choices.
    Joint(u32),
}
