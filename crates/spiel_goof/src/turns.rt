//! What a play of goofspiel is made of: complete turns, and the turn that is on.
ghost use Rattle.std.specs.Prelude.{◌≡◌, ◌<◌};
ghost use Rattle.spiel_goof.specs.Goofspiel.{bid_of, gain_of};

/// A turn in which both players have bid. Each number is a card less 1.
#[derive(Clone, Copy)]
pub struct Turn {
    /// The point card.
    pub point: u32,
    /// The bid of player 0.
    pub first: u32,
    /// The bid of player 1.
    pub second: u32,
}

/// What lies of the turn that is on. Each number is a card less 1.
#[derive(Clone, Copy)]
pub enum Stage {
    /// Nothing: the turns so far are complete.
    Between,
    /// The point card.
    Shown { point: u32 },
    /// The point card, and the bid of player 0, which player 1 doesn't see.
    Bid { point: u32, first: u32 },
}

impl Turn {
    /// What the player bid.
    pub fn bid(&self, player: u32) -> u32
        ensures { result ≡ bid_of player self.now }
    {
        if player == 0 { self.first } else { self.second }
    }

    /// The points that the player gains.
    pub fn gain(&self, player: u32) -> u32
        requires player { player < 2 }
        requires point { self.now.point < 20 }
        ensures { result ≡ gain_of player self.now }
    {
        if self.bid(1 - player) < self.bid(player) {
            self.point + 1
        } else {
            0
        }
    }
}
