//! A set of the cards that are left.
ghost use Rattle.std.specs.Prelude.{◌≡◌, ◌<◌, ◌≤◌, ◌++◌, ◌∷◌, List, ℕ, [], length, slice_index};
ghost use Rattle.spiel_goof.specs.Cards.{AreLeft, held};

/// Which of 20 cards are left. The number of a card is the card less 1.
#[derive(Clone, Copy)]
pub struct Cards {
    left: [bool; 20],
}

impl Cards {
    /// All cards.
    pub fn all() -> Cards
        ensures { AreLeft result [] }
    {
        Cards { left: [true; 20] }
    }

    /// The cards without this one.
    pub fn without(self, card: u32) -> Cards
        requires { card < 20 }
        ensures { (gone : List ℕ) → AreLeft self gone → AreLeft result (gone ++ card ∷ []) }
    {
        let mut left = self.left;
        left[card as usize] = false;
        Cards { left }
    }

    /// How many of the lowest `cards` cards are left.
    #[tactic(auto, using(crate::proofs::CardSteps::where_steps))]
    pub fn count(&self, cards: u32) -> u32
        requires { cards ≤ 20 }
        ensures { result ≡ length (held self.now cards) }
    {
        let mut count = 0;
        for card in 0..cards {
            if self.left[card as usize] {
                count += 1;
            }
        }
        count
    }

    /// The card at an index among the lowest `cards` cards that are left.
    #[tactic(auto, using(crate::proofs::CardSteps::where_steps))]
    pub fn at(&self, cards: u32, index: u32) -> u32
        requires few { cards ≤ 20 }
        requires index { index < length (held self.now cards) }
        ensures { result ≡ slice_index (held self.now cards) index }
    {
        let mut before = 0;
        for card in 0..cards {
            if self.left[card as usize] {
                if before == index {
                    return card;
                }
                before += 1;
            }
        }
        unreachable!()
    }
}
