//! What is left of a deck of cards.
ghost use Rattle.std.specs.Prelude.{◌≡◌, ◌<◌, length, slice_index};
ghost use Rattle.spiel_api.specs.Deck.{cards_left};

/// How many cards are left of a deck of `count`, when these are dealt.
#[tactic(auto, using(crate::proofs::CardSteps::left_steps))]
pub fn left_count(count: u32, dealt: &[u32]) -> u32
    ensures { result ≡ length (cards_left count dealt.now) }
{
    let mut left = 0;
    for card in 0..count {
        if !dealt.contains(&card) {
            left += 1;
        }
    }
    left
}

/// The card at an index among those that are left, the lowest first.
#[tactic(auto, using(crate::proofs::CardSteps::left_steps))]
pub fn left_at(count: u32, dealt: &[u32], index: u32) -> u32
    requires { index < length (cards_left count dealt.now) }
    ensures { result ≡ slice_index (cards_left count dealt.now) index }
{
    let mut left = 0;
    for card in 0..count {
        if !dealt.contains(&card) {
            if left == index {
                return card;
            }
            left += 1;
        }
    }
    unreachable!()
}
