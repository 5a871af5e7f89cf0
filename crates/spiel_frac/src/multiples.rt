//! The least common multiple of two numbers.
ghost use Rattle.std.specs.Prelude.{◌≡◌, ◌<◌, ◌≤◌, [], ◌∷◌, IfSome, IfNone};
ghost use Rattle.spiel_frac.specs.Fraction.{most};
ghost use Rattle.spiel_frac.specs.Multiples.{IsLeastMultiple, least_common_multiple};

use crate::frac::{MOST, greatest_common_divisor};

/// The least common multiple of two numbers above 0. There is none where it passes 2^127 - 1.
#[tactic(auto, unfolding(crate::specs::Multiples::least_common_multiple))]
pub fn lcm(a: u128, b: u128) -> Option<u128>
    requires a { 1 ≤ a }
    requires b { 1 ≤ b }
    ensures some { IfSome result (λ n. (n ≡ least_common_multiple a b) × (n ≤ most)) }
    ensures none { IfNone result (most < least_common_multiple a b) }
    ensures least { IsLeastMultiple (a ∷ b ∷ []) (least_common_multiple a b) }
{
    let part = a / greatest_common_divisor(a, b);
    match part.checked_mul(b) {
        Some(n) if n <= MOST => Some(n),
        _ => None,
    }
}
