//! Whether parts are those of a payoff table: players, strategies, and a pay of each at each contingency.
ghost use Rattle.std.specs.Prelude.{◌≡◌, ◌≤◌, ◌*◌, nat_le, if◌then◌else◌, true};
ghost use Rattle.spiel_matrix.specs.Contingencies.{contingencies};
ghost use Rattle.spiel_matrix.specs.Parts.{are_filled, has_shape, most_pays};

use crate::parts::MatrixParts;
use spiel_frac::{List, Text};

/// How many pays a table may have.
const MOST_PAYS: usize = 4_194_304;

/// Whether there are 1 to 64 players, each with a list of strategies that isn't empty, and the pays
/// of all contingencies, which aren't too many.
pub(crate) fn has_shape(parts: &MatrixParts) -> bool
    ensures { result ≡ has_shape parts.now }
{
    let players = parts.players.items().len();
    let strategies = parts.strategies.items();
    if !(1..=64).contains(&players) || strategies.len() != players || !are_filled(strategies) {
        return false;
    }
    count_pays(players, strategies) == Some(parts.pays.items().len())
}

/// Whether each player has a strategy.
fn are_filled(strategies: &[List<Text>]) -> bool
    ensures { result ≡ are_filled strategies.now }
{
    strategies.iter().all(|own| !own.items().is_empty())
}

/// How many pays there are to be, one for each contingency and each player, if they aren't too
/// many.
fn count_pays(players: usize, strategies: &[List<Text>]) -> Option<usize>
    requires players { players ≤ 64 }
    requires filled { are_filled strategies.now ≡ true }
    ensures { result ≡ (if nat_le (players * contingencies strategies.now) most_pays then Some (players * contingencies strategies.now) else None) }
{
    let mut count = players;
    for own in strategies {
        count = times(count, own.items().len())?;
    }
    Some(count)
}

/// The product, unless it is too large.
fn times(count: usize, more: usize) -> Option<usize>
    ensures { result ≡ (if nat_le (count * more) most_pays then Some (count * more) else None) }
{
    match count.checked_mul(more) {
        Some(product) if product <= MOST_PAYS => Some(product),
        _ => None,
    }
}
