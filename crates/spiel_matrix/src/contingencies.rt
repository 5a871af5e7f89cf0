//! The place of a contingency in a payoff table.
ghost use Rattle.std.specs.Prelude.{◌≡◌, ◌≤◌, length};
ghost use Rattle.spiel_matrix.specs.Contingencies.{contingencies, contingency_at};
ghost use Rattle.spiel_matrix.specs.MatrixPlays.{AreChoices};
ghost use Rattle.spiel_matrix.specs.Parts.{most_pays};

use spiel_frac::{List, Text};

/// How many contingencies stand before the one of these choices, one of each player: the first
/// player's strategy changes fastest.
pub(crate) fn contingency_at(strategies: &[List<Text>], choices: &[u32]) -> usize
    requires choices { AreChoices strategies.now choices.now }
    requires whole { length choices.now ≡ length strategies.now }
    requires few { contingencies strategies.now ≤ most_pays }
    ensures { result ≡ contingency_at strategies.now choices.now }
{
    let mut place = 0usize;
    for player in (0..strategies.len()).rev() {
        place = choices[player] as usize + strategies[player].items().len() * place;
    }
    place
}
