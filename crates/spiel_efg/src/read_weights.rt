ghost use Rattle.std.specs.Prelude.{◌≡◌, Ok, MatchResult};
ghost use Rattle.spiel_efg.specs.ReadingTokens.{IsComputed};
ghost use Rattle.spiel_efg.specs.ReadingNodes.{tested_actions, tested_weights};

use crate::fault::PartsFault;
use crate::parts::EfgAction;
use crate::read_fault::EfgFault;
use crate::sets::{none_negative, probabilities, weights_in};
use spiel_frac::Frac;
use spiel_matrix::common_unit;
use std::alloc::Global;

/// Tests the probabilities of a set of chance: first none is negative, then they aren't too fine, then
/// their sum is 1.
#[tactic(auto, unfolding(crate::specs::ReadingNodes::tested_weights))]
fn test_weights(alloc: Global, node: u32, weights: &[Frac]) -> Result<(), EfgFault>
    ensures { MatchResult result (λ done. tested_weights node weights.now ≡ Ok done) (IsComputed (tested_weights node weights.now)) }
{
    if !none_negative(weights) {
        return Err(EfgFault::ChanceSum { node });
    }
    let Some(unit) = common_unit(weights) else {
        return Err(EfgFault::ChanceTooFine { node });
    };
    match weights_in(alloc, unit, weights) {
        Ok(_) => Ok(()),
        Err(PartsFault::Bad) => Err(EfgFault::ChanceSum { node }),
        Err(PartsFault::NoMemory) => Err(EfgFault::NoMemory),
    }
}

/// Tests the actions of a set that a node mentions first.
pub(crate) fn test_actions(
    alloc: Global,
    node: u32,
    player: Option<u32>,
    actions: &[EfgAction],
) -> Result<(), EfgFault>
    ensures { MatchResult result
        (λ done. tested_actions node player actions.now ≡ Ok done)
        (IsComputed (tested_actions node player actions.now)) }
{
    match player {
        Some(_) => Ok(()),
        None => {
            let weights = probabilities(alloc, actions)?;
            test_weights(alloc, node, weights.items())
        }
    }
}
