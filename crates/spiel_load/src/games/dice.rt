//! Dice games, by their parameters.
ghost use Rattle.std.specs.Prelude.{IfOk, ◌∷◌, [], codes};
ghost use Rattle.spiel_load.specs.Asked.{ReadsAs, asked_view};
ghost use Rattle.spiel_load.specs.Games.Dice.{liars_dice};

use crate::asked::Asked;
use crate::fault::LoadFault;
use crate::known::Known;
use spiel_api::Game;
use spiel_dice::LiarsDice;

// Liar's dice as they are asked for, or the first fault.
#[tactic(auto, using(crate::proofs::Reading::reading_steps), unfolding(crate::specs::Games::Dice::liars_dice))]
fn liars_dice(asked: Asked) -> Result<LiarsDice, LoadFault>
    ensures reads { ReadsAs ⟦<LiarsDice as Game>⟧.rules (liars_dice (asked_view asked.entry)) result }
    ensures playable { IfOk result ⟦<LiarsDice as Game>⟧.is_game }
{
    asked.only_keys(&[b"dice_sides", b"numdice", b"players"])?;
    let sides = asked.number(b"dice_sides", 2, 20, 6)?;
    let dice = asked.number(b"numdice", 1, 5, 1)?;
    asked.number(b"players", 2, 2, 2)?;
    Ok(LiarsDice::of(dice, sides))
}

#[tactic(auto, using(crate::proofs::Reading::reading_steps), unfolding(crate::specs::Games::rules_among))]
impl Known for LiarsDice {
    ghost known = { (codes "liars_dice", liars_dice) ∷ [] };

    fn find(asked: Asked) -> Result<Option<LiarsDice>, LoadFault> {
        if asked.name == b"liars_dice".as_slice() {
            return Ok(Some(liars_dice(asked)?));
        }
        Ok(None)
    }
}
