//! Poker games, by their parameters.
ghost use Rattle.std.specs.Prelude.{IfOk, ◌∷◌, [], codes};
ghost use Rattle.spiel_poker.specs.Kuhn.{kuhn_rules};
ghost use Rattle.spiel_poker.specs.Leduc.{leduc_rules};
ghost use Rattle.spiel_load.specs.Asked.{ReadsAs, asked_view};
ghost use Rattle.spiel_load.specs.Games.{of_two};

use crate::asked::Asked;
use crate::fault::LoadFault;
use crate::known::Known;
use spiel_api::Game;
use spiel_poker::{Kuhn, Leduc};

// Kuhn poker as it is asked for, or the first fault.
#[tactic(auto, using(crate::proofs::Reading::reading_steps), unfolding(crate::specs::Games::of_two))]
fn kuhn(asked: Asked) -> Result<Kuhn, LoadFault>
    ensures reads { ReadsAs ⟦<Kuhn as Game>⟧.rules (of_two kuhn_rules (asked_view asked.entry)) result }
    ensures playable { IfOk result ⟦<Kuhn as Game>⟧.is_game }
{
    asked.only_keys(&[b"players"])?;
    let players = asked.number(b"players", 2, 2, 2)?;
    Ok(Kuhn::of(players))
}

#[tactic(auto, using(crate::proofs::Reading::reading_steps), unfolding(crate::specs::Games::rules_among))]
impl Known for Kuhn {
    ghost known = { (codes "kuhn_poker", of_two kuhn_rules) ∷ [] };

    fn find(asked: Asked) -> Result<Option<Kuhn>, LoadFault> {
        if asked.name == b"kuhn_poker".as_slice() {
            return Ok(Some(kuhn(asked)?));
        }
        Ok(None)
    }
}

// Leduc poker as it is asked for, or the first fault.
#[tactic(auto, using(crate::proofs::Reading::reading_steps), unfolding(crate::specs::Games::of_two))]
fn leduc(asked: Asked) -> Result<Leduc, LoadFault>
    ensures reads { ReadsAs ⟦<Leduc as Game>⟧.rules (of_two leduc_rules (asked_view asked.entry)) result }
    ensures playable { IfOk result ⟦<Leduc as Game>⟧.is_game }
{
    asked.only_keys(&[b"players"])?;
    let players = asked.number(b"players", 2, 2, 2)?;
    Ok(Leduc::of(players))
}

#[tactic(auto, using(crate::proofs::Reading::reading_steps), unfolding(crate::specs::Games::rules_among))]
impl Known for Leduc {
    ghost known = { (codes "leduc_poker", of_two leduc_rules) ∷ [] };

    fn find(asked: Asked) -> Result<Option<Leduc>, LoadFault> {
        if asked.name == b"leduc_poker".as_slice() {
            return Ok(Some(leduc(asked)?));
        }
        Ok(None)
    }
}
