//! Goofspiel, by its parameters.
ghost use Rattle.std.specs.Prelude.{IfOk, ◌∷◌, [], codes};
ghost use Rattle.spiel_load.specs.Asked.{ReadsAs, asked_view};
ghost use Rattle.spiel_load.specs.Games.Goofspiel.{goofspiel, orders, return_kinds};

use crate::asked::{Asked, Choice};
use crate::fault::LoadFault;
use crate::known::Known;
use spiel_api::Game;
use spiel_goof::{Goofspiel, PointOrder, ReturnKind};

impl Choice for PointOrder {
    ghost choices = { orders };

    fn named(word: &[u8]) -> Option<PointOrder> {
        if word == b"random".as_slice() {
            return Some(PointOrder::Random);
        }
        if word == b"ascending".as_slice() {
            return Some(PointOrder::Ascending);
        }
        if word == b"descending".as_slice() {
            return Some(PointOrder::Descending);
        }
        None
    }
}

impl Choice for ReturnKind {
    ghost choices = { return_kinds };

    fn named(word: &[u8]) -> Option<ReturnKind> {
        if word == b"win_loss".as_slice() {
            return Some(ReturnKind::WinLoss);
        }
        if word == b"point_difference".as_slice() {
            return Some(ReturnKind::PointDifference);
        }
        if word == b"total_points".as_slice() {
            return Some(ReturnKind::TotalPoints);
        }
        None
    }
}

// Goofspiel as it is asked for, or the first fault.
#[tactic(auto, using(crate::proofs::Reading::reading_steps), unfolding(crate::specs::Games::Goofspiel::goofspiel))]
fn goofspiel(asked: Asked) -> Result<Goofspiel, LoadFault>
    ensures reads { ReadsAs ⟦<Goofspiel as Game>⟧.rules (goofspiel (asked_view asked.entry)) result }
    ensures playable { IfOk result ⟦<Goofspiel as Game>⟧.is_game }
{
    asked.only_keys(&[
        b"imp_info",
        b"num_cards",
        b"players",
        b"points_order",
        b"returns_type",
    ])?;
    let hidden = asked.flag(b"imp_info", false)?;
    let cards = asked.number(b"num_cards", 1, 20, 13)?;
    asked.number(b"players", 2, 2, 2)?;
    let order = asked.choice(b"points_order", PointOrder::Random)?;
    let returns = asked.choice(b"returns_type", ReturnKind::WinLoss)?;
    Ok(Goofspiel::of(cards, order, returns, hidden))
}

#[tactic(auto, using(crate::proofs::Reading::reading_steps), unfolding(crate::specs::Games::rules_among))]
impl Known for Goofspiel {
    ghost known = { (codes "goofspiel", goofspiel) ∷ [] };

    fn find(asked: Asked) -> Result<Option<Goofspiel>, LoadFault> {
        if asked.name == b"goofspiel".as_slice() {
            return Ok(Some(goofspiel(asked)?));
        }
        Ok(None)
    }
}
