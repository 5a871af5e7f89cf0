//! Board games, by their parameters.
ghost use Rattle.std.specs.Prelude.{IfOk, ◌∷◌, [], codes};
ghost use Rattle.spiel_board.specs.TicTacToe.{tic_tac_toe_rules};
ghost use Rattle.spiel_load.specs.Asked.{ReadsAs, asked_view};
ghost use Rattle.spiel_load.specs.Games.{alone};

use crate::asked::Asked;
use crate::fault::LoadFault;
use crate::known::Known;
use spiel_api::Game;
use spiel_board::TicTacToe;

// Tic-tac-toe as it is asked for, or the first fault.
#[tactic(auto, using(crate::proofs::Reading::reading_steps), unfolding(crate::specs::Games::alone))]
fn tic_tac_toe(asked: Asked) -> Result<TicTacToe, LoadFault>
    ensures reads { ReadsAs ⟦<TicTacToe as Game>⟧.rules (alone tic_tac_toe_rules (asked_view asked.entry)) result }
    ensures playable { IfOk result ⟦<TicTacToe as Game>⟧.is_game }
{
    asked.only_keys(&[])?;
    Ok(TicTacToe::new())
}

#[tactic(auto, using(crate::proofs::Reading::reading_steps), unfolding(crate::specs::Games::rules_among))]
impl Known for TicTacToe {
    ghost known = { (codes "tic_tac_toe", alone tic_tac_toe_rules) ∷ [] };

    fn find(asked: Asked) -> Result<Option<TicTacToe>, LoadFault> {
        if asked.name == b"tic_tac_toe".as_slice() {
            return Ok(Some(tic_tac_toe(asked)?));
        }
        Ok(None)
    }
}
