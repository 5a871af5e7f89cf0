//! The matrix games that have names, by their parameters.
ghost use Rattle.std.specs.Prelude.{IfOk, ◌∷◌, [], codes};
ghost use Rattle.spiel_matrix.specs.Matrix.{matrix_rules};
ghost use Rattle.spiel_matrix.specs.Named.{named_parts};
ghost use Rattle.spiel_matrix.specs.declared.named.Kind.TheVariants.{Pennies, Rps, Dilemma, Sexes};
ghost use Rattle.spiel_load.specs.Asked.{ReadsAs, asked_view};
ghost use Rattle.spiel_load.specs.Games.{alone};

use crate::asked::Asked;
use crate::fault::LoadFault;
use crate::known::Known;
use spiel_api::Game;
use spiel_matrix::{Kind, Matrix};

// The matrix game of this kind as it is asked for, or the first fault.
#[tactic(auto, using(crate::proofs::Reading::reading_steps), unfolding(crate::specs::Games::alone))]
fn matrix(kind: Kind, asked: Asked) -> Result<Matrix, LoadFault>
    ensures reads { ReadsAs ⟦<Matrix as Game>⟧.rules (alone (matrix_rules (named_parts kind)) (asked_view asked.entry)) result }
    ensures playable { IfOk result ⟦<Matrix as Game>⟧.is_game }
{
    asked.only_keys(&[])?;
    Ok(Matrix::named(asked.alloc, kind)?)
}

#[tactic(auto, using(crate::proofs::Reading::reading_steps), unfolding(crate::specs::Games::rules_among))]
impl Known for Matrix {
    ghost known = { (codes "matrix_bos", alone (matrix_rules (named_parts Sexes))) ∷ (codes "matrix_mp", alone (matrix_rules (named_parts Pennies))) ∷ (codes "matrix_pd", alone (matrix_rules (named_parts Dilemma))) ∷ (codes "matrix_rps", alone (matrix_rules (named_parts Rps))) ∷ [] };

    fn find(asked: Asked) -> Result<Option<Matrix>, LoadFault> {
        if asked.name == b"matrix_bos".as_slice() {
            return Ok(Some(matrix(Kind::Sexes, asked)?));
        }
        if asked.name == b"matrix_mp".as_slice() {
            return Ok(Some(matrix(Kind::Pennies, asked)?));
        }
        if asked.name == b"matrix_pd".as_slice() {
            return Ok(Some(matrix(Kind::Dilemma, asked)?));
        }
        if asked.name == b"matrix_rps".as_slice() {
            return Ok(Some(matrix(Kind::Rps, asked)?));
        }
        Ok(None)
    }
}
