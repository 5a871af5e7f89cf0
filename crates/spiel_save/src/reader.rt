//! Reading a saved file, or its first fault.
ghost use Rattle.std.specs.Prelude.{◌≡◌, ◌≤◌, length, ℕ, List, Ok, IfOk, IfErr, MatchResult};
ghost use Rattle.spiel_string.specs.Game.{Game};
ghost use Rattle.spiel_string.specs.View.{view};
ghost use Rattle.spiel_string.specs.WellFormed.{EachGame, IsWellFormed};
ghost use Rattle.spiel_save.specs.Answer.{reading_saved, IsAnswer, IsComputed};
ghost use Rattle.spiel_save.specs.Saved.{IsSaved, IsSavedFault, MayRefuse, Gives, Refuses};
ghost use Rattle.spiel_save.specs.declared.fault.SavedFault.{SavedFault};

use crate::fault::SavedFault;
use crate::header::read_header;
use crate::numbers::read_numbers;
use crate::saved::Saved;
use spiel_string::read_game;
use std::alloc::Global;

// The game and the history of a saved file, or its first fault.
fn read_file(alloc: Global, bytes: &[u8]) -> Result<Saved, SavedFault>
    requires { length bytes.now ≤ 67108864 }
    ensures ok { IfOk result (λ saved. IsSaved bytes.now (view saved.game) saved.history) }
    ensures err { IfErr result (MayRefuse bytes.now) }
    ensures read { (game : Game) → (history : List ℕ) → IsSaved bytes.now game history → Gives game history result }
    ensures fault { (fault : SavedFault) → IsSavedFault bytes.now fault → Refuses fault result }
    ensures well_formed { IfOk result (λ saved. EachGame IsWellFormed (view saved.game)) }
{
    let Some((text, below, above)) = read_header(bytes) else {
        return Err(SavedFault::Header);
    };
    let game = read_game(alloc, text)?;
    let history = read_numbers(alloc, below, above)?;
    Ok(Saved { game, history })
}

/// The game and the history of a saved file, or the first fault of the file. A line ends at a line
/// feed, and a carriage return is part of its line.
pub fn read_saved(alloc: Global, bytes: &[u8]) -> Result<Saved, SavedFault>
    requires { length bytes.now ≤ 67108864 }
    ensures ok { IfOk result (λ saved. IsSaved bytes.now (view saved.game) saved.history) }
    ensures err { IfErr result (MayRefuse bytes.now) }

    // What can be read is read, and a fault is answered, unless memory runs out.
    ensures read { (game : Game) → (history : List ℕ) → IsSaved bytes.now game history → Gives game history result }
    ensures fault { (fault : SavedFault) → IsSavedFault bytes.now fault → Refuses fault result }

    // The same as a function of the bytes, which is what the lines of the file tell.
    ensures computed { MatchResult result (λ saved. reading_saved bytes.now ≡ Ok (view saved.game, saved.history)) (IsComputed (reading_saved bytes.now)) }
    ensures exact { IsAnswer bytes.now (reading_saved bytes.now) }

    ensures well_formed { IfOk result (λ saved. EachGame IsWellFormed (view saved.game)) }
{
    read_file(alloc, bytes)
}
