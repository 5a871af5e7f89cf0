//! Reading a game from its file.
ghost use Rattle.std.specs.Prelude.{◌≡◌, ◌<◌, ◌≤◌, ◌^◌, length, All, Ok, MatchResult, IfOk};
ghost use Rattle.spiel_string.specs.Tokens.{IsWithin, file_tokens, most_file_bytes};
ghost use Rattle.spiel_efg.specs.Efg.{efg_rules};
ghost use Rattle.spiel_efg.specs.Reading.{game_of_file, parts_of_file, with_tokens};
ghost use Rattle.spiel_efg.specs.ReadingTokens.{IsComputed};

use crate::efg::Efg;
use crate::fault::PartsFault;
use crate::parts::EfgParts;
use crate::read_fault::EfgFault;
use crate::read_tokens::Reader;
use crate::read_tree::parts;
use spiel_api::Game;
use spiel_frac::List;
use spiel_string::{Token, TokenFault, tokens};
use std::alloc::Global;

// The tokens of a file.
#[tactic(auto, using(crate::proofs::ReadingFiles::few_tokens))]
fn file_tokens(alloc: Global, bytes: &[u8]) -> Result<List<Token>, EfgFault>
    requires { length bytes.now ≤ most_file_bytes }
    ensures answer { MatchResult result
        (λ list. file_tokens bytes.now ≡ Ok list)
        (IsComputed (with_tokens bytes.now (file_tokens bytes.now))) }
    ensures within { IfOk result (All (IsWithin (length bytes.now))) }
    ensures few { IfOk result (λ list. length list < 2 ^ 32) }
{
    match tokens(alloc, bytes) {
        Ok(list) => Ok(list),
        Err(TokenFault::Unclosed { at }) => Err(EfgFault::Token { at }),
        Err(TokenFault::NoMemory) => Err(EfgFault::NoMemory),
    }
}

/// The parts that a file gives, or the first thing that is wrong with the file. The sizes of payoffs
/// aren't tested.
#[tactic(auto, unfolding(crate::specs::Reading::parts_of_file))]
pub fn read_parts(alloc: Global, bytes: &[u8]) -> Result<EfgParts, EfgFault>
    requires { length bytes.now ≤ most_file_bytes }
    ensures { MatchResult result
        (λ parts. parts_of_file bytes.now ≡ Ok parts)
        (IsComputed (parts_of_file bytes.now)) }
{
    let list = file_tokens(alloc, bytes)?;
    let mut reader = Reader::new(bytes, list.items());
    parts(alloc, &mut reader)
}

/// The game that an `.efg` file gives (Gambit's extensive form games), or the first thing that is
/// wrong with the file.
#[tactic(auto, using(crate::proofs::ReadingSound::fault_passed, crate::proofs::ReadingSound::fine_game, crate::proofs::ReadingSound::too_fine))]
pub fn read_efg(alloc: Global, bytes: &[u8]) -> Result<Efg, EfgFault>
    requires { length bytes.now ≤ most_file_bytes }
    ensures answer { MatchResult result
        (λ game. game_of_file bytes.now ≡ Ok game.parts)
        (IsComputed (game_of_file bytes.now)) }
    ensures rules { IfOk result (λ game. ⟦<Efg as Game>⟧.rules game ≡ efg_rules game.parts) }
{
    let parts = read_parts(alloc, bytes)?;
    match Efg::of(alloc, parts) {
        Ok(game) => Ok(game),
        Err(PartsFault::Bad) => Err(EfgFault::PayTooFine),
        Err(PartsFault::NoMemory) => Err(EfgFault::NoMemory),
    }
}
