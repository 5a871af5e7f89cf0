//! Games in files of Gambit's extensive form.
ghost use Rattle.std.specs.Prelude.{◌≡◌, ◌≤◌, codes, length, IfOk};
ghost use Rattle.std.specs.Str.{bytes_eq};
ghost use Rattle.spiel_io.specs.Plan.{Follows, seeing};
ghost use Rattle.spiel_string.specs.Tokens.{most_file_bytes};
ghost use Rattle.spiel_load.specs.Asked.{ReadsAs, Reads, asked_view};
ghost use Rattle.spiel_load.specs.Faults.{load_kind};
ghost use Rattle.spiel_load.specs.Games.Gambit.{efg_game, efg_in, side_file};
ghost use Rattle.spiel_load.specs.Params.{file_taken};
ghost use Rattle.spiel_load.specs.Reads.{ReadsSide};

use crate::asked::Asked;
use crate::fault::LoadFault;
use spiel_api::Game;
use spiel_efg::{Efg, EfgFault, read_efg};
use spiel_frac::Text;
use spiel_io::{FetchFault, Shelf, Slot, fetch};
use std::alloc::Global;

/// How many bytes a file may have.
const FILE_LIMIT: usize = 67_108_864;

// All bytes of a file that a game string names.
#[tactic(auto, unfolding(spiel_string::specs::Tokens::most_file_bytes))]
fn side_file<F: Shelf>(alloc: Global, shelf: &mut F, name: &[u8]) -> Result<Text, LoadFault>
    ensures follows { Follows load_kind (side_file name.now) (F.state shelf.old) (F.state shelf.new) result }
    ensures short { IfOk result (λ bytes. length bytes ≤ most_file_bytes) }
    ensures side { ReadsSide (F.state shelf.old) (F.state shelf.new) }
{
    match fetch(alloc, shelf, Slot::Side, name, FILE_LIMIT) {
        Ok(bytes) => Ok(bytes),
        Err(FetchFault::NoMemory) => Err(LoadFault::NoMemory),
        Err(fault) => Err(LoadFault::File(fault)),
    }
}

// The game in a file of these bytes.
#[tactic(auto, unfolding(crate::specs::Games::Gambit::efg_in))]
fn efg_in(alloc: Global, bytes: &Text) -> Result<Efg, LoadFault>
    requires { length bytes.now ≤ most_file_bytes }
    ensures { ReadsAs ⟦<Efg as Game>⟧.rules (efg_in bytes.now) result }
{
    match read_efg(alloc, bytes.bytes()) {
        Ok(game) => Ok(game),
        Err(EfgFault::NoMemory) => Err(LoadFault::NoMemory),
        Err(fault) => Err(LoadFault::Efg(fault)),
    }
}

/// Whether the name is that of a game in a file of Gambit's extensive form.
pub fn is_efg_game(name: &[u8]) -> bool
    ensures { result ≡ bytes_eq name.now (codes "efg_game") }
{
    name == b"efg_game".as_slice()
}

/// The game of the file that is named, or the first fault.
#[tactic(auto, unfolding(crate::specs::Games::Gambit::efg_game))]
pub fn efg_game<F: Shelf>(asked: Asked, shelf: &mut F) -> Result<Efg, LoadFault>
    ensures follows { Follows load_kind (efg_game (asked_view asked.entry)) (F.state shelf.old) (F.state shelf.new) (seeing ⟦<Efg as Game>⟧.rules result) }
    ensures side { ReadsSide (F.state shelf.old) (F.state shelf.new) }
{
    let name = asked.file()?;
    let bytes = side_file(asked.alloc, shelf, name)?;
    efg_in(asked.alloc, &bytes)
}
