//! Files that words name.
ghost use Rattle.std.specs.Prelude.{◌≤◌, length, IfOk};
ghost use Rattle.spiel_io.specs.Plan.{BeginsAtMost, Follows};
ghost use Rattle.spiel_cli.specs.Files.{file_limit, named_file};
ghost use Rattle.spiel_cli.specs.Refusal.{kind_of};

use crate::refusal::Refusal;
use spiel_frac::Text;
use spiel_io::{Shelf, Slot, fetch};
use std::alloc::Global;

/// How many bytes a file may have.
const FILE_LIMIT: usize = 67_108_864;

/// All bytes of a file that the words name.
pub fn read_file<F: Shelf>(alloc: Global, shelf: &mut F, name: &[u8]) -> Result<Text, Refusal>
    ensures follows { Follows kind_of (named_file name.now) (F.state shelf.old) (F.state shelf.new) result }
    ensures short { IfOk result (λ bytes. length bytes ≤ file_limit) }
    ensures begins { BeginsAtMost 1 0 (F.state shelf.old) (F.state shelf.new) }
{
    fetch(alloc, shelf, Slot::Main, name, FILE_LIMIT).map_err(Refusal::File)
}
