//! Histories as words of the command line.
ghost use Rattle.std.specs.Prelude.{◌≡◌, IfOk};
ghost use Rattle.spiel_cli.specs.Lists.{list_of};

use spiel_frac::{List, NoMemory, read_numbers};
use std::alloc::Global;

/// The history that a word lists, or none where it lists none: `root` is the empty history, and any
/// other is given by its decimal numbers with commas between them.
#[tactic(auto, unfolding(crate::specs::Lists::list_of))]
pub fn read_list(alloc: Global, word: &[u8]) -> Result<Option<List<u32>>, NoMemory>
    ensures { IfOk result (λ history. history ≡ list_of word.now) }
{
    if word == b"root".as_slice() {
        return Ok(Some(List::new(alloc)));
    }
    read_numbers(alloc, word, b',')
}
