//! The numbers on the lines of a saved file.
ghost use Rattle.std.specs.Prelude.{◌≡◌, ◌<◌, ◌+◌, ◌^◌, length, IfOk, IfErr, Ok};
ghost use Rattle.spiel_save.specs.Lines.{kept_from};
ghost use Rattle.spiel_save.specs.Numbers.{numbers_of, IsNumberFault};

use crate::fault::SavedFault;
use crate::lines::next_kept;
use spiel_frac::{List, read_number};
use std::alloc::Global;

/// The numbers on the kept lines of a text that so many lines stand above.
pub fn read_numbers(alloc: Global, bytes: &[u8], above: u32) -> Result<List<u32>, SavedFault>
    requires { above + length bytes.now < 2 ^ 32 }
    ensures ok { IfOk result (λ numbers. numbers_of (kept_from above bytes.now) ≡ Ok numbers) }
    ensures err { IfErr result (IsNumberFault (numbers_of (kept_from above bytes.now))) }
{
    let mut numbers = List::new(alloc);
    let mut rest = bytes;
    let mut passed = above;
    while let Some((at, line, behind)) = next_kept(rest, passed) {
        let Some(number) = read_number(line) else {
            return Err(SavedFault::Number { line: at });
        };
        numbers.push(number)?;
        rest = behind;
        passed = at;
    }
    Ok(numbers)
}
