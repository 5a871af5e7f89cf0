//! Numbers that are listed with a byte between them.
ghost use Rattle.std.specs.Prelude.{◌≡◌, ◌∷◌, ◌<◌, [], length, IfOk, IfSome, MatchOption, if◌then◌else◌};
ghost use Rattle.std.specs.Fmt.{decimal};
ghost use Rattle.std.specs.Option.{is_some};
ghost use Rattle.spiel_frac.specs.Cuts.{parts_of};
ghost use Rattle.spiel_frac.specs.Adding.{Adds};
ghost use Rattle.spiel_frac.specs.Listed.{listed, numbers_between};

use crate::cutting::cut;
use crate::list::List;
use crate::memory::NoMemory;
use crate::numbers::{read_number, write_number};
use crate::text::Text;
use std::alloc::Global;

// The part before the first of these bytes, and what follows the byte, if there is one.
#[tactic(auto, using(crate::proofs::Cuts::parts_uncut, crate::proofs::Cuts::parts_cut))]
fn first_part(bytes: &[u8], mark: u8) -> (&[u8], Option<&[u8]>)
    ensures parts { MatchOption result.1 (parts_of mark bytes.now ≡ result.0.now ∷ []) (λ rest. parts_of mark bytes.now ≡ result.0.now ∷ parts_of mark rest.now) }
    ensures shorter { IfSome result.1 (λ rest. length rest.now < length bytes.now) }
{
    match cut(bytes, mark) {
        Some((part, rest)) => (part, Some(rest)),
        None => (bytes, None),
    }
}

/// The numbers that are listed with this byte between them, where each part is one that
/// [`read_number`](crate::read_number) reads.
pub fn read_numbers(alloc: Global, word: &[u8], mark: u8) -> Result<Option<List<u32>>, NoMemory>
    ensures { IfOk result (λ numbers. numbers ≡ numbers_between mark word.now) }
{
    let mut numbers = List::new(alloc);
    let mut rest = Some(word);
    while let Some(bytes) = rest {
        let (part, behind) = first_part(bytes, mark);
        let Some(number) = read_number(part) else {
            return Ok(None);
        };
        numbers.push(number)?;
        rest = behind;
    }
    Ok(Some(numbers))
}

/// Whether each part between these bytes is a number that [`read_number`](crate::read_number) reads.
pub fn are_numbers(word: &[u8], mark: u8) -> bool
    ensures { result ≡ is_some (numbers_between mark word.now) }
{
    let mut rest = Some(word);
    while let Some(bytes) = rest {
        let (part, behind) = first_part(bytes, mark);
        if read_number(part).is_none() {
            return false;
        }
        rest = behind;
    }
    true
}

// Adds a number behind the byte, unless it is the first.
fn write_next(number: u32, mark: u8, is_first: bool, out: &mut Text) -> Result<(), NoMemory>
    ensures { Adds result out.old out.new (if is_first then decimal number else mark ∷ decimal number) }
{
    if is_first {
        write_number(number, out)
    } else {
        out.push(&[mark])?;
        write_number(number, out)
    }
}

/// Adds the decimal texts of the numbers, with this byte between each two. After `NoMemory` a front
/// of this may have been added.
pub fn write_numbers(numbers: &[u32], mark: u8, out: &mut Text) -> Result<(), NoMemory>
    ensures { Adds result out.old out.new (listed mark numbers.now) }
{
    for (index, number) in numbers.iter().enumerate() {
        write_next(*number, mark, index == 0, out)?;
    }
    Ok(())
}
