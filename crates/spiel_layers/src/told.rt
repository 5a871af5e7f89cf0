//! What a repeated game tells of the rounds that are over.
ghost use Rattle.spiel_frac.specs.Adding.{Adds};
ghost use Rattle.spiel_layers.specs.Repeated.{with_space, rounds_told};

use spiel_frac::{NoMemory, Text, write_number};

/// Adds the numbers of all earlier choices, each with a space behind it, and then `| `. After
/// `NoMemory` a front of this may have been added.
pub(crate) fn push_told(numbers: &[u32], out: &mut Text) -> Result<(), NoMemory>
    ensures { Adds result out.old out.new (rounds_told numbers.now) }
{
    for number in numbers {
        push_with_space(*number, out)?;
    }
    out.push(b"| ")
}

fn push_with_space(number: u32, out: &mut Text) -> Result<(), NoMemory>
    ensures { Adds result out.old out.new (with_space number) }
{
    write_number(number, out)?;
    out.push(b" ")
}
