//! Names of strategies as they are printed.
ghost use Rattle.std.specs.Prelude.{◌≡◌, ◌<◌};
ghost use Rattle.spiel_frac.specs.Adding.{Adds};
ghost use Rattle.spiel_matrix.specs.Names.{printed_byte, printed, strategy_name};
ghost use Rattle.spiel_matrix.specs.Parts.{most_pays};

use spiel_frac::{NoMemory, Text, write_number};

/// A byte of printable ASCII, or a question mark in place of any other.
fn printed_byte(byte: u8) -> u8
    ensures { result ≡ printed_byte byte }
{
    if (32..=126).contains(&byte) {
        byte
    } else {
        b'?'
    }
}

/// Adds the printed form of a text: its first 64 bytes.
fn push_printed(text: &[u8], out: &mut Text) -> Result<(), NoMemory>
    ensures { Adds result out.old out.new (printed text.now) }
{
    for byte in &text[..text.len().min(64)] {
        out.push(&[printed_byte(*byte)])?;
    }
    Ok(())
}

/// Adds the name of a strategy, or where it is empty the number of the strategy, counted from 1.
pub fn push_strategy(name: &[u8], number: u32, out: &mut Text) -> Result<(), NoMemory>
    requires { number < most_pays }
    ensures { Adds result out.old out.new (strategy_name name.now number) }
{
    if name.is_empty() {
        write_number(number + 1, out)
    } else {
        push_printed(name, out)
    }
}
