//! Writes what was answered, and gives the exit status.
ghost use Rattle.std.specs.Prelude.{◌≡◌};
ghost use Rattle.spiel_cli.specs.Run.{IsSaid, IsWritten, IsWrittenText, Says};

use crate::refusal::{Refusal, status};
use spiel_frac::Text;
use spiel_io::{Sink, send};
use std::alloc::Global;

/// Writes a message, and answers the status: a fault of the messages changes no status.
fn say<E: Sink>(err: &mut E, message: &[u8], status: u8) -> u8
    ensures status { result ≡ status }
    ensures says { Says message.now (E.state err.old) (E.state err.new) }
{
    let _ = send(err, message);
    status
}

/// Writes the text of a command that was done, and answers the exit status.
fn write_text<O: Sink, E: Sink>(text: &Text, out: &mut O, err: &mut E) -> u8
    ensures { IsWrittenText text.now result (O.state out.old) (O.state out.new) (E.state err.old) (E.state err.new) }
{
    if send(out, text.bytes()).is_err() {
        return say(err, b"spiel: write fault\n", 7);
    }
    0
}

/// Says why a command isn't done, and answers the exit status.
fn say_refusal<E: Sink>(alloc: Global, refusal: &Refusal, err: &mut E) -> u8
    ensures { IsSaid refusal.now result (E.state err.old) (E.state err.new) }
{
    match format!(in alloc; "spiel: {refusal}\n") {
        Ok(message) => say(err, message.as_bytes(), status(refusal)),
        Err(_) => say(err, b"spiel: no memory\n", 8),
    }
}

/// Writes an answer, and gives the exit status.
pub fn write_answer<O: Sink, E: Sink>(
    alloc: Global,
    answer: Result<Text, Refusal>,
    out: &mut O,
    err: &mut E,
) -> u8
    ensures { IsWritten answer result (O.state out.old) (O.state out.new) (E.state err.old) (E.state err.new) }
{
    match answer {
        Ok(text) => write_text(&text, out, err),
        Err(refusal) => say_refusal(alloc, &refusal, err),
    }
}
