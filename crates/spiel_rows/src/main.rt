//! The program `spiel_rows`: runs the rows of files, and tells which differ. docs/rows.md has the form
//! of a row.
#![tactic(auto)]

ghost use Rattle.std.specs.Prelude.{◌≤◌};

mod bytes;
mod comparing;
mod difference;
mod draft;
mod fault;
mod marks;
mod paragraphs;
mod reading;
mod row;
mod running;
mod tally;
mod words;

use crate::paragraphs::run_rows;
use crate::tally::{Stop, Tally};
use spiel_frac::{NoMemory, Text};
use spiel_io::{HostShelf, HostSink, Shelf, Sink, Slot, fetch, send};
use std::alloc::Global;
use std::env;
use std::io::ErrorKind;
use std::process::ExitCode;

/// The most bytes of a file of rows.
const LIMIT: usize = 1 << 26;

/// The words behind the program's name. Where one isn't UTF-8 there are none.
fn read_words(rt: &HostRuntime) -> Result<Vec<String>, NoMemory> {
    match env::args(rt) {
        Ok(args) => Ok(args.skip(1).collect::<Vec<String>>(rt.alloc())?),
        Err(error) if error.kind() == ErrorKind::OutOfMemory => Err(NoMemory),
        Err(_) => Ok(Vec::new(rt.alloc())),
    }
}

/// Runs the rows of a file, and writes what is told of them.
fn run_file<F: Shelf, O: Sink>(
    alloc: Global,
    name: &[u8],
    shelf: &mut F,
    out: &mut O,
    tally: &mut Tally,
) -> Result<(), Stop>
    ensures { tally.old.others ≤ tally.new.others }
{
    let text = fetch(alloc, shelf, Slot::Main, name, LIMIT)?;
    run_rows(alloc, name, text.bytes(), out, tally)
}

/// Runs the rows of all files, and writes at last how many agree.
fn run_files<F: Shelf, O: Sink>(
    alloc: Global,
    names: &[String],
    shelf: &mut F,
    out: &mut O,
    tally: &mut Tally,
) -> Result<(), Stop>
    ensures { tally.old.others ≤ tally.new.others }
{
    for name in names {
        run_file(alloc, name.as_bytes(), shelf, out, tally)?;
    }
    let mut last = Text::new(alloc);
    tally.push_text(alloc, &mut last)?;
    send(out, last.bytes())?;
    Ok(())
}

fn main(rt: HostRuntime) -> ExitCode {
    let mut err = HostSink::message(&rt);
    let Ok(names) = read_words(&rt) else {
        let _ = send(&mut err, Stop::NoMemory.message());
        return ExitCode::from(Stop::NoMemory.status());
    };
    let mut shelf = HostShelf::new(&rt);
    let mut out = HostSink::output(&rt);
    let mut tally = Tally::new();
    let names = names.as_slice();
    match run_files(rt.alloc(), names, &mut shelf, &mut out, &mut tally) {
        Ok(()) => ExitCode::from(tally.status()),
        Err(stop) => {
            let _ = send(&mut err, stop.message());
            ExitCode::from(stop.status())
        }
    }
}
