//! The program `spiel`: the words of its command line over real files and streams.
#![tactic(auto)]

use spiel_cli::run;
use spiel_frac::NoMemory;
use spiel_io::{HostShelf, HostSink, send};
use std::env;
use std::io::ErrorKind;
use std::process::ExitCode;

/// The words behind the program's name. Where one isn't UTF-8 there are none, which is no command.
fn read_words(rt: &HostRuntime) -> Result<Vec<String>, NoMemory> {
    match env::args(rt) {
        Ok(args) => Ok(args.skip(1).collect::<Vec<String>>(rt.alloc())?),
        Err(error) if error.kind() == ErrorKind::OutOfMemory => Err(NoMemory),
        Err(_) => Ok(Vec::new(rt.alloc())),
    }
}

fn main(rt: HostRuntime) -> ExitCode {
    let mut err = HostSink::message(&rt);
    let Ok(words) = read_words(&rt) else {
        let _ = send(&mut err, b"spiel: no memory\n");
        return ExitCode::from(8);
    };
    let mut shelf = HostShelf::new(&rt);
    let mut out = HostSink::output(&rt);
    ExitCode::from(run(rt.alloc(), words.as_slice(), &mut shelf, &mut out, &mut err))
}
