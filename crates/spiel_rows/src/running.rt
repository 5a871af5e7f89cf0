//! Runs of a row: one, or one with each call failing in turn.
ghost use Rattle.std.specs.Prelude.{◌≡◌, ◌↔◌, ◌*◌, ◌<◌, [], take, IsTrue, IfOk};
ghost use Rattle.spiel_rows.specs.Comparing.{Agrees, count_of};
ghost use Rattle.spiel_rows.specs.Runs.{IsOwn, faults_of};
ghost use Rattle.spiel_rows.specs.declared.row.Device.TheVariants.{Shelf, Sink};
ghost use Rattle.spiel_rows.specs.declared.row.Stream.TheVariants.{Output, Message};

use crate::comparing::{Wanted, agrees};
use crate::difference::{push_call, push_difference};
use crate::row::{Case, Count, Device, Files, Script, SinkScript, Stream, Wants};
use spiel_cli::run;
use spiel_frac::{List, NoMemory, Text};
use spiel_io::{MemShelf, MemSink, Slot};
use std::alloc::Global;

/// The room of a sink where no line says it.
const ROOM: usize = 1 << 20;

/// The most runs in which a call fails in turn.
const MOST_RUNS: u32 = 10_000;

/// A call that fails.
#[derive(Clone, Copy)]
struct Call {
    /// Whose call it is.
    device: Device,
    /// Its number, from 0.
    number: u32,
}

/// What came of a run.
#[derive(Drop)]
pub struct Outcome {
    /// The exit status.
    pub status: u8,
    /// The files, as they were left.
    pub shelf: MemShelf,
    /// What was written to standard output.
    pub out: MemSink,
    /// What was said on standard error.
    pub err: MemSink,
}

impl Outcome {
    /// What was counted.
    pub fn count(&self, count: Count) -> u64
        ensures { result ≡ count_of self.now count }
    {
        match count {
            Count::ShelfFaults => self.shelf.faults(),
            Count::OutputFaults => self.out.faults(),
            Count::MessageFaults => self.err.faults(),
            Count::MainBegins => self.shelf.begins(Slot::Main),
            Count::SideBegins => self.shelf.begins(Slot::Side),
            Count::MainLeft => self.shelf.left(Slot::Main) as u64,
            Count::SideLeft => self.shelf.left(Slot::Side) as u64,
        }
    }

    /// Whether no call of the device failed.
    fn is_quiet(&self, device: Device) -> bool
        ensures { IsTrue result ↔ (count_of self.now (faults_of device) ≡ 0) }
    {
        self.count(faults_of(device)) == 0
    }
}

/// The count of failed calls.
fn faults_of(device: Device) -> Count
    ensures { result ≡ faults_of device }
{
    match device {
        Device::Shelf => Count::ShelfFaults,
        Device::Sink(Stream::Output) => Count::OutputFaults,
        Device::Sink(Stream::Message) => Count::MessageFaults,
    }
}

/// The calls of the device that fail.
fn failing_calls(
    alloc: Global,
    listed: &Option<List<u32>>,
    device: Device,
    call: Option<Call>,
) -> Result<List<u32>, NoMemory> {
    let mut calls = List::new(alloc);
    if let Some(listed) = listed {
        calls.extend(listed.items())?;
    }
    if let Some(call) = call
        && call.device == device
    {
        calls.push(call.number)?;
    }
    Ok(calls)
}

/// The most bytes that a call of the sink takes.
fn most_of(script: &SinkScript) -> usize
    ensures { 0 < result }
{
    match script.most {
        Some(most) => most.get(),
        None => usize::MAX,
    }
}

/// A sink of this script.
fn sink(
    alloc: Global,
    script: &SinkScript,
    stream: Stream,
    call: Option<Call>,
) -> Result<MemSink, NoMemory> {
    let failing = failing_calls(alloc, &script.failing, Device::Sink(stream), call)?;
    let room = match script.room {
        Some(room) => room as usize,
        None => ROOM,
    };
    MemSink::new(alloc, most_of(script), room, failing)
}

/// Runs the words of a row over these files. The call fails besides those that the row lists.
fn play(
    alloc: Global,
    words: &[String],
    script: &Script,
    files: Files,
    call: Option<Call>,
) -> Result<Outcome, NoMemory> {
    let failing = failing_calls(alloc, &script.shelf, Device::Shelf, call)?;
    let mut shelf = MemShelf::new(files, failing);
    let mut out = sink(alloc, &script.out, Stream::Output, call)?;
    let mut err = sink(alloc, &script.err, Stream::Message, call)?;
    let status = run(alloc, words, &mut shelf, &mut out, &mut err);
    Ok(Outcome {
        status,
        shelf,
        out,
        err,
    })
}

/// The same files.
fn copy_files(alloc: Global, files: &Files) -> Result<Files, NoMemory> {
    let mut copies = List::new(alloc);
    for file in files.items() {
        let mut name = Text::new(alloc);
        name.push(file.0.bytes())?;
        let mut bytes = Text::new(alloc);
        bytes.push(file.1.bytes())?;
        copies.push((name, bytes))?;
    }
    Ok(copies)
}

/// What calls that take at most so many bytes take of these before the one with this number.
fn taken_before(bytes: &[u8], most: usize, call: u32) -> &[u8]
    ensures { result.now ≡ take (call * most) bytes.now }
{
    let taken = (call as usize).saturating_mul(most);
    &bytes[..taken.min(bytes.len())]
}

/// What the row itself wants.
fn wanted(wants: &Wants) -> Wanted<'_>
    ensures { IsOwn wants.now result }
{
    Wanted {
        status: wants.status,
        out: wants.out.bytes(),
        err: wants.err.bytes(),
        counts: wants.counts.items(),
    }
}

/// What has to come of a run in which a call failed.
fn wanted_of_failed(case: &Case, call: Call) -> Wanted<'_>
    ensures shelf { call.device ≡ Shelf → (result.status ≡ 3) × (result.out.now ≡ []) }
    ensures output { call.device ≡ Sink Output → result.status ≡ 7 }
    ensures message { call.device ≡ Sink Message → (result.status ≡ case.now.wants.status) × (result.out.now ≡ case.now.wants.out) }
{
    let wants = &case.wants;
    match call.device {
        Device::Shelf => Wanted {
            status: 3,
            out: b"",
            err: b"spiel: read fault\n",
            counts: &[(Count::ShelfFaults, 1)],
        },
        Device::Sink(Stream::Output) => Wanted {
            status: 7,
            out: taken_before(wants.out.bytes(), most_of(&case.script.out), call.number),
            err: b"spiel: write fault\n",
            counts: &[(Count::OutputFaults, 1)],
        },
        Device::Sink(Stream::Message) => Wanted {
            status: wants.status,
            out: wants.out.bytes(),
            err: taken_before(wants.err.bytes(), most_of(&case.script.err), call.number),
            counts: &[(Count::MessageFaults, 1)],
        },
    }
}

/// What has to come of a run in which this call was to fail: where none did, what the row wants.
fn wanted_of<'a>(case: &'a Case, call: Call, outcome: &Outcome) -> Wanted<'a>
    ensures last { count_of outcome.now (faults_of call.device) ≡ 0 → IsOwn case.now.wants result }
{
    if outcome.is_quiet(call.device) {
        return wanted(&case.wants);
    }
    wanted_of_failed(case, call)
}

/// Whether all that is wanted came of the run. What differs is added to the report.
fn judge(
    alloc: Global,
    wanted: &Wanted<'_>,
    outcome: &Outcome,
    report: &mut Text,
) -> Result<bool, NoMemory>
    ensures { IfOk result (λ agreed. IsTrue agreed ↔ Agrees wanted.now outcome.now) }
{
    if agrees(wanted, outcome) {
        return Ok(true);
    }
    push_difference(alloc, wanted, outcome, report)?;
    Ok(false)
}

/// How a run went in which a call was to fail.
enum Turn {
    /// It failed, and what had to come came.
    Failed,
    /// There is no such call, and what the row wants came.
    Last,
    /// Something else came.
    Differs,
}

/// How this run went, in which a call was to fail. What differs is added to the report.
fn turn_of(
    alloc: Global,
    case: &Case,
    call: Call,
    outcome: &Outcome,
    report: &mut Text,
) -> Result<Turn, NoMemory> {
    let wanted = wanted_of(case, call, outcome);
    if !agrees(&wanted, outcome) {
        push_call(alloc, call.number, report)?;
        push_difference(alloc, &wanted, outcome, report)?;
        return Ok(Turn::Differs);
    }
    if outcome.is_quiet(call.device) {
        return Ok(Turn::Last);
    }
    Ok(Turn::Failed)
}

/// Runs a row with a call that fails. What differs is added to the report.
fn run_turn(
    alloc: Global,
    case: &Case,
    files: Files,
    call: Call,
    report: &mut Text,
) -> Result<Turn, NoMemory> {
    let outcome = play(
        alloc,
        case.words.as_slice(),
        &case.script,
        files,
        Some(call),
    )?;
    turn_of(alloc, case, call, &outcome, report)
}

/// Runs a row once with each call of the device failing, up to the run in which none fails. What
/// differs is added to the report.
fn run_each(
    alloc: Global,
    case: &Case,
    files: &Files,
    device: Device,
    report: &mut Text,
) -> Result<bool, NoMemory> {
    for number in 0..MOST_RUNS {
        let call = Call { device, number };
        match run_turn(alloc, case, copy_files(alloc, files)?, call, report)? {
            Turn::Failed => {}
            Turn::Last => return Ok(true),
            Turn::Differs => return Ok(false),
        }
    }
    report.push(b"in each run a call failed\n")?;
    Ok(false)
}

/// Runs a row without a call that fails in turn, and answers whether it agrees. What differs is added
/// to the report.
fn run_once(alloc: Global, case: &Case, files: Files, report: &mut Text) -> Result<bool, NoMemory> {
    let outcome = play(alloc, case.words.as_slice(), &case.script, files, None)?;
    judge(alloc, &wanted(&case.wants), &outcome, report)
}

/// Runs a row, and answers whether it agrees. What differs is added to the report.
pub fn run_row(
    alloc: Global,
    case: &Case,
    files: Files,
    report: &mut Text,
) -> Result<bool, NoMemory> {
    match case.script.each {
        Some(device) => run_each(alloc, case, &files, device, report),
        None => run_once(alloc, case, files, report),
    }
}
