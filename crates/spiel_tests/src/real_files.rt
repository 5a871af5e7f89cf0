//! Real files, of which no contract tells the bytes, in both slots of a shelf, and real streams.
ghost use Rattle.std.specs.Prelude.{◌≡◌};
ghost use Rattle.spiel_io.specs.Outside.{other};

use spiel_frac::{NoMemory, Text};
use spiel_io::{Failed, FetchFault, HostShelf, HostSink, Shelf, Slot, fetch, send};
use std::alloc::Global;
use std::fs;
use std::test::Fail;

/// The bytes of the file `long`, and of `words`.
fn content(alloc: Global, name: &str) -> Result<Text, NoMemory> {
    let mut text = Text::new(alloc);
    if name == "long" {
        for i in 0..10_000u32 {
            text.push(&[b'a' + (i % 23) as u8])?;
        }
    } else {
        text.push(b"one two")?;
    }
    Ok(text)
}

/// Whether all bytes of the name are fetched in the slot, or this fault comes.
fn is_fetched<F: Shelf>(
    alloc: Global,
    shelf: &mut F,
    slot: Slot,
    name: &str,
    limit: usize,
    fault: Option<FetchFault>,
) -> Result<bool, NoMemory>
    ensures { (F.state shelf.new).reading (other slot) ≡ (F.state shelf.old).reading (other slot) }
{
    match fetch(alloc, shelf, slot, name.as_bytes(), limit) {
        Ok(text) => {
            let wanted = content(alloc, name)?;
            Ok(fault.is_none() && text.bytes() == wanted.bytes())
        }
        Err(got) => Ok(fault == Some(got)),
    }
}

/// Whether a file is read on in the main slot after another one was fetched in the side slot.
fn is_read_apart<F: Shelf>(alloc: Global, shelf: &mut F) -> Result<bool, Fail> {
    let mut buf = [0u8; 3];
    shelf.begin(Slot::Main, b"words")?;
    let first = shelf.next(Slot::Main, &mut buf)?;
    let is_first = first == 3 && buf == *b"one";
    let is_other = is_fetched(alloc, shelf, Slot::Side, "long", 10_000, None)?;
    let second = shelf.next(Slot::Main, &mut buf)?;
    Ok(is_first && is_other && second == 3 && buf == *b" tw")
}

#[test]
fn files_are_read_in_both_slots(rt: HostRuntime) -> Result<(), Fail> {
    fs::write(&rt, "words", b"one two")?;
    fs::write(&rt, "long", content(rt.alloc(), "long")?.bytes())?;
    let rows = [
        (Slot::Side, "words", 7, None),
        (Slot::Side, "words", 6, Some(FetchFault::TooLong)),
        (Slot::Main, "long", 10_000, None),
        (Slot::Main, "absent", 7, Some(FetchFault::Read)),
        (Slot::Side, ".", 7, Some(FetchFault::Read)),
    ];
    let mut shelf = HostShelf::new(&rt);
    assert!(rt; is_read_apart(rt.alloc(), &mut shelf)?);
    for (slot, name, limit, fault) in rows {
        assert!(rt;
            is_fetched(rt.alloc(), &mut shelf, slot, name, limit, fault)?,
            "{name}"
        );
    }
    assert_eq!(rt; shelf.begin(Slot::Main, b"\xff"), Err(Failed));
    send(&mut HostSink::output(&rt), b"one two\n")?;
    send(&mut HostSink::message(&rt), b"one two\n")?;
    Ok(())
}
