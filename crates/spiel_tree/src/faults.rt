//! What is wrong with the rows of a game, and the first row that shows it.
ghost use Rattle.std.specs.Prelude.{◌≡◌, ◌<◌, ◌^◌, length};
ghost use Rattle.spiel_tree.specs.Flat.{IsBuilt, StepsWithin, row_at, rows_of};
ghost use Rattle.spiel_tree.specs.States.{AreFirsts, AreStarts};
ghost use Rattle.spiel_tree.specs.Faults.{against, fault_at, IsFirstFault};

use crate::flat::Rows;
use crate::history::{flat_at, numbers_at};
use crate::pasts::same_past;
use spiel_api::Place;

/// What is wrong with rows, by their places.
#[derive(Clone, Copy)]
pub(crate) enum Fault {
    /// Players move at once.
    Simultaneous {
        row: u32,
    },
    /// Two rows of one information state have different own pasts.
    Recall {
        player: u32,
        first: u32,
        second: u32,
    },
    /// Two rows of one information state have different legal numbers.
    Actions {
        player: u32,
        first: u32,
        second: u32,
    },
}

/// A row against the first row of its information state: first the mover's own choices on the two
/// ways, then the numbers.
fn against_first(rows: &Rows, player: u32, first: u32, row: u32) -> Option<Fault>
    requires built { IsBuilt rows.now }
    requires steps { StepsWithin (rows_of rows.now) }
    requires first { first < length (rows_of rows.now) }
    requires row { row < length (rows_of rows.now) }
    ensures { result ≡ against (row_at (rows_of rows.now) first) (row_at (rows_of rows.now) row) player first row }
{
    if !same_past(rows, player, first, row) {
        return Some(Fault::Recall {
            player,
            first,
            second: row,
        });
    }
    if numbers_at(rows, first) == numbers_at(rows, row) {
        None
    } else {
        Some(Fault::Actions {
            player,
            first,
            second: row,
        })
    }
}

/// What is wrong at a row.
fn fault_at_row(rows: &Rows, starts: &[u32], firsts: &[u32], row: u32) -> Option<Fault>
    requires built { IsBuilt rows.now }
    requires steps { StepsWithin (rows_of rows.now) }
    requires row { row < length (rows_of rows.now) }
    requires starts { AreStarts (length rows.now.texts.items) (rows_of rows.now) starts.now }
    requires firsts { AreFirsts (length rows.now.texts.items) (rows_of rows.now) firsts.now }
    ensures { result ≡ fault_at (rows_of rows.now) row }
{
    let flat = flat_at(rows, row);
    match flat.place {
        Place::Move(player) => {
            let state = starts[player as usize] as usize + flat.text as usize;
            against_first(rows, player, firsts[state], row)
        }
        Place::Joint(0) => Some(Fault::Simultaneous { row }),
        _ => None,
    }
}

/// The first fault, if there is one.
pub(crate) fn first_fault(rows: &Rows, starts: &[u32], firsts: &[u32]) -> Option<Fault>
    requires built { IsBuilt rows.now }
    requires steps { StepsWithin (rows_of rows.now) }
    requires fits { length (rows_of rows.now) < 2 ^ 32 }
    requires starts { AreStarts (length rows.now.texts.items) (rows_of rows.now) starts.now }
    requires firsts { AreFirsts (length rows.now.texts.items) (rows_of rows.now) firsts.now }
    ensures { IsFirstFault (rows_of rows.now) result }
{
    for row in 0..rows.count() {
        if let Some(fault) = fault_at_row(rows, starts, firsts, row) {
            return Some(fault);
        }
    }
    None
}
