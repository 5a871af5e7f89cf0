//! The numbers that lead to a row.
ghost use Rattle.std.specs.Prelude.{◌≡◌, ◌<◌, ◌^◌, ◌++◌, length, slice_index_or, IfOk, OnOk};
ghost use Rattle.spiel_tree.specs.Flat.{IsBuilt, row_at, rows_of, StepsWithin};
ghost use Rattle.spiel_tree.specs.Rows.{history_of};

use crate::flat::{FlatRow, Rows};
use spiel_frac::{List, NoMemory};
use std::alloc::Global;

/// A flat row.
#[tactic(auto, using(crate::proofs::Growing::rows_length))]
pub(crate) fn flat_at(rows: &Rows, row: u32) -> FlatRow
    requires built { IsBuilt rows.now }
    requires row { row < length (rows_of rows.now) }
    ensures { result ≡ slice_index_or rows.now.flat row result }
{
    rows.flat.items()[row as usize]
}

/// The numbers that are legal at a row.
#[tactic(auto, using(crate::proofs::Growing::rows_length, crate::proofs::WayHistory::numbers_there))]
pub(crate) fn numbers_at(rows: &Rows, row: u32) -> &[u32]
    requires built { IsBuilt rows.now }
    requires row { row < length (rows_of rows.now) }
    ensures { result.now ≡ (row_at (rows_of rows.now) row).here.numbers }
{
    rows.numbers.at(row as usize)
}

/// Adds the numbers that lead to a row, first those that lead to its parent.
fn add_history(rows: &Rows, row: u32, out: &mut List<u32>) -> Result<(), NoMemory>
    requires built { IsBuilt rows.now }
    requires steps { StepsWithin (rows_of rows.now) }
    requires row { row < length (rows_of rows.now) }
    ensures { OnOk result (out.new ≡ out.old ++ history_of (row_at (rows_of rows.now) row)) }
{
    let flat = flat_at(rows, row);
    if let Some(parent) = flat.parent {
        add_history(rows, parent, out)?;
        out.push(numbers_at(rows, parent)[flat.step as usize])?;
    }
    Ok(())
}

/// The numbers that lead to a row.
pub(crate) fn history_of(alloc: Global, rows: &Rows, row: u32) -> Result<List<u32>, NoMemory>
    requires built { IsBuilt rows.now }
    requires steps { StepsWithin (rows_of rows.now) }
    requires row { row < length (rows_of rows.now) }
    ensures { IfOk result (λ numbers. numbers ≡ history_of (row_at (rows_of rows.now) row)) }
{
    let mut numbers = List::new(alloc);
    add_history(rows, row, &mut numbers)?;
    Ok(numbers)
}
