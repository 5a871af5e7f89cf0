//! Tables of empty places.
ghost use Rattle.std.specs.Prelude.{◌≡◌, None, IfOk, replicate};

use spiel_frac::NoMemory;
use std::alloc::Global;

/// A table with so many empty places.
pub(crate) fn empty_table<T: Drop>(alloc: Global, count: u32) -> Result<Vec<Option<T>>, NoMemory>
    ensures { IfOk result (λ table. table.items ≡ replicate count None) }
{
    let mut table = Vec::new(alloc);
    for _ in 0..count {
        table.push(None)?;
    }
    Ok(table)
}
