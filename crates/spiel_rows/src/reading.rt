//! Reading a row from its lines.

use crate::draft::Draft;
use crate::fault::Unread;
use crate::row::Row;
use spiel_frac::cut;
use std::alloc::Global;

/// Adds the lines to a row. `at` is the line that is read.
fn add_lines(alloc: Global, text: &[u8], draft: &mut Draft, at: &mut u32) -> Result<(), Unread> {
    let mut rest = text;
    while let Some((line, behind)) = cut(rest, b'\n') {
        draft.add(alloc, line)?;
        *at = at.saturating_add(1);
        rest = behind;
    }
    draft.add(alloc, rest)
}

/// Reads a row whose lines begin with this number. `at` is the line that was read last.
pub fn read_row(alloc: Global, text: &[u8], first: u32, at: &mut u32) -> Result<Row, Unread> {
    let mut draft = Draft::new(alloc, first);
    *at = first;
    add_lines(alloc, text, &mut draft, at)?;
    draft.finish(alloc)
}
