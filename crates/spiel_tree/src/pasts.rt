//! Whether a player made the same own choices on the ways to two rows.
ghost use Rattle.std.specs.Prelude.{◌≡◌, ◌<◌, length};
ghost use Rattle.spiel_tree.specs.Flat.{IsBuilt, StepsWithin, moves, row_at, rows_of};
ghost use Rattle.spiel_tree.specs.Faults.{own_past, same_past};
ghost use Rattle.spiel_tree.specs.Pasts.{IsLastOwn};

use crate::flat::Rows;
use crate::history::{flat_at, numbers_at};
use spiel_api::Place;

/// A choice of a player on a way: the row where it was made, the number of what the player saw among
/// that player's texts, and the number taken.
#[derive(Clone, Copy)]
pub(crate) struct Own {
    pub row: u32,
    pub text: u32,
    pub number: u32,
}

/// Whether it is this player who moves at a place.
fn is_move(place: Place, player: u32) -> bool
    ensures { result ≡ moves player place }
{
    match place {
        Place::Move(mover) => player == mover,
        _ => false,
    }
}

/// The last own choice of a player on the way to a row.
fn last_own(rows: &Rows, player: u32, row: u32) -> Option<Own>
    requires built { IsBuilt rows.now }
    requires steps { StepsWithin (rows_of rows.now) }
    requires row { row < length (rows_of rows.now) }
    ensures { IsLastOwn player rows.now row result }
{
    let here = flat_at(rows, row);
    match here.parent {
        None => None,
        Some(parent) => {
            let above = flat_at(rows, parent);
            if is_move(above.place, player) {
                Some(Own {
                    row: parent,
                    text: above.text,
                    number: numbers_at(rows, parent)[here.step as usize],
                })
            } else {
                last_own(rows, player, parent)
            }
        }
    }
}

/// Whether a player's own choices on the way to two rows are the same. It goes up from both rows
/// until they meet or differ, and takes no memory.
pub(crate) fn same_past(rows: &Rows, player: u32, first: u32, second: u32) -> bool
    requires built { IsBuilt rows.now }
    requires steps { StepsWithin (rows_of rows.now) }
    requires first { first < length (rows_of rows.now) }
    requires second { second < length (rows_of rows.now) }
    ensures { result ≡ same_past (own_past player (row_at (rows_of rows.now) first).way) (own_past player (row_at (rows_of rows.now) second).way) }
{
    if first == second {
        return true;
    }
    match (
        last_own(rows, player, first),
        last_own(rows, player, second),
    ) {
        (None, None) => true,
        (Some(a), Some(b)) => {
            if a.text != b.text {
                return false;
            }
            if a.number != b.number {
                return false;
            }
            same_past(rows, player, a.row, b.row)
        }
        (None, Some(_)) => false,
        (Some(_), None) => false,
    }
}
