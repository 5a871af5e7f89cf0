//! Slots, in which the leaves are summed by a player's last own step.
ghost use Rattle.std.specs.Prelude.{◌≡◌, ◌<◌, length, IfOk};
ghost use Rattle.spiel_tree.specs.Flat.{row_at};
ghost use Rattle.spiel_tree.specs.Subtrees.{child_at};
ghost use Rattle.spiel_response.specs.SlotTable.{AreSlotStarts, own_slot};

use crate::factors::{is_left_out, mover_state};
use crate::weighed::WeighedTree;
use spiel_frac::{List, NoMemory};
use std::alloc::Global;

/// Where the slots of each information state begin, and last how many slots there are. There is a
/// slot for each player, and behind them one for each number of each information state.
pub(crate) fn slot_starts(alloc: Global, weighed: &WeighedTree) -> Result<List<usize>, NoMemory>
    ensures { IfOk result (AreSlotStarts weighed.now) }
{
    let tree = weighed.tree;
    let mut starts = List::new(alloc);
    let mut next = tree.players() as usize;
    starts.push(next)?;
    for state in 0..tree.states() {
        next += tree.action_count(state) as usize;
        starts.push(next)?;
    }
    Ok(starts)
}

/// The slot of a player's last own step on the way to what is behind a history by the number at an
/// index.
pub(crate) fn slot_below(
    weighed: &WeighedTree,
    starts: &[usize],
    player: u32,
    above: usize,
    row: u32,
    index: u32,
) -> usize
    requires player { player < weighed.now.tree.players }
    requires starts { AreSlotStarts weighed.now starts.now }
    requires within { row < length weighed.now.tree.rows }
    requires index { index < length (row_at weighed.now.tree.rows row).here.numbers }
    requires above { above ≡ own_slot weighed.now player (row_at weighed.now.tree.rows row) }
    ensures { result ≡ own_slot weighed.now player (row_at weighed.now.tree.rows (child_at weighed.now.tree.rows row index)) }
{
    let tree = weighed.tree;
    if !is_left_out(tree, Some(player), row) {
        return above;
    }
    starts[mover_state(tree, row, player) as usize] + index as usize
}
