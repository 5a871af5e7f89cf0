//! Each leaf of a tree, added to the slot of a player's last own step before it.
ghost use Rattle.std.specs.Prelude.{◌≡◌, ◌+◌, ◌<◌, ◌≤◌, length, slice_index_or, slice_set, pos, Some, ◌+ℤ◌, nat_abs};
ghost use Rattle.spiel_frac.specs.Fraction.{most};
ghost use Rattle.spiel_tree.specs.Flat.{row_at};
ghost use Rattle.spiel_tree.specs.Subtrees.{end_of};
ghost use Rattle.spiel_response.specs.Reach.{reach, scale_of};
ghost use Rattle.spiel_response.specs.Values.{size_below, size_for};
ghost use Rattle.spiel_response.specs.Weighed.{IsJudgeable};
ghost use Rattle.spiel_response.specs.SlotTable.{AreCollected, AreCollectedBefore, AreParentSlots, AreParentSlotsBefore, AreSlotStarts, own_slot, slot_count};

use crate::factors::{is_left_out, mover_state, weight_at};
use crate::reach::{certain_share, reach_below};
use crate::slots::slot_below;
use crate::sums::part;
use crate::weighed::WeighedTree;
use spiel_api::Place;

/// Adds to the sum in a slot.
fn add_at(sums: &mut [i128], slot: usize, part: i128)
    requires slot { slot < length sums.old }
    requires fits { nat_abs (slice_index_or sums.old slot (pos 0) +ℤ part) ≤ most }
    ensures { sums.new ≡ slice_set sums.old slot (slice_index_or sums.old slot (pos 0) +ℤ part) }
{
    sums[slot] += part;
}

/// Adds a leaf's part to the sum in the slot of the player's last own step.
fn add_leaf(
    weighed: &WeighedTree,
    counterfactual: u128,
    slot: usize,
    player: u32,
    row: u32,
    sums: &mut [i128],
)
    requires player { player < weighed.now.tree.players }
    requires within { row < length weighed.now.tree.rows }
    requires counterfactual { counterfactual ≡ reach weighed.now.tree.rows weighed.now.profile (Some player) (row_at weighed.now.tree.rows row) }
    requires slot { slot ≡ own_slot weighed.now player (row_at weighed.now.tree.rows row) }
    requires small { size_below weighed.now player + size_for weighed.now player ≤ most }
    requires count { length sums.old ≡ slot_count weighed.now }
    requires before { AreCollectedBefore weighed.now player row sums.old }
    ensures { AreCollectedBefore weighed.now player (row + 1) sums.new }
{
    let tree = weighed.tree;
    if let Place::End = tree.row_place(row) {
        add_at(
            sums,
            slot,
            part(counterfactual, tree.row_pay(row, player)).unwrap(),
        );
    }
}

/// Notes the slot before the information state of a history, if the player moves there.
fn note_parent(weighed: &WeighedTree, slot: usize, player: u32, row: u32, parents: &mut [usize])
    requires player { player < weighed.now.tree.players }
    requires within { row < length weighed.now.tree.rows }
    requires slot { slot ≡ own_slot weighed.now player (row_at weighed.now.tree.rows row) }
    requires before { AreParentSlotsBefore weighed.now player row parents.old }
    ensures { AreParentSlotsBefore weighed.now player (row + 1) parents.new }
{
    let tree = weighed.tree;
    if is_left_out(tree, Some(player), row) {
        parents[mover_state(tree, row, player) as usize] = slot;
    }
}

/// Adds the part of each leaf that goes on from a history to the sum in the slot of the player's last
/// own step, and notes the slot before each information state of the player there, which is the same at
/// all histories of the state, since the player remembers the own choices. Answers where the first
/// history stands that doesn't go on from this one.
fn collect_from(
    weighed: &WeighedTree,
    starts: &[usize],
    counterfactual: u128,
    slot: usize,
    player: u32,
    row: u32,
    sums: &mut [i128],
    parents: &mut [usize],
) -> u32
    requires player { player < weighed.now.tree.players }
    requires within { row < length weighed.now.tree.rows }
    requires starts { AreSlotStarts weighed.now starts.now }
    requires scale { scale_of weighed.now.tree.rows weighed.now.profile ≤ most }
    requires counterfactual { counterfactual ≡ reach weighed.now.tree.rows weighed.now.profile (Some player) (row_at weighed.now.tree.rows row) }
    requires slot { slot ≡ own_slot weighed.now player (row_at weighed.now.tree.rows row) }
    requires small { size_below weighed.now player + size_for weighed.now player ≤ most }
    requires count { length sums.old ≡ slot_count weighed.now }
    requires sums { AreCollectedBefore weighed.now player row sums.old }
    requires parents { AreParentSlotsBefore weighed.now player row parents.old }
    ensures next { result ≡ end_of weighed.now.tree.rows row }
    ensures sums { AreCollectedBefore weighed.now player (end_of weighed.now.tree.rows row) sums.new }
    ensures parents { AreParentSlotsBefore weighed.now player (end_of weighed.now.tree.rows row) parents.new }
{
    let tree = weighed.tree;
    add_leaf(weighed, counterfactual, slot, player, row, sums);
    note_parent(weighed, slot, player, row, parents);
    let count = tree.row_count(row);
    let mut next = row + 1;
    if count == 0 {
        return next;
    }
    let certain = certain_share(weighed, player, counterfactual, row);
    for index in 0..count {
        let weight = weight_at(tree, weighed.policy, row, index);
        next = collect_from(
            weighed,
            starts,
            reach_below(weighed, Some(player), certain, weight, row, index),
            slot_below(weighed, starts, player, slot, row, index),
            player,
            next,
            sums,
            parents,
        );
    }
    next
}

/// Adds the parts of all leaves to the sums in the slots of a player's last own steps, and notes the slot
/// before each information state of the player.
pub(crate) fn collect(
    weighed: &WeighedTree,
    starts: &[usize],
    scale: u128,
    player: u32,
    sums: &mut [i128],
    parents: &mut [usize],
)
    requires judgeable { IsJudgeable weighed.now }
    requires player { player < weighed.now.tree.players }
    requires starts { AreSlotStarts weighed.now starts.now }
    requires scale { scale ≡ scale_of weighed.now.tree.rows weighed.now.profile }
    requires fits { scale ≤ most }
    requires small { size_below weighed.now player + size_for weighed.now player ≤ most }
    requires sums { AreCollected weighed.now player sums.old }
    requires parents { AreParentSlots weighed.now player parents.old }
    ensures sums { AreCollected weighed.now (player + 1) sums.new }
    ensures parents { AreParentSlots weighed.now (player + 1) parents.new }
{
    collect_from(
        weighed,
        starts,
        scale,
        player as usize,
        player,
        0,
        sums,
        parents,
    );
}
