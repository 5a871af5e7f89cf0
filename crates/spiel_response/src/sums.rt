//! What each player gets on average: the sums over all leaves, if they fit into 127 bits.
ghost use Rattle.std.specs.Prelude.{◌≡◌, ◌+◌, ◌<◌, ◌≤◌, length, pos, Some, None, IfErr, IfNone, IfOk, IfSome, OnSome, ◌+ℤ◌, ◌*ℤ◌, nat_abs};
ghost use Rattle.spiel_frac.specs.Fraction.{most};
ghost use Rattle.spiel_tree.specs.Flat.{row_at};
ghost use Rattle.spiel_tree.specs.Subtrees.{end_of};
ghost use Rattle.spiel_response.specs.Faults.{OverflowsOnlyIf};
ghost use Rattle.spiel_response.specs.Reach.{reach, scale_of};
ghost use Rattle.spiel_response.specs.Values.{size_below, size_for, values_below};
ghost use Rattle.spiel_response.specs.Weighed.{IsJudgeable, size_before};
ghost use Rattle.spiel_response.specs.Summed.{AreSums, ArePlayerSums};

use crate::factors::weight_at;
use crate::fault::JudgeFault;
use crate::reach::{reach_below, share};
use crate::scale::MOST;
use crate::weighed::WeighedTree;
use spiel_api::Place;
use spiel_frac::List;
use std::alloc::Global;

/// The sums over the leaves so far.
#[derive(Clone, Copy, Debug, PartialEq, Eq)]
struct Sums {
    /// What a player gets on average.
    value: i128,
    /// The sizes of all that was summed, for all players.
    size: u128,
}

/// A reach weight times a return, or none where its size passes 2^127 - 1.
pub(crate) fn part(reached: u128, pay: i64) -> Option<i128>
    ensures some { IfSome result (λ x. (x ≡ pos reached *ℤ pay) × (nat_abs x ≤ most)) }
    ensures none { IfNone result (most < nat_abs (pos reached *ℤ pay)) }
{
    let size = reached.checked_mul(u128::from(pay.unsigned_abs()))?;
    if size > MOST {
        return None;
    }
    let size = size as i128;
    Some(if pay < 0 { -size } else { size })
}

/// A size with that of a part, or none where it passes 2^127 - 1.
fn grown(size: u128, part: i128) -> Option<u128>
    ensures some { IfSome result (λ n. (n ≡ size + nat_abs part) × (n ≤ most)) }
    ensures none { IfNone result (most < size + nat_abs part) }
{
    match size.checked_add(part.unsigned_abs()) {
        Some(n) if n <= MOST => Some(n),
        _ => None,
    }
}

/// The sums with one leaf more, or none where the size passes 2^127 - 1.
fn with_leaf(sums: Sums, reached: u128, counterfactual: u128, pay: i64) -> Option<Sums>
    requires value { nat_abs sums.value ≤ sums.size }
    requires size { sums.size ≤ most }
    ensures value { IfSome result (λ next. next.value ≡ sums.value +ℤ (pos reached *ℤ pay)) }
    ensures size { IfSome result (λ next. next.size ≡ sums.size + (nat_abs (pos reached *ℤ pay) + nat_abs (pos counterfactual *ℤ pay))) }
    ensures within { IfSome result (λ next. (nat_abs next.value ≤ next.size) × (next.size ≤ most)) }
    ensures none { IfNone result (most < sums.size + (nat_abs (pos reached *ℤ pay) + nat_abs (pos counterfactual *ℤ pay))) }
{
    let expected = part(reached, pay)?;
    let counterfactual = part(counterfactual, pay)?;
    let size = grown(grown(sums.size, expected)?, counterfactual)?;
    Some(Sums {
        value: sums.value + expected,
        size,
    })
}

/// The sums with one history more.
fn with_row(
    weighed: &WeighedTree,
    sums: Sums,
    reached: u128,
    counterfactual: u128,
    player: u32,
    row: u32,
    size: u128,
) -> Option<Sums>
    requires player { player < weighed.now.tree.players }
    requires within { row < length weighed.now.tree.rows }
    requires reached { reached ≡ reach weighed.now.tree.rows weighed.now.profile None (row_at weighed.now.tree.rows row) }
    requires counterfactual { counterfactual ≡ reach weighed.now.tree.rows weighed.now.profile (Some player) (row_at weighed.now.tree.rows row) }
    requires sums { AreSums weighed.now player row size sums }
    ensures some { IfSome result (AreSums weighed.now player (row + 1) size) }
    ensures none { IfNone result (most < size + size_before weighed.now player (row + 1)) }
{
    let tree = weighed.tree;
    match tree.row_place(row) {
        Place::End => with_leaf(sums, reached, counterfactual, tree.row_pay(row, player)),
        _ => Some(sums),
    }
}

/// Goes from the sums over the leaves before a history to those over all before the first that doesn't
/// go on from it, and answers where that one stands. The reach weights of the history are given.
fn sums_from(
    weighed: &WeighedTree,
    reached: u128,
    counterfactual: u128,
    player: u32,
    row: u32,
    size: u128,
    sums: &mut Sums,
) -> Option<u32>
    requires player { player < weighed.now.tree.players }
    requires within { row < length weighed.now.tree.rows }
    requires small { scale_of weighed.now.tree.rows weighed.now.profile ≤ most }
    requires reached { reached ≡ reach weighed.now.tree.rows weighed.now.profile None (row_at weighed.now.tree.rows row) }
    requires counterfactual { counterfactual ≡ reach weighed.now.tree.rows weighed.now.profile (Some player) (row_at weighed.now.tree.rows row) }
    requires sums { AreSums weighed.now player row size sums.old }
    ensures next { IfSome result (λ next. next ≡ end_of weighed.now.tree.rows row) }
    ensures sums { OnSome result (AreSums weighed.now player (end_of weighed.now.tree.rows row) size sums.new) }
    ensures none { IfNone result (most < size + size_for weighed.now player) }
{
    let tree = weighed.tree;
    *sums = with_row(weighed, *sums, reached, counterfactual, player, row, size)?;
    let count = tree.row_count(row);
    let mut next = row + 1;
    if count == 0 {
        return Some(next);
    }
    let total = weighed.total(row);
    let expected = share(weighed, None, reached, total, row);
    let certain = share(weighed, Some(player), counterfactual, total, row);
    for index in 0..count {
        let weight = weight_at(tree, weighed.policy, row, index);
        next = sums_from(
            weighed,
            reach_below(weighed, None, expected, weight, row, index),
            reach_below(weighed, Some(player), certain, weight, row, index),
            player,
            next,
            size,
            sums,
        )?;
    }
    Some(next)
}

/// The sums of a player over all leaves, with the size of what was summed before.
fn player_sums(weighed: &WeighedTree, scale: u128, player: u32, size: u128) -> Option<Sums>
    requires judgeable { IsJudgeable weighed.now }
    requires player { player < weighed.now.tree.players }
    requires size { size ≤ most }
    requires scale { scale ≡ scale_of weighed.now.tree.rows weighed.now.profile }
    requires small { scale ≤ most }
    ensures some { IfSome result (ArePlayerSums weighed.now player size) }
    ensures none { IfNone result (most < size + size_for weighed.now player) }
{
    let mut sums = Sums { value: 0, size };
    sums_from(weighed, scale, scale, player, 0, size, &mut sums)?;
    Some(sums)
}

/// What each player gets on average.
pub(crate) fn values(
    alloc: Global,
    weighed: &WeighedTree,
    scale: u128,
) -> Result<List<i128>, JudgeFault>
    requires scale { scale ≡ scale_of weighed.now.tree.rows weighed.now.profile }
    requires small { scale ≤ most }
    ensures values { IfOk result (λ values. values ≡ values_below weighed.now weighed.now.tree.players) }
    ensures sizes { IfOk result (λ values. size_below weighed.now weighed.now.tree.players ≤ most) }
    ensures fault { IfErr result (OverflowsOnlyIf (most < size_below weighed.now weighed.now.tree.players)) }
{
    let tree = weighed.tree;
    let mut values = List::new(alloc);
    let mut size = 0;
    for player in 0..tree.players() {
        let Some(sums) = player_sums(weighed, scale, player, size) else {
            return Err(JudgeFault::Overflow);
        };
        values.push(sums.value)?;
        size = sums.size;
    }
    Ok(values)
}
