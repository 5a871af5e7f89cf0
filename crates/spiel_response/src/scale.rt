//! The common denominator of all leaves of a tree with a policy.
ghost use Rattle.std.specs.Prelude.{◌≡◌, ◌*◌, ◌+◌, ◌<◌, ◌≤◌, length, None, IfErr, IfNone, IfOk, IfSome, OnSome};
ghost use Rattle.spiel_frac.specs.Fraction.{most};
ghost use Rattle.spiel_tree.specs.Flat.{row_at};
ghost use Rattle.spiel_tree.specs.Subtrees.{end_of};
ghost use Rattle.spiel_response.specs.Faults.{OverflowsOnlyIf};
ghost use Rattle.spiel_response.specs.Reach.{scale_of, total_of, totals_to};
ghost use Rattle.spiel_response.specs.Weighed.{IsJudgeable, scale_before};

use crate::fault::JudgeFault;
use crate::weighed::WeighedTree;
use spiel_api::Place;
use spiel_frac::lcm;

/// The greatest number that is counted with, 2^127 - 1.
pub(crate) const MOST: u128 = 0x7fff_ffff_ffff_ffff_ffff_ffff_ffff_ffff;

/// The product, or none where it passes 2^127 - 1.
fn times(a: u128, b: u128) -> Option<u128>
    ensures some { IfSome result (λ n. (n ≡ a * b) × (n ≤ most)) }
    ensures none { IfNone result (most < a * b) }
{
    match a.checked_mul(b) {
        Some(n) if n <= MOST => Some(n),
        _ => None,
    }
}

/// The product of the totals on the way to what is one number behind a history.
fn product_below(weighed: &WeighedTree, product: u128, row: u32) -> Option<u128>
    requires judgeable { IsJudgeable weighed.now }
    requires within { row < length weighed.now.tree.rows }
    requires goes_on { 0 < length (row_at weighed.now.tree.rows row).here.numbers }
    requires product { product ≡ totals_to weighed.now.tree.rows weighed.now.profile None (row_at weighed.now.tree.rows row) }
    ensures some { IfSome result (λ n. n ≡ totals_to weighed.now.tree.rows weighed.now.profile None (row_at weighed.now.tree.rows row) * total_of weighed.now.tree.rows weighed.now.profile (row_at weighed.now.tree.rows row).here) }
    ensures none { IfNone result (most < scale_of weighed.now.tree.rows weighed.now.profile) }
{
    times(product, weighed.total(row))
}

/// The scale of the histories before the next one, from that of the histories before this one.
fn scale_with(weighed: &WeighedTree, scale: u128, product: u128, row: u32) -> Option<u128>
    requires within { row < length weighed.now.tree.rows }
    requires product { product ≡ totals_to weighed.now.tree.rows weighed.now.profile None (row_at weighed.now.tree.rows row) }
    requires before { scale ≡ scale_before weighed.now row }
    requires small { scale ≤ most }
    ensures some { IfSome result (λ n. (n ≡ scale_before weighed.now (row + 1)) × (n ≤ most)) }
    ensures none { IfNone result (most < scale_before weighed.now (row + 1)) }
{
    let tree = weighed.tree;
    match tree.row_place(row) {
        Place::End => lcm(scale, product),
        _ => Some(scale),
    }
}

/// Goes from the scale of the histories before one to that of all before the first that doesn't go on
/// from it, and answers where that one stands. The product of the totals on the way is given.
fn scale_from(weighed: &WeighedTree, product: u128, row: u32, scale: &mut u128) -> Option<u32>
    requires within { row < length weighed.now.tree.rows }
    requires product { product ≡ totals_to weighed.now.tree.rows weighed.now.profile None (row_at weighed.now.tree.rows row) }
    requires before { scale.old ≡ scale_before weighed.now row }
    requires small { scale.old ≤ most }
    ensures next { IfSome result (λ next. next ≡ end_of weighed.now.tree.rows row) }
    ensures scale { OnSome result (scale.new ≡ scale_before weighed.now (end_of weighed.now.tree.rows row)) }
    ensures small { OnSome result (scale.new ≤ most) }
    ensures none { IfNone result (most < scale_of weighed.now.tree.rows weighed.now.profile) }
{
    let tree = weighed.tree;
    *scale = scale_with(weighed, *scale, product, row)?;
    let count = tree.row_count(row);
    let mut next = row + 1;
    if count == 0 {
        return Some(next);
    }
    let below = product_below(weighed, product, row)?;
    for index in 0..count {
        next = scale_from(weighed, below, next, scale)?;
    }
    Some(next)
}

/// The scale of a tree with a policy.
pub(crate) fn scale(weighed: &WeighedTree) -> Result<u128, JudgeFault>
    requires { IsJudgeable weighed.now }
    ensures ok { IfOk result (λ n. (n ≡ scale_of weighed.now.tree.rows weighed.now.profile) × (n ≤ most)) }
    ensures fault { IfErr result (OverflowsOnlyIf (most < scale_of weighed.now.tree.rows weighed.now.profile)) }
{
    let mut scale = 1;
    match scale_from(weighed, 1, 0, &mut scale) {
        Some(_) => Ok(scale),
        None => Err(JudgeFault::Overflow),
    }
}
