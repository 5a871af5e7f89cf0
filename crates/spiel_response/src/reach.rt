//! Reach weights, passed on from a history to those that go on from it.
ghost use Rattle.std.specs.Prelude.{◌≡◌, ◌<◌, ◌≤◌, length, Some, None};
ghost use Rattle.spiel_frac.specs.Fraction.{most};
ghost use Rattle.spiel_tree.specs.Flat.{row_at};
ghost use Rattle.spiel_tree.specs.Subtrees.{child_at};
ghost use Rattle.spiel_response.specs.Reach.{reach, scale_of, total_of, weight_by};
ghost use Rattle.spiel_response.specs.Weighed.{IsJudgeable, share_of};

use crate::factors::is_left_out;
use crate::weighed::WeighedTree;

/// The reach weight of a history over the total of the weights there, or all of it where whoever moves
/// there is left out.
pub(crate) fn share(
    weighed: &WeighedTree,
    left: Option<u32>,
    reached: u128,
    total: u128,
    row: u32,
) -> u128
    requires within { row < length weighed.now.tree.rows }
    requires reached { reached ≡ reach weighed.now.tree.rows weighed.now.profile left (row_at weighed.now.tree.rows row) }
    requires total { total ≡ total_of weighed.now.tree.rows weighed.now.profile (row_at weighed.now.tree.rows row).here }
    ensures { result ≡ share_of weighed.now left (row_at weighed.now.tree.rows row) }
{
    if is_left_out(weighed.tree, left, row) {
        return reached;
    }
    reached / total
}

/// The same where this player is left out: at the player's own histories no total is needed.
pub(crate) fn certain_share(weighed: &WeighedTree, player: u32, reached: u128, row: u32) -> u128
    requires within { row < length weighed.now.tree.rows }
    requires reached { reached ≡ reach weighed.now.tree.rows weighed.now.profile (Some player) (row_at weighed.now.tree.rows row) }
    ensures { result ≡ share_of weighed.now (Some player) (row_at weighed.now.tree.rows row) }
{
    if is_left_out(weighed.tree, Some(player), row) {
        return reached;
    }
    share(weighed, Some(player), reached, weighed.total(row), row)
}

/// The reach weight of what is behind a history by the number at an index.
pub(crate) fn reach_below(
    weighed: &WeighedTree,
    left: Option<u32>,
    share: u128,
    weight: u128,
    row: u32,
    index: u32,
) -> u128
    requires within { row < length weighed.now.tree.rows }
    requires index { index < length (row_at weighed.now.tree.rows row).here.numbers }
    requires small { scale_of weighed.now.tree.rows weighed.now.profile ≤ most }
    requires share { share ≡ share_of weighed.now left (row_at weighed.now.tree.rows row) }
    requires weight { weight ≡ weight_by weighed.now.tree.rows weighed.now.profile (row_at weighed.now.tree.rows row).here index (row_at weighed.now.tree.rows row).here.place }
    ensures { result ≡ reach weighed.now.tree.rows weighed.now.profile left (row_at weighed.now.tree.rows (child_at weighed.now.tree.rows row index)) }
{
    if is_left_out(weighed.tree, left, row) {
        return share;
    }
    share * weight
}
