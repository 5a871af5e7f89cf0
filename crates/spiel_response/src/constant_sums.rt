//! Whether the returns of two players sum to one number at all leaves.
ghost use Rattle.std.specs.Prelude.{◌≡◌, ◌<◌, ◌≤◌, ℕ, length, true, false, [], ◌∷◌};
ghost use Rattle.spiel_api.specs.declared.place.Place.TheVariants.{End};
ghost use Rattle.spiel_tree.specs.Flat.{row_at};
ghost use Rattle.spiel_response.specs.BestResponses.{all_sum_to, has_constant_sum, sum_at};
ghost use Rattle.spiel_response.specs.Reach.{is_end, leaves};

use spiel_api::Place;
use spiel_tree::Tree;

/// What the returns of two players sum to at the end.
fn sum_of_returns(tree: &Tree, row: u32) -> i128
    requires two { tree.now.players ≡ 2 }
    requires within { row < length tree.now.rows }
    requires over { (row_at tree.now.rows row).here.place ≡ End }
    ensures { result ≡ sum_at (row_at tree.now.rows row) }
{
    i128::from(tree.row_pay(row, 0)) + i128::from(tree.row_pay(row, 1))
}

/// Whether the game is over at a history.
fn is_leaf(tree: &Tree, row: u32) -> bool
    requires { row < length tree.now.rows }
    ensures { result ≡ is_end (row_at tree.now.rows row).here.place }
{
    match tree.row_place(row) {
        Place::End => true,
        _ => false,
    }
}

/// The first history at which the game is over.
fn first_leaf(tree: &Tree) -> u32
    ensures within { result < length tree.now.rows }
    ensures over { (row_at tree.now.rows result).here.place ≡ End }
    ensures first { (k : ℕ) → k < result → is_end (row_at tree.now.rows k).here.place ≡ false }
{
    for row in 0..tree.histories() {
        if is_leaf(tree, row) {
            return row;
        }
    }
    0
}

/// Whether a history isn't over, or the returns of two players sum to this there.
fn sums_to(tree: &Tree, row: u32, total: i128) -> bool
    requires two { tree.now.players ≡ 2 }
    requires within { row < length tree.now.rows }
    ensures { result ≡ all_sum_to total (leaves (row_at tree.now.rows row ∷ [])) }
{
    match tree.row_place(row) {
        Place::End => sum_of_returns(tree, row) == total,
        _ => true,
    }
}

/// Whether there are two players, and their returns sum to one number over all leaves.
pub(crate) fn has_constant_sum(tree: &Tree) -> bool
    ensures { result ≡ has_constant_sum tree.now }
{
    if tree.players() != 2 {
        return false;
    }
    let total = sum_of_returns(tree, first_leaf(tree));
    for row in 0..tree.histories() {
        if !sums_to(tree, row, total) {
            return false;
        }
    }
    true
}
