//! The weight of a step in the tree, of chance or of a player, and the total of the weights there.
ghost use Rattle.std.specs.Prelude.{◌≡◌, ◌<◌, length, sum, Some};
ghost use Rattle.spiel_api.specs.declared.place.Place.TheVariants.{Chance, Move};
ghost use Rattle.spiel_tree.specs.Flat.{row_at};
ghost use Rattle.spiel_tree.specs.States.{numbers_of, state_number, states_below};
ghost use Rattle.spiel_tree.specs.Trees.{IsGameTree};
ghost use Rattle.spiel_response.specs.Reach.{is_left_out, total_of, weight_by};
ghost use Rattle.spiel_response.specs.Weighed.{IsJudgeable};

use spiel_api::Place;
use spiel_policy::Policy;
use spiel_tree::Tree;

/// The sum of what chance weighs at a history.
fn chance_total(tree: &Tree, row: u32) -> u128
    requires game { IsGameTree tree.now }
    requires within { row < length tree.now.rows }
    requires chance { (row_at tree.now.rows row).here.place ≡ Chance }
    ensures { result ≡ sum (row_at tree.now.rows row).here.weights }
{
    let mut total: u128 = 0;
    for index in 0..tree.row_count(row) {
        total += u128::from(tree.row_weight(row, index));
    }
    total
}

/// The information state of a history at which somebody moves.
pub(crate) fn mover_state(tree: &Tree, row: u32, player: u32) -> u32
    requires within { row < length tree.now.rows }
    requires moves { (row_at tree.now.rows row).here.place ≡ Move player }
    ensures state { result ≡ state_number tree.now.rows player (row_at tree.now.rows row).here.info }
    ensures within { result < length (states_below tree.now.players tree.now.rows) }
    ensures same_numbers { numbers_of tree.now.players tree.now.rows result ≡ (row_at tree.now.rows row).here.numbers }
{
    tree.row_state(row).unwrap()
}

/// What the weights of all numbers at a history sum to.
pub(crate) fn total_at(tree: &Tree, policy: &Policy, row: u32) -> u128
    requires judgeable { IsJudgeable (record { tree = tree.now; profile = policy.now }) }
    requires within { row < length tree.now.rows }
    ensures { result ≡ total_of tree.now.rows policy.now (row_at tree.now.rows row).here }
{
    match tree.row_place(row) {
        Place::End | Place::Joint(_) => 1,
        Place::Chance => chance_total(tree, row),
        Place::Move(player) => policy.total(mover_state(tree, row, player)),
    }
}

/// The weight of one of the numbers at a history.
pub(crate) fn weight_at(tree: &Tree, policy: &Policy, row: u32, index: u32) -> u128
    requires judgeable { IsJudgeable (record { tree = tree.now; profile = policy.now }) }
    requires within { row < length tree.now.rows }
    requires index { index < length (row_at tree.now.rows row).here.numbers }
    ensures { result ≡ weight_by tree.now.rows policy.now (row_at tree.now.rows row).here index (row_at tree.now.rows row).here.place }
{
    match tree.row_place(row) {
        Place::End | Place::Joint(_) => 1,
        Place::Chance => u128::from(tree.row_weight(row, index)),
        Place::Move(player) => policy.weight(mover_state(tree, row, player), index),
    }
}

/// Whether whoever moves at a history is the player who is left out.
pub(crate) fn is_left_out(tree: &Tree, left: Option<u32>, row: u32) -> bool
    requires { row < length tree.now.rows }
    ensures { result ≡ is_left_out left (row_at tree.now.rows row).here.place }
{
    match (left, tree.row_place(row)) {
        (Some(player), Place::Move(mover)) => player == mover,
        _ => false,
    }
}
