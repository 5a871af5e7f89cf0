//! The best response of one player, made from the last information state to the first.
ghost use Rattle.std.specs.Prelude.{◌≡◌, ◌≢◌, ℕ, ◌+◌, ◌<◌, ◌≤◌, length, pos, slice_index, slice_index_or, slice_set, ◌+ℤ◌, nat_abs};
ghost use Rattle.spiel_frac.specs.Fraction.{most};
ghost use Rattle.spiel_tree.specs.States.{states_below};
ghost use Rattle.spiel_response.specs.Answered.{AreAnswers, HasRoom, IsPassed, OthersStay};
ghost use Rattle.spiel_response.specs.BestResponses.{best_value, first_state};
ghost use Rattle.spiel_response.specs.Greatest.{IsBestSoFar};
ghost use Rattle.spiel_response.specs.Values.{NumbersFit};
ghost use Rattle.spiel_response.specs.Weighed.{IsJudgeable};
ghost use Rattle.spiel_response.specs.SlotTable.{AreCollected};

use crate::table::SlotTable;
use spiel_tree::Tree;

/// The place of the first of the greatest sums.
fn first_greatest(sums: &[i128]) -> usize
    requires { 0 < length sums.now }
    ensures { IsBestSoFar (λ a. slice_index_or sums.now a (pos 0)) (length sums.now) result (slice_index_or sums.now result (pos 0)) }
{
    let mut best = 0;
    for at in 1..sums.len() {
        if sums[at] > sums[best] {
            best = at;
        }
    }
    best
}

/// Adds the first of the greatest sums of an information state to the sum in its parent's slot, and
/// answers its place.
fn take_greatest(sums: &mut [i128], start: usize, count: usize, parent: usize) -> usize
    requires count { 0 < count }
    requires range { start + count ≤ length sums.old }
    requires parent { parent < start }
    requires fits { (a : ℕ) → a < count → nat_abs (slice_index_or sums.old parent (pos 0) +ℤ slice_index_or sums.old (start + a) (pos 0)) ≤ most }
    ensures greatest { IsBestSoFar (λ a. slice_index_or sums.old (start + a) (pos 0)) count result (slice_index_or sums.old (start + result) (pos 0)) }
    ensures sums { sums.new ≡ slice_set sums.old parent (slice_index_or sums.old parent (pos 0) +ℤ slice_index_or sums.old (start + result) (pos 0)) }
{
    let best = first_greatest(&sums[start..start + count]);
    sums[parent] += sums[start + best];
    best
}

/// Answers one information state of a player, when those behind it are answered.
fn pass_state(table: &SlotTable, player: u32, state: u32, sums: &mut [i128], answers: &mut [u32])
    requires player { player < table.now.tree.players }
    requires from { first_state table.now player ≤ state }
    requires to { state < first_state table.now (player + 1) }
    requires room { HasRoom table.now sums.old answers.old }
    requires judgeable { IsJudgeable table.now }
    requires fit { NumbersFit table.now }
    requires later { IsPassed table.now player (state + 1) sums.old answers.old }
    ensures here { IsPassed table.now player state sums.new answers.new }
    ensures others { (i : ℕ) → i ≢ state → slice_index answers.new i ≡ slice_index answers.old i }
{
    let best = take_greatest(
        sums,
        table.start(state),
        table.count(state) as usize,
        table.parent(state, player),
    );
    answers[state as usize] = best as u32;
}

/// Makes the response of the player whose information states are these, and answers what it earns.
pub(crate) fn pass_back(
    table: &SlotTable,
    player: u32,
    low: u32,
    high: u32,
    sums: &mut [i128],
    answers: &mut [u32],
) -> i128
    requires player { player < table.now.tree.players }
    requires low { low ≡ first_state table.now player }
    requires high { high ≡ first_state table.now (player + 1) }
    requires room { HasRoom table.now sums.old answers.old }
    requires judgeable { IsJudgeable table.now }
    requires fit { NumbersFit table.now }
    requires sums { AreCollected table.now table.now.tree.players sums.old }
    ensures answers { AreAnswers table.now player answers.new }
    ensures others { OthersStay table.now player answers.old answers.new }
    ensures earned { result ≡ best_value table.now player }
{
    for state in (low..high).rev() {
        pass_state(table, player, state, sums, answers);
    }
    sums[player as usize]
}

/// The first information state of a player, or of those behind, if there is one; else how many there are.
pub(crate) fn player_start(tree: &Tree, player: u32) -> u32
    requires { player ≤ tree.now.players }
    ensures { result ≡ length (states_below player tree.now.rows) }
{
    let states = tree.states();
    for state in 0..states {
        if tree.state_player(state) >= player {
            return state;
        }
    }
    states
}

/// Makes the response of a player, and answers what it earns.
pub(crate) fn make_response(
    table: &SlotTable,
    player: u32,
    sums: &mut [i128],
    answers: &mut [u32],
) -> i128
    requires player { player < table.now.tree.players }
    requires room { HasRoom table.now sums.old answers.old }
    ensures answers { AreAnswers table.now player answers.new }
    ensures others { OthersStay table.now player answers.old answers.new }
    ensures earned { result ≡ best_value table.now player }
{
    let tree = table.tree;
    let low = player_start(tree, player);
    let high = player_start(tree, player + 1);
    table.copy_sums(sums);
    pass_back(table, player, low, high, sums, answers)
}
