//! The public calls that judge a policy: values, best responses, NashConv, constant sums.
ghost use Rattle.std.specs.Prelude.{◌≡◌, ◌≢◌, ℕ, length, slice_index, Contains, ◌*◌, ◌<◌, ◌≤◌, map, pos, false, true, None, IfErr, IfNone, IfOk, IfSome, ◌-ℤ◌, ◌*ℤ◌, ◌<ℤ◌, ◌≤ℤ◌, nat_abs};
ghost use Rattle.spiel_frac.specs.Fraction.{most};
ghost use Rattle.spiel_frac.specs.Multiples.{IsLeastMultiple};
ghost use Rattle.spiel_policy.specs.Profiles.{Fits};
ghost use Rattle.spiel_tree.specs.States.{numbers_of, state_at, states_below};
ghost use Rattle.spiel_response.specs.Answered.{is_made};
ghost use Rattle.spiel_response.specs.Faults.{OverflowsOnlyIf};
ghost use Rattle.spiel_response.specs.Reach.{leaves, scale_of, totals_to};
ghost use Rattle.spiel_response.specs.BestResponses.{IsBest, IsOnlyResponse, IsResponse, best_value, has_constant_sum, nash_conv_of, response};
ghost use Rattle.spiel_response.specs.Values.{NumbersFit, denominator_of, size_for, value_of};

use crate::constant_sums::has_constant_sum;
use crate::fault::JudgeFault;
use crate::gathering::gather;
use crate::responses::{Responses, no_responses};
use crate::scale::{MOST, scale};
use crate::sums::values;
use crate::table::SlotTable;
use crate::weighed::WeighedTree;
use spiel_frac::List;
use spiel_policy::Policy;
use spiel_tree::Tree;
use std::alloc::Global;
use std::marker::Model;

/// A tree and a policy for it, prepared to be judged. All numbers that the calls on it need fit into
/// 127 bits, and no call takes memory.
#[derive(Drop)]
pub struct Work<'a> {
    table: SlotTable<'a>,
    total: i128,
    values: List<i128>,
    responses: Responses,
}

impl<'a> Model for Work<'a> {
    ghost use Rattle.spiel_response.specs.Answered.{IsSolving, Solving};

    ghost Value = { Solving };

    ghost view = { λ w. record { judged = w.table; made = w.responses.made.items } };

    ghost invariant = { λ w. IsSolving (record { judged = w.table; made = w.responses.made.items }) w.total w.values w.responses.earned.items w.responses.answers.items w.responses.sums.items };
}

/// The scale in parts of 1/unit, or none where twice that passes 2^127 - 1.
fn denominator(scale: u128, unit: i64) -> Option<i128>
    requires { pos 1 ≤ℤ unit }
    ensures some { IfSome result (λ total. (total ≡ pos scale *ℤ unit) × (2 * nat_abs total ≤ most)) }
    ensures none { IfNone result (most < 2 * nat_abs (pos scale *ℤ unit)) }
{
    let total = scale.checked_mul(u128::from(unit.unsigned_abs()))?;
    if total > MOST / 2 {
        return None;
    }
    Some(total as i128)
}

/// Prepares a tree to be judged, with a policy that was made for it: the one call that takes memory.
///
/// `Overflow` comes exactly where twice the denominator of the values passes 2^127 - 1, or where the
/// sizes of all parts together do: a leaf's part in what a player gets on average, and its part where
/// the player's own steps are certain, for each leaf and each player.
pub fn prepare<'a>(
    alloc: Global,
    tree: &'a Tree,
    policy: &'a Policy,
) -> Result<Work<'a>, JudgeFault>
    requires { Fits tree.now policy.now }
    ensures judged { IfOk result (λ work. work.judged ≡ record { tree = tree.now; profile = policy.now }) }
    ensures none_made { IfOk result (λ work. (p : ℕ) → is_made work p ≡ false) }
    ensures fits { IfOk result (λ work. NumbersFit work.judged) }
    ensures fault { IfErr result (OverflowsOnlyIf (NumbersFit (record { tree = tree.now; profile = policy.now }) → ⊥)) }
{
    let states = tree.states() as usize;
    let weighed = WeighedTree::new(tree, policy);
    let scale = scale(&weighed)?;
    let Some(total) = denominator(scale, tree.unit()) else {
        return Err(JudgeFault::Overflow);
    };
    let values = values(alloc, &weighed, scale)?;
    let gathered = gather(alloc, &weighed, scale)?;
    let responses = no_responses(alloc, tree.players() as usize, states, gathered.sums.len())?;
    Ok(Work {
        table: SlotTable {
            tree,
            policy,
            gathered,
        },
        total,
        values,
        responses,
    })
}

impl<'a> Work<'a> {
    /// The denominator of all values, above 0: the least common multiple, over all leaves, of the
    /// products of the totals on their ways, in parts of 1/unit.
    pub fn total(&self) -> i128
        ensures total { result ≡ denominator_of self.now.judged }
        ensures positive { pos 0 <ℤ result }
        ensures least { IsLeastMultiple (map (totals_to self.now.judged.tree.rows self.now.judged.profile None) (leaves self.now.judged.tree.rows)) (scale_of self.now.judged.tree.rows self.now.judged.profile) }
        ensures fits { NumbersFit self.now.judged }
    {
        self.total
    }
}

/// What a player gets on average if all play by the policy: this number over `Work::total`.
pub fn value(work: &Work, player: u32) -> i128
    requires { player < work.now.judged.tree.players }
    ensures value { result ≡ value_of work.now.judged player }
    ensures small { nat_abs result ≤ most }
{
    work.values.items()[player as usize]
}

/// Makes the best response of a player to what the policy has the others do, and answers what the
/// player gets by it: this number over `Work::total`. No policy of the player whose probabilities are
/// fractions gets more. At each information state the response takes the first of the numbers that are
/// best given what it does later. The responses of other players stay.
pub fn respond(work: &mut Work, player: u32) -> i128
    requires { player < work.old.judged.tree.players }
    ensures judged { work.new.judged ≡ work.old.judged }
    ensures made { is_made work.new player ≡ true }
    ensures others { (p : ℕ) → p ≢ player → is_made work.new p ≡ is_made work.old p }
    ensures rule { IsResponse work.old.judged player (response work.old.judged player) }
    ensures only { IsOnlyResponse work.old.judged player }
    ensures best { IsBest work.old.judged player (response work.old.judged player) }
    ensures earned { result ≡ best_value work.old.judged player }
    ensures small { nat_abs result ≤ most }
{
    work.responses.make(&work.table, player)
}

/// The number that the response takes at an information state of a player whose response is made.
pub fn answer_at(work: &Work, state: u32) -> u32
    requires state { state < length (states_below work.now.judged.tree.players work.now.judged.tree.rows) }
    requires made { is_made work.now (state_at work.now.judged.tree.players work.now.judged.tree.rows state).player ≡ true }
    ensures answer { result ≡ slice_index (numbers_of work.now.judged.tree.players work.now.judged.tree.rows state) (response work.now.judged (state_at work.now.judged.tree.players work.now.judged.tree.rows state).player state) }
    ensures legal { Contains (numbers_of work.now.judged.tree.players work.now.judged.tree.rows state) result }
{
    let tree = work.table.tree();
    tree.action_at(state, work.responses.answers[state as usize])
}

/// What a player gains by the best response.
fn gain(work: &Work, player: u32) -> i128
    requires player { player < work.now.judged.tree.players }
    requires made { is_made work.now player ≡ true }
    ensures gain { result ≡ best_value work.now.judged player -ℤ value_of work.now.judged player }
    ensures size { nat_abs result ≤ size_for work.now.judged player }
{
    work.responses.earned[player as usize] - value(work, player)
}

/// How far the policy is from an equilibrium: what the players gain in all, if each deviates alone to the
/// best response. This number over `Work::total` is NashConv (Lanctot et al. 2017).
pub fn nash_conv(work: &Work) -> i128
    requires { (p : ℕ) → p < work.now.judged.tree.players → is_made work.now p ≡ true }
    ensures gains { result ≡ nash_conv_of work.now.judged }
    ensures none_below { pos 0 ≤ℤ result }
    ensures small { nat_abs result ≤ most }
{
    let tree = work.table.tree();
    let mut gains = 0;
    for player in 0..tree.players() {
        gains += gain(work, player);
    }
    gains
}

/// Whether there are two players, and their returns sum to one number over all leaves.
pub fn constant_sum(work: &Work) -> bool
    ensures { result ≡ has_constant_sum work.now.judged.tree }
{
    has_constant_sum(work.table.tree())
}
