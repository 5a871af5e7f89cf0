//! Values, best responses, what they get, NashConv and constant sums, beside numbers that were worked by hand.
ghost use Rattle.std.specs.Prelude.{◌≡◌, ◌<◌, ◌≤◌, ℕ, true, IfSome};
ghost use Rattle.spiel_policy.specs.Profiles.{Fits};
ghost use Rattle.spiel_response.specs.Answered.{is_made};

use super::games::{self, Row, Want};
use super::overflow;
use super::policies::{policy_for, tree_of};
use spiel_policy::Policy;
use spiel_response::{
    JudgeFault, Work, answer_at, constant_sum, nash_conv, prepare, respond, value,
};
use spiel_tree::Tree;
use std::alloc::Global;

/// Makes the response of the next player, when those before are made.
fn next(work: &mut Work, player: u32) -> i128
    requires { player < work.old.judged.tree.players }
    ensures judged { work.new.judged ≡ work.old.judged }
    ensures made { (p : ℕ) → p ≤ player → (p < player → is_made work.old p ≡ true) → is_made work.new p ≡ true }
{
    respond(work, player)
}

/// Makes the responses of so many players, and answers what each gets.
fn responses(alloc: Global, work: &mut Work, players: u32) -> Option<Vec<i128>>
    requires { players ≡ work.old.judged.tree.players }
    ensures judged { work.new.judged ≡ work.old.judged }
    ensures made { IfSome result (λ bests. (p : ℕ) → p < players → is_made work.new p ≡ true) }
{
    let mut bests = Vec::new(alloc);
    for player in 0..players {
        bests.push(next(work, player)).ok()?;
    }
    Some(bests)
}

/// Whether the players get these values.
fn has_values(tree: &Tree, work: &Work, values: &[i128]) -> bool
    requires { work.now.judged.tree ≡ tree.now }
{
    if tree.players() as usize != values.len() {
        return false;
    }
    for player in 0..tree.players() {
        if value(work, player) != values[player as usize] {
            return false;
        }
    }
    true
}

/// Whether the responses take these numbers.
fn has_answers(tree: &Tree, work: &Work, answers: &[u32]) -> bool
    requires judged { work.now.judged.tree ≡ tree.now }
    requires made { (p : ℕ) → p < tree.now.players → is_made work.now p ≡ true }
{
    if tree.states() as usize != answers.len() {
        return false;
    }
    for state in 0..tree.states() {
        if tree.state_player(state) >= tree.players()
            || answer_at(work, state) != answers[state as usize]
        {
            return false;
        }
    }
    true
}

/// Whether this comes of a policy, when the responses are made.
fn has_judgement(tree: &Tree, work: &Work, want: &Want) -> bool
    requires judged { work.now.judged.tree ≡ tree.now }
    requires made { (p : ℕ) → p < tree.now.players → is_made work.now p ≡ true }
{
    work.total() == want.total
        && has_values(tree, work, want.values)
        && has_answers(tree, work, want.answers)
        && nash_conv(work) == want.nash_conv
        && constant_sum(work) == want.constant_sum
}

/// Whether this comes of a policy, when its values are made.
fn is_judged(alloc: Global, tree: &Tree, work: &mut Work, want: &Want) -> bool
    requires { work.old.judged.tree ≡ tree.now }
{
    match responses(alloc, work, tree.players()) {
        Some(bests) => bests.as_slice() == want.bests && has_judgement(tree, work, want),
        None => false,
    }
}

/// Whether a policy comes to this.
fn comes_to(alloc: Global, tree: &Tree, policy: &Policy, want: &Option<Want>) -> bool
    requires { Fits tree.now policy.now }
{
    match prepare(alloc, tree, policy) {
        Ok(mut work) => match want {
            Some(want) => is_judged(alloc, tree, &mut work, want),
            None => false,
        },
        Err(JudgeFault::Overflow) => want.is_none(),
        Err(JudgeFault::NoMemory) => false,
    }
}

fn is_row(alloc: Global, row: &Row) -> bool {
    let Some(tree) = tree_of(alloc, row.players, row.unit, row.nodes) else {
        return false;
    };
    match policy_for(alloc, &tree, row.given) {
        Some(policy) => comes_to(alloc, &tree, &policy, &row.want),
        None => false,
    }
}

/// The first row that isn't so, if there is one.
fn wrong_row(alloc: Global, rows: &[Row]) -> Option<usize> {
    for (i, row) in rows.iter().enumerate() {
        if !is_row(alloc, row) {
            return Some(i);
        }
    }
    None
}

#[test]
fn policies_are_judged(rt: HostRuntime) {
    assert_eq!(rt; wrong_row(rt.alloc(), &games::ROWS), None);
}

#[test]
fn numbers_are_counted_up_to_127_bits(rt: HostRuntime) {
    assert_eq!(rt; wrong_row(rt.alloc(), &overflow::ROWS), None);
}
