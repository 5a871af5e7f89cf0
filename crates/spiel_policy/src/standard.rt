//! The policies that every tree has: the uniform one, and that of the first action.
ghost use Rattle.std.specs.Prelude.{◌≡◌, ◌≤◌, ◌<◌, IfOk, OnOk};
ghost use Rattle.spiel_policy.specs.Profiles.{Fits, first_profile, uniform_profile};
ghost use Rattle.spiel_policy.specs.Kept.{weights_with, profile_with};

use crate::policy::Policy;
use spiel_frac::{List, NoMemory, Packed};
use spiel_tree::Tree;
use std::alloc::Global;

/// Makes the weights those of so many numbers: 1 for the first, and `other` for each of the rest.
#[tactic(auto, using(crate::proofs::Profiles::weights_with_more))]
fn set_weights(count: u32, other: u128, weights: &mut List<u128>) -> Result<(), NoMemory>
    requires { 1 ≤ count }
    ensures { OnOk result (weights.new ≡ weights_with count other) }
{
    weights.clear();
    weights.push(1)?;
    for _ in 1..count {
        weights.push(other)?;
    }
    Ok(())
}

/// The policy with the weight 1 for the first number of each information state, and `other` for
/// each of the rest.
fn policy_with(alloc: Global, tree: &Tree, other: u128) -> Result<Policy, NoMemory>
    requires { other ≤ 1 }
    ensures profile { IfOk result (λ policy. policy ≡ profile_with tree.now other) }
    ensures fits { IfOk result (λ policy. Fits tree.now policy) }
{
    let mut weights = Packed::new(alloc);
    let mut totals = List::new(alloc);
    let mut own = List::new(alloc);
    for state in 0..tree.states() {
        let count = tree.action_count(state);
        set_weights(count, other, &mut own)?;
        weights.push(own.items())?;
        totals.push(1 + other * u128::from(count - 1))?;
    }
    Ok(Policy::new(weights, totals))
}

/// The policy by which whoever moves takes each number with the same probability: weight 1 for each.
#[tactic(auto, using(crate::proofs::Profiles::uniform_is))]
pub fn uniform(alloc: Global, tree: &Tree) -> Result<Policy, NoMemory>
    ensures profile { IfOk result (λ policy. policy ≡ uniform_profile tree.now) }
    ensures fits { IfOk result (λ policy. Fits tree.now policy) }
{
    policy_with(alloc, tree, 1)
}

/// The policy by which whoever moves takes the first number: weight 1 for it, 0 for the rest.
#[tactic(auto, using(crate::proofs::Profiles::first_profile_is))]
pub fn first_action(alloc: Global, tree: &Tree) -> Result<Policy, NoMemory>
    ensures profile { IfOk result (λ policy. policy ≡ first_profile tree.now) }
    ensures fits { IfOk result (λ policy. Fits tree.now policy) }
{
    policy_with(alloc, tree, 0)
}
