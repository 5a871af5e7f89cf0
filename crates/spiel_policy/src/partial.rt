//! The weights that the entries of a policy file gave so far.
ghost use Rattle.std.specs.Prelude.{◌≡◌, ◌<◌, ◌≤◌, length, sum, replicate, slice_set, Some, None, Ok, IfOk, OnOk, MatchResult, is_some, All};
ghost use Rattle.spiel_frac.specs.Fraction.{most};
ghost use Rattle.spiel_tree.specs.States.{states_below};
ghost use Rattle.spiel_policy.specs.Partial.{IsFor};
ghost use Rattle.spiel_policy.specs.Reading.{IsComputed, missing, profile_from, weights_given};
ghost use Rattle.spiel_policy.specs.Profiles.{AreReduced};

use crate::fault::PolicyFault;
use crate::policy::Policy;
use crate::tables::empty_table;
use spiel_frac::{List, NoMemory, Packed, Text};
use spiel_tree::Tree;
use std::alloc::Global;
use std::marker::Model;

/// What entries gave: for each information state its weights, if one gave some. Contracts see a list
/// of them.
#[derive(Drop)]
pub(crate) struct PartialPolicy {
    /// For each information state the place of its weights among those that came.
    places: Vec<Option<u32>>,
    weights: Packed<u128>,
}

impl Model for PartialPolicy {
    ghost use Rattle.std.specs.Prelude.{List, Option, ℕ};
    ghost use Rattle.spiel_policy.specs.Kept.{KeepsPartial, partial_by};

    ghost Value = { List (Option (List ℕ)) };

    ghost view = { λ given. partial_by given.weights given.places.items };

    ghost invariant = { λ given. KeepsPartial given.weights given.places.items };
}

/// The sum of weights.
fn sum_of(weights: &[u128]) -> u128
    requires { sum weights.now ≤ most }
    ensures { result ≡ sum weights.now }
{
    weights.iter().sum()
}

/// The fault of an information state that no entry is for.
fn missing(alloc: Global, tree: &Tree, state: u32) -> Result<PolicyFault, NoMemory>
    requires { state < length (states_below tree.now.players tree.now.rows) }
    ensures { IfOk result (λ fault. fault ≡ missing tree.now state) }
{
    let mut text = Text::new(alloc);
    text.push(tree.state_text(state))?;
    let player = tree.state_player(state);
    Ok(PolicyFault::Missing { player, text })
}

impl PartialPolicy {
    /// Nothing was given for any of so many information states.
    pub(crate) fn new(alloc: Global, count: u32) -> Result<PartialPolicy, NoMemory>
        ensures { IfOk result (λ given. given ≡ replicate count None) }
    {
        Ok(PartialPolicy {
            places: empty_table(alloc, count)?,
            weights: Packed::new(alloc),
        })
    }

    /// Whether an information state has its weights.
    pub(crate) fn has(&self, state: u32) -> bool
        requires { state < length self.now }
        ensures { result ≡ is_some (weights_given self.now state) }
    {
        self.places[state as usize].is_some()
    }

    /// Gives an information state its weights.
    pub(crate) fn add(&mut self, state: u32, weights: &[u128]) -> Result<(), NoMemory>
        requires within { state < length self.old }
        requires free { weights_given self.old state ≡ None }
        requires reduced { AreReduced weights.now }
        ensures { OnOk result (self.new ≡ slice_set self.old state (Some weights.now)) }
    {
        let place = self.weights.len() as u32;
        self.weights.push(weights)?;
        self.places[state as usize] = Some(place);
        Ok(())
    }

    /// The policy with these weights. `Missing` comes where an information state of the tree has none,
    /// with the first such.
    pub(crate) fn policy(&self, alloc: Global, tree: &Tree) -> Result<Policy, PolicyFault>
        requires { IsFor tree.now self.now }
        ensures answer { MatchResult result
            (λ policy. profile_from tree.now 0 self.now ≡ Ok policy)
            (IsComputed (profile_from tree.now 0 self.now)) }
        ensures reduced { IfOk result (All AreReduced) }
    {
        let mut weights = Packed::new(alloc);
        let mut totals = List::new(alloc);
        let mut state = 0u32;
        for place in &self.places {
            let Some(place) = *place else {
                return Err(missing(alloc, tree, state)?);
            };
            let own = self.weights.at(place as usize);
            weights.push(own)?;
            totals.push(sum_of(own))?;
            state += 1;
        }
        Ok(Policy::new(weights, totals))
    }
}
