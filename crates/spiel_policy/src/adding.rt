//! What one entry of a policy file gives its information state.
ghost use Rattle.std.specs.Prelude.{◌≡◌, ◌<◌, ◌+◌, length, count_by, is_some, Ok, IfSome, IfOk, OnOk, MatchResult, All};
ghost use Rattle.spiel_tree.specs.States.{numbers_of, states_below};
ghost use Rattle.spiel_tree.specs.Trees.{IsGameTree};
ghost use Rattle.spiel_policy.specs.Entries.{IsFair};
ghost use Rattle.spiel_policy.specs.Partial.{IsFor};
ghost use Rattle.spiel_policy.specs.Reading.{IsComputed, state_named, weights_at, with_entry};
ghost use Rattle.spiel_policy.specs.Profiles.{AreReduced};

use crate::entries::{Entry, Pair};
use crate::fault::PolicyFault;
use crate::partial::PartialPolicy;
use crate::weighing::{choices_of, weights_of_whole, whole_weight};
use spiel_frac::List;
use spiel_tree::Tree;
use std::alloc::Global;

/// The information state that an entry is for.
fn state_named(tree: &Tree, entry: &Entry) -> Option<u32>
    ensures value { result ≡ state_named tree.now entry.now.player entry.now.text }
    ensures within { IfSome result (λ state. state < length (states_below tree.now.players tree.now.rows)) }
{
    if entry.player >= tree.players() {
        return None;
    }
    tree.find(entry.player, entry.text.bytes())
}

/// The weights that the pairs of an entry give the numbers of an information state.
fn weights_at(
    alloc: Global,
    tree: &Tree,
    state: u32,
    number: u32,
    pairs: &[Pair],
) -> Result<List<u128>, PolicyFault>
    requires game { IsGameTree tree.now }
    requires state { state < length (states_below tree.now.players tree.now.rows) }
    requires fair { All (λ pair. IsFair pair.weight) pairs.now }
    ensures answer { MatchResult result
        (λ weights. weights_at (numbers_of tree.now.players tree.now.rows state) number pairs.now ≡ Ok weights)
        (IsComputed (weights_at (numbers_of tree.now.players tree.now.rows state) number pairs.now)) }
    ensures reduced { IfOk result AreReduced }
{
    let found = choices_of(alloc, tree, state, pairs)?;
    let choices = found.ok_or(PolicyFault::Action { entry: number })?;
    let whole = whole_weight(pairs).ok_or(PolicyFault::Overflow { entry: number })?;
    weights_of_whole(alloc, choices.as_slice(), whole)?.ok_or(PolicyFault::Sum { entry: number })
}

/// Gives the information state of an entry the weights of its numbers.
pub(crate) fn add_entry(
    alloc: Global,
    tree: &Tree,
    given: &mut PartialPolicy,
    number: u32,
    entry: &Entry,
) -> Result<(), PolicyFault>
    requires game { IsGameTree tree.now }
    requires for_tree { IsFor tree.now given.old }
    requires fair { All (λ pair. IsFair pair.weight) entry.now.pairs }
    ensures answer { MatchResult result
        (λ done. with_entry tree.now given.old number entry.now ≡ Ok given.new)
        (IsComputed (with_entry tree.now given.old number entry.now)) }
    ensures for_tree { OnOk result (IsFor tree.now given.new) }
    ensures counted { OnOk result (count_by is_some given.new ≡ count_by is_some given.old + 1) }
{
    let state = state_named(tree, entry).ok_or(PolicyFault::UnknownState { entry: number })?;
    if given.has(state) {
        return Err(PolicyFault::Repeated { entry: number });
    }
    let weights = weights_at(alloc, tree, state, number, entry.pairs.items())?;
    given.add(state, weights.items())?;
    Ok(())
}
