//! Reading a policy file: by its usual form, or else as any JSON value.
ghost use Rattle.std.specs.Prelude.{◌≡◌, ◌+◌, count_by, is_some, Ok, IfOk, OnOk, MatchResult};
ghost use Rattle.serde_json.specs.View.{items_view, view};
ghost use Rattle.spiel_tree.specs.Trees.{IsGameTree};
ghost use Rattle.spiel_policy.specs.Partial.{IsFor};
ghost use Rattle.spiel_policy.specs.Reading.{IsComputed, none_given, policy_of, profile_of_data, with_data, with_entries};
ghost use Rattle.spiel_policy.specs.Profiles.{Fits};

use crate::adding::add_entry;
use crate::entries::entry_of;
use crate::entrywise::usual_policy;
use crate::fault::PolicyFault;
use crate::heads::{entries_of, json_of};
use crate::partial::PartialPolicy;
use crate::policy::Policy;
use serde_json::Value;
use spiel_tree::Tree;
use std::alloc::Global;

/// Takes the entry that a value is.
fn take_entry(
    alloc: Global,
    tree: &Tree,
    given: &mut PartialPolicy,
    number: u32,
    value: &Value,
) -> Result<(), PolicyFault>
    requires game { IsGameTree tree.now }
    requires for_tree { IsFor tree.now given.old }
    ensures answer { MatchResult result
        (λ done. with_data tree.now given.old number (view value.now) ≡ Ok given.new)
        (IsComputed (with_data tree.now given.old number (view value.now))) }
    ensures for_tree { OnOk result (IsFor tree.now given.new) }
    ensures counted { OnOk result (count_by is_some given.new ≡ count_by is_some given.old + 1) }
{
    let entry = entry_of(alloc, value)?.ok_or(PolicyFault::Shape { entry: number })?;
    add_entry(alloc, tree, given, number, &entry)
}

/// Takes the entries in order.
fn take_entries(alloc: Global, tree: &Tree, values: &[Value]) -> Result<PartialPolicy, PolicyFault>
    ensures answer { MatchResult result
        (λ given. with_entries tree.now (none_given tree.now) 0 (items_view values.now) ≡ Ok given)
        (IsComputed (with_entries tree.now (none_given tree.now) 0 (items_view values.now))) }
    ensures for_tree { IfOk result (IsFor tree.now) }
{
    let mut given = PartialPolicy::new(alloc, tree.states())?;
    let mut number = 0u32;
    for value in values {
        take_entry(alloc, tree, &mut given, number, value)?;
        number += 1;
    }
    Ok(given)
}

/// The policy that a JSON value gives for a tree.
fn policy_of(alloc: Global, tree: &Tree, value: &Value) -> Result<Policy, PolicyFault>
    ensures answer { MatchResult result
        (λ policy. profile_of_data tree.now (view value.now) ≡ Ok policy)
        (IsComputed (profile_of_data tree.now (view value.now))) }
    ensures fits { IfOk result (Fits tree.now) }
{
    let entries = entries_of(value).ok_or(PolicyFault::Head)?;
    let given = take_entries(alloc, tree, entries)?;
    given.policy(alloc, tree)
}

// The policy of a file for a tree, or the first thing that is wrong with the file.
#[tactic(auto, unfolding(crate::specs::Reading::policy_of))]
fn read_any_file(alloc: Global, tree: &Tree, bytes: &[u8]) -> Result<Policy, PolicyFault>
    ensures answer { MatchResult result
        (λ policy. policy_of tree.now bytes.now ≡ Ok policy)
        (IsComputed (policy_of tree.now bytes.now)) }
    ensures fits { IfOk result (Fits tree.now) }
{
    let value = json_of(alloc, bytes)?;
    policy_of(alloc, tree, &value)
}

// The same. A file in a usual form is read entry by entry, and any other, or one with a fault, as a
// whole.
fn read_file(alloc: Global, tree: &Tree, bytes: &[u8]) -> Result<Policy, PolicyFault>
    ensures answer { MatchResult result
        (λ policy. policy_of tree.now bytes.now ≡ Ok policy)
        (IsComputed (policy_of tree.now bytes.now)) }
    ensures fits { IfOk result (Fits tree.now) }
{
    match usual_policy(alloc, tree, bytes)? {
        Some(policy) => Ok(policy),
        None => read_any_file(alloc, tree, bytes),
    }
}

/// The policy that a policy file gives for a tree, or the first thing that is wrong with the file.
///
/// A policy file is a JSON object (RFC 8259) with exactly two members: `policy` is the number 1, and
/// `states` is an array of entries. Each entry is an object with exactly three members: `player` is
/// a whole number of 32 bits, `state` is the text of an information state of that player, and
/// `actions` is an array of pairs `[number, weight]`. A weight is a text that `spiel_frac::read_frac`
/// reads and that isn't negative, or a whole number of 64 bits. Of members with one name the last
/// counts. Whole numbers are written without a point and without an exponent.
///
/// Each information state has one entry, in any order. The total of its weights is the least common
/// multiple of their denominators; numbers that aren't named have the weight 0.
pub fn read_policy(alloc: Global, tree: &Tree, bytes: &[u8]) -> Result<Policy, PolicyFault>
    ensures answer { MatchResult result
        (λ policy. policy_of tree.now bytes.now ≡ Ok policy)
        (IsComputed (policy_of tree.now bytes.now)) }
    ensures fits { IfOk result (Fits tree.now) }
{
    read_file(alloc, tree, bytes)
}
