//! Information sets: which may stand in a game, and what chance weighs.
ghost use Rattle.std.specs.Prelude.{◌≡◌, ◌≤◌, ◌<◌, ◌^◌, ◌==◌, [], true, not, nat_abs, map, sum, IfOk, MatchResult};
ghost use Rattle.std.specs.List.{list_all};
ghost use Rattle.spiel_matrix.specs.Pays.{are_small, common_unit, in_parts};
ghost use Rattle.spiel_efg.specs.Faults.{IsRefused};
ghost use Rattle.spiel_efg.specs.Sets.{are_probabilities, have_own_numbers, is_negative, is_set, is_zero, kept_weights, probabilities, whole_weights};

use crate::fault::PartsFault;
use crate::parts::{EfgAction, EfgSet};
use crate::seen::Keys;
use spiel_frac::{Frac, List, NoMemory, Packed};
use spiel_matrix::{MatrixFault, common_unit, pays_in};
use std::alloc::Global;

/// The probabilities of actions.
pub(crate) fn probabilities(alloc: Global, actions: &[EfgAction]) -> Result<List<Frac>, NoMemory>
    ensures { IfOk result (λ weights. weights ≡ probabilities actions.now) }
{
    let mut weights = List::new(alloc);
    for action in actions {
        weights.push(action.weight)?;
    }
    Ok(weights)
}

fn is_negative(weight: Frac) -> bool
    ensures { result ≡ is_negative weight }
{
    !(0 <= weight.num())
}

fn is_zero(weight: Frac) -> bool
    ensures { result ≡ is_zero weight }
{
    weight.num().unsigned_abs() == 0
}

/// Sizes of numbers.
fn sizes(alloc: Global, parts: &[i64]) -> Result<List<u64>, NoMemory>
    ensures { IfOk result (λ sizes. sizes ≡ map nat_abs parts.now) }
{
    let mut sizes = List::new(alloc);
    for part in parts {
        sizes.push(part.unsigned_abs())?;
    }
    Ok(sizes)
}

/// Whether the numbers sum to the total.
fn sums_to(numbers: &[u64], total: u64) -> bool
    ensures { result ≡ (sum numbers.now == total) }
{
    let mut left = total;
    for number in numbers {
        if *number > left {
            return false;
        }
        left -= *number;
    }
    left == 0
}

/// The sizes of all in parts of 1/unit. `Bad` comes where one of them passes 2^62.
fn in_parts(alloc: Global, unit: u64, weights: &[Frac]) -> Result<List<u64>, PartsFault>
    ensures sizes { IfOk result (λ whole. whole ≡ map nat_abs (map (in_parts unit) weights.now)) }
    ensures test { MatchResult result (λ _. are_small unit weights.now ≡ true) (IsRefused (are_small unit weights.now)) }
{
    match pays_in(alloc, unit, weights) {
        Ok(parts) => Ok(sizes(alloc, parts.items())?),
        Err(MatrixFault::NoMemory) => Err(PartsFault::NoMemory),
        Err(_) => Err(PartsFault::Bad),
    }
}

pub(crate) fn none_negative(weights: &[Frac]) -> bool
    ensures { result ≡ list_all (λ weight. not (is_negative weight)) weights.now }
{
    weights.iter().all(|weight| !is_negative(*weight))
}

fn all_zero(weights: &[Frac]) -> bool
    ensures { result ≡ list_all is_zero weights.now }
{
    weights.iter().all(|weight| is_zero(*weight))
}

/// The weights. `Bad` comes exactly where they don't sum to the total.
fn summing_to(weights: List<u64>, total: u64) -> Result<List<u64>, PartsFault>
    ensures weights { IfOk result (λ same. same ≡ weights) }
    ensures test { MatchResult result (λ _. (sum weights == total) ≡ true) (IsRefused (sum weights == total)) }
{
    if sums_to(weights.items(), total) {
        Ok(weights)
    } else {
        Err(PartsFault::Bad)
    }
}

/// The probabilities over their least common denominator. `Bad` comes exactly where they don't sum
/// to 1.
#[tactic(auto, using(crate::proofs::Weights::refused, crate::proofs::Weights::sizes_of_parts))]
pub(crate) fn weights_in(
    alloc: Global,
    unit: u64,
    weights: &[Frac],
) -> Result<List<u64>, PartsFault>
    requires unit { unit ≡ common_unit weights.now }
    requires small { unit ≤ 2 ^ 62 }
    ensures weights { IfOk result (λ whole. whole ≡ whole_weights weights.now) }
    ensures test { MatchResult result (λ _. (sum (whole_weights weights.now) == common_unit weights.now) ≡ true) (IsRefused (sum (whole_weights weights.now) == common_unit weights.now)) }
{
    match in_parts(alloc, unit, weights) {
        Ok(whole) => summing_to(whole, unit),
        Err(fault) => Err(fault),
    }
}

/// The probabilities over their least common denominator. `Bad` comes exactly where they are no
/// probabilities of all outcomes of chance.
fn whole_weights(alloc: Global, weights: &[Frac]) -> Result<List<u64>, PartsFault>
    ensures weights { IfOk result (λ whole. whole ≡ whole_weights weights.now) }
    ensures test { MatchResult result (λ _. are_probabilities weights.now ≡ true) (IsRefused (are_probabilities weights.now)) }
{
    if !none_negative(weights) {
        return Err(PartsFault::Bad);
    }
    let Some(unit) = common_unit(weights) else {
        return Err(PartsFault::Bad);
    };
    weights_in(alloc, unit, weights)
}

/// No weights. `Bad` comes exactly where an action of a player weighs something.
fn no_weights(alloc: Global, weights: &[Frac]) -> Result<List<u64>, PartsFault>
    ensures weights { IfOk result (λ whole. whole ≡ []) }
    ensures test { MatchResult result (λ _. list_all is_zero weights.now ≡ true) (IsRefused (list_all is_zero weights.now)) }
{
    if all_zero(weights) {
        Ok(List::new(alloc))
    } else {
        Err(PartsFault::Bad)
    }
}

/// The whole weights of a set. `Bad` comes exactly where the set is none of a game.
fn set_weights(alloc: Global, one: &EfgSet) -> Result<List<u64>, PartsFault>
    ensures weights { IfOk result (λ whole. whole ≡ kept_weights one.now) }
    ensures test { MatchResult result (λ _. is_set one.now ≡ true) (IsRefused (is_set one.now)) }
{
    let _number = one.number;
    if one.actions.items().is_empty() {
        return Err(PartsFault::Bad);
    }
    let weights = probabilities(alloc, one.actions.items())?;
    match one.player {
        None => whole_weights(alloc, weights.items()),
        Some(_) => no_weights(alloc, weights.items()),
    }
}

/// The whole weights of each set. `Bad` comes exactly where one of the sets is none of a game.
pub(crate) fn all_weights(alloc: Global, sets: &[EfgSet]) -> Result<Packed<u64>, PartsFault>
    ensures weights { IfOk result (λ lists. lists ≡ map kept_weights sets.now) }
    ensures test { MatchResult result (λ _. list_all is_set sets.now ≡ true) (IsRefused (list_all is_set sets.now)) }
{
    let mut lists = Packed::new(alloc);
    for one in sets {
        let weights = set_weights(alloc, one)?;
        lists.push(weights.items())?;
    }
    Ok(lists)
}

/// Whether no two chance sets and no two sets of one player have the same number.
pub(crate) fn have_own_numbers(alloc: Global, sets: &[EfgSet]) -> Result<bool, NoMemory>
    ensures { IfOk result (λ own. own ≡ have_own_numbers sets.now) }
{
    let mut seen = Keys::new(alloc);
    for one in sets {
        let is_new = seen.note(one.player, one.number)?;
        if !is_new {
            return Ok(false);
        }
    }
    Ok(true)
}
