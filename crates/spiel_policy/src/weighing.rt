//! The whole weights that the pairs of an entry give the numbers of an information state.
ghost use Rattle.std.specs.Prelude.{◌≡◌, ◌≤◌, ◌<◌, ◌==◌, false, true, List, [], ◌∷◌, ◌++◌, length, map, sum, nat_le, nat_lt, slice_index, slice_index_or, if◌then◌else◌, Some, None, IfOk, IfSome, IfNone, All, option_map, MatchResult};
ghost use Rattle.std.specs.Bool.{MatchBool};
ghost use Rattle.std.specs.List.Sorted.{IsStrictlyIncreasing};
ghost use Rattle.spiel_frac.specs.Fraction.{most};
ghost use Rattle.spiel_tree.specs.States.{numbers_of, states_below};
ghost use Rattle.spiel_policy.specs.Entries.{IsFair};
ghost use Rattle.spiel_policy.specs.Reading.{small_whole};
ghost use Rattle.spiel_policy.specs.Weighing.{IsPart, choices_of, is_choice, is_in, pair_for, parts_of, weights_of_whole};
ghost use Rattle.spiel_policy.specs.declared.entries.Pair.{Pair};

use crate::entries::Pair;
use crate::tables::empty_table;
use spiel_frac::{Frac, List, NoMemory, lcm};
use spiel_tree::Tree;
use std::alloc::Global;

/// The place of a number among those of an information state. In most games a number is its own
/// place.
fn index_of(tree: &Tree, state: u32, number: u32) -> Option<u32>
    requires { state < length (states_below tree.now.players tree.now.rows) }
    ensures within { IfSome result (λ index. index < length (numbers_of tree.now.players tree.now.rows state)) }
    ensures there { IfSome result (λ index. slice_index (numbers_of tree.now.players tree.now.rows state) index ≡ number) }
    ensures none { IfNone result (is_in (numbers_of tree.now.players tree.now.rows state) number ≡ false) }
{
    let count = tree.action_count(state);
    if number < count && tree.action_at(state, number) == number {
        return Some(number);
    }
    for index in 0..count {
        if tree.action_at(state, index) == number {
            return Some(index);
        }
    }
    None
}

/// Notes a pair in the table of an information state's numbers. It isn't noted where it is for none
/// of them, or where a pair is noted for its number already.
fn note(tree: &Tree, state: u32, pair: Pair, table: &mut Vec<Option<Pair>>) -> bool
    requires state { state < length (states_below tree.now.players tree.now.rows) }
    requires rising { IsStrictlyIncreasing (numbers_of tree.now.players tree.now.rows state) }
    ensures { (before : List Pair)
        → table.old.items ≡ map (pair_for before) (numbers_of tree.now.players tree.now.rows state)
        → MatchBool result
        ((is_choice (numbers_of tree.now.players tree.now.rows state) before pair ≡ true)
        × (table.new.items ≡ map (pair_for (before ++ pair ∷ [])) (numbers_of tree.now.players tree.now.rows state)))
        (is_choice (numbers_of tree.now.players tree.now.rows state) before pair ≡ false) }
{
    let Some(index) = index_of(tree, state, pair.number) else {
        return false;
    };
    let place = index as usize;
    if place >= table.len() || table[place].is_some() {
        return false;
    }
    table[place] = Some(pair);
    true
}

/// For each number of an information state its pair. There is no table where a pair is for none of
/// the numbers, or two are for one.
pub(crate) fn choices_of(
    alloc: Global,
    tree: &Tree,
    state: u32,
    pairs: &[Pair],
) -> Result<Option<Vec<Option<Pair>>>, NoMemory>
    requires state { state < length (states_below tree.now.players tree.now.rows) }
    requires rising { IsStrictlyIncreasing (numbers_of tree.now.players tree.now.rows state) }
    ensures { IfOk result (λ table. option_map (λ t. t.items) table ≡ choices_of (numbers_of tree.now.players tree.now.rows state) pairs.now) }
{
    let mut table = empty_table(alloc, tree.action_count(state))?;
    for pair in pairs {
        if !note(tree, state, *pair, &mut table) {
            return Ok(None);
        }
    }
    Ok(Some(table))
}

/// The denominator of a weight.
fn den_of(weight: Frac) -> u128
    ensures value { result ≡ weight.den }
    ensures positive { 0 < result }
{
    weight.den() as u128
}

/// The least common multiple of the denominators. There is none where it passes 2^127 - 1.
pub(crate) fn whole_weight(pairs: &[Pair]) -> Option<u128>
    requires { All (λ pair. IsFair pair.weight) pairs.now }
    ensures { result ≡ small_whole pairs.now }
{
    let mut whole = 1u128;
    for pair in pairs {
        whole = lcm(whole, den_of(pair.weight))?;
    }
    Some(whole)
}

/// How many parts of the whole a number gets, if they aren't more than the whole.
fn parts_of(choice: Option<Pair>, whole: u128) -> Option<u128>
    requires positive { 0 < whole }
    requires fits { whole ≤ most }
    requires part { IfSome choice (IsPart whole) }
    ensures { result ≡ (if nat_le (parts_of whole choice) whole then Some (parts_of whole choice) else None) }
{
    let Some(pair) = choice else {
        return Some(0);
    };
    let num = pair.weight.num().unsigned_abs();
    let den = den_of(pair.weight);
    if num > den {
        return None;
    }
    Some(num * (whole / den))
}

/// The parts of all numbers, if they are the whole together.
pub(crate) fn weights_of_whole(
    alloc: Global,
    choices: &[Option<Pair>],
    whole: u128,
) -> Result<Option<List<u128>>, NoMemory>
    requires positive { 0 < whole }
    requires fits { whole ≤ most }
    requires parts { All (λ choice. IfSome choice (IsPart whole)) choices.now }
    ensures { IfOk result (λ weights. weights ≡ weights_of_whole choices.now whole) }
{
    let mut weights = List::new(alloc);
    let mut rest = whole;
    for choice in choices {
        let Some(parts) = parts_of(*choice, whole) else {
            return Ok(None);
        };
        if parts > rest {
            return Ok(None);
        }
        rest -= parts;
        weights.push(parts)?;
    }
    if rest != 0 {
        return Ok(None);
    }
    Ok(Some(weights))
}
