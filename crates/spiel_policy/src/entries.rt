//! Entries of a policy file and their pairs, read from JSON values.
ghost use Rattle.std.specs.Prelude.{◌≡◌, Some, None, IfOk, IfSome, All, option_map};
ghost use Rattle.serde_json.specs.View.{items_view, view};
ghost use Rattle.spiel_frac.specs.Reading.{frac_of};
ghost use Rattle.spiel_policy.specs.Entries.{IsFair, entry_of, has_members, not_negative, pair_of, pairs_in, pairs_of, player_of, small_of, text_of, text_weight, weight_of};

use serde_json::Value;
use spiel_frac::{Frac, List, NoMemory, Text, read_frac};
use std::alloc::Global;

/// A pair of an entry: a number of the mover, and its weight.
#[derive(Clone, Copy)]
pub(crate) struct Pair {
    pub(crate) number: u32,
    pub(crate) weight: Frac,
}

/// An entry of a policy file: whose information state it is for, and the numbers that it names.
#[derive(Drop)]
pub(crate) struct Entry {
    pub(crate) player: u32,
    pub(crate) text: Text,
    pub(crate) pairs: List<Pair>,
}

/// Whether a value is an object with so many members.
pub(crate) fn has_members(value: &Value, count: usize) -> bool
    ensures { result ≡ has_members count (view value.now) }
{
    match value.as_object() {
        Some(members) => members.len() == count,
        None => false,
    }
}

/// A whole number of at most 32 bits.
fn small_of(value: &Value) -> Option<u32>
    ensures { result ≡ small_of (view value.now) }
{
    let number = value.as_u64()?;
    if number < 0x1_0000_0000 {
        Some(number as u32)
    } else {
        None
    }
}

/// The fraction that a text reads as, if it isn't negative.
pub(crate) fn not_negative(text: &[u8]) -> Option<Frac>
    ensures value { result ≡ not_negative (frac_of text.now) }
    ensures fair { IfSome result IsFair }
{
    let weight = read_frac(text).ok()?;
    if weight.num() < 0 { None } else { Some(weight) }
}

/// The fraction that a value's text reads as, if it isn't negative.
fn text_weight(value: &Value) -> Option<Frac>
    ensures value { result ≡ text_weight (view value.now) }
    ensures fair { IfSome result IsFair }
{
    not_negative(value.as_str()?.as_bytes())
}

/// A weight: a whole number, or a text that reads as a number that isn't negative.
fn weight_of(value: &Value) -> Option<Frac>
    ensures value { result ≡ weight_of (view value.now) }
    ensures fair { IfSome result IsFair }
{
    match value.as_u64() {
        Some(whole) => Some(Frac::ratio(whole, 1)),
        None => text_weight(value),
    }
}

/// A pair of a number and its weight.
fn pair_of(value: &Value) -> Option<Pair>
    ensures value { result ≡ pair_of (view value.now) }
    ensures fair { IfSome result (λ pair. IsFair pair.weight) }
{
    let items = value.as_array()?;
    if items.len() != 2 {
        return None;
    }
    let number = small_of(&items[0])?;
    let weight = weight_of(&items[1])?;
    Some(Pair { number, weight })
}

/// All pairs, if each of the values is one.
fn pairs_in(alloc: Global, values: &[Value]) -> Result<Option<List<Pair>>, NoMemory>
    ensures value { IfOk result (λ pairs. pairs ≡ pairs_in (items_view values.now)) }
    ensures fair { IfOk result (λ pairs. IfSome pairs (All (λ pair. IsFair pair.weight))) }
{
    let mut pairs = List::new(alloc);
    for value in values {
        let Some(pair) = pair_of(value) else {
            return Ok(None);
        };
        pairs.push(pair)?;
    }
    Ok(Some(pairs))
}

/// The player of an entry.
fn player_of(value: &Value) -> Option<u32>
    ensures { result ≡ player_of (view value.now) }
{
    small_of(value.get("player")?)
}

/// What the player sees.
fn text_of(value: &Value) -> Option<&str>
    ensures { option_map (λ text. text.now) result ≡ text_of (view value.now) }
{
    value.get("state")?.as_str()
}

/// The pairs of an entry.
fn pairs_of(alloc: Global, value: &Value) -> Result<Option<List<Pair>>, NoMemory>
    ensures value { IfOk result (λ pairs. pairs ≡ pairs_of (view value.now)) }
    ensures fair { IfOk result (λ pairs. IfSome pairs (All (λ pair. IsFair pair.weight))) }
{
    let Some(actions) = value.get("actions") else {
        return Ok(None);
    };
    match actions.as_array() {
        Some(items) => pairs_in(alloc, items.as_slice()),
        None => Ok(None),
    }
}

/// The entry that a value is: an object with exactly the members `player`, `state` and `actions`.
pub(crate) fn entry_of(alloc: Global, value: &Value) -> Result<Option<Entry>, NoMemory>
    ensures value { IfOk result (λ entry. entry ≡ entry_of (view value.now)) }
    ensures fair { IfOk result (λ entry. IfSome entry (λ e. All (λ pair. IsFair pair.weight) e.pairs)) }
{
    if !has_members(value, 3) {
        return Ok(None);
    }
    let Some(player) = player_of(value) else {
        return Ok(None);
    };
    let Some(state) = text_of(value) else {
        return Ok(None);
    };
    let Some(pairs) = pairs_of(alloc, value)? else {
        return Ok(None);
    };
    let mut text = Text::new(alloc);
    text.push(state.as_bytes())?;
    Ok(Some(Entry {
        player,
        text,
        pairs,
    }))
}
