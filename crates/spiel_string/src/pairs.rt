//! Pairs in byte order of their keys, and one more put among them.
ghost use Rattle.std.specs.Prelude.{◌≡◌, ◌≤◌, OnOk, length, position};
ghost use Rattle.std.specs.List.{position_or_len};
ghost use Rattle.spiel_string.specs.Insertion.{insert_pair};
ghost use Rattle.spiel_string.specs.Sorted.{key_lt};

use spiel_frac::{NoMemory, Text};
use std::cmp::Ordering;

// Whether the key of the pair is above this one in byte order.
fn is_above<V>(pair: &(Text, V), key: &[u8]) -> bool
    ensures { result ≡ key_lt key.now pair.now.0 }
{
    matches!(key.cmp(pair.0.bytes()), Ordering::Less)
}

// Where the first pair stands whose key is above this one.
fn find_above<V>(pairs: &[(Text, V)], key: &[u8]) -> Option<usize>
    ensures { result ≡ position (λ p. key_lt key.now p.0) pairs.now }
{
    pairs.iter().position(|pair| is_above(pair, key))
}

// How many pairs stand before one with this key.
fn place_of<V>(pairs: &[(Text, V)], key: &[u8]) -> usize
    ensures place { result ≡ position_or_len (λ p. key_lt key.now p.0) pairs.now }
    ensures within { result ≤ length pairs.now }
{
    match find_above(pairs, key) {
        Some(place) => place,
        None => pairs.len(),
    }
}

/// Puts a pair in its place among pairs in byte order of their keys, after those of the same key.
pub fn insert_pair<V: Drop>(pairs: &mut Vec<(Text, V)>, key: Text, value: V) -> Result<(), NoMemory>
    ensures { OnOk result (pairs.new.items ≡ insert_pair (key, value) pairs.old.items) }
{
    let place = place_of(pairs, key.bytes());
    pairs.insert(place, (key, value))?;
    Ok(())
}
