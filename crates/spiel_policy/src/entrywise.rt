//! A policy file in a usual form, read entry by entry.
ghost use Rattle.std.specs.Prelude.{◌≡◌, ℕ, ◌<◌, ◌+◌, ◌^◌, [], ◌∷◌, Ok, IsTrue, codes, count_by, decimal, is_some, length, pos, IfOk, IfSome, All};
ghost use Rattle.json.specs.Lex.{tokens};
ghost use Rattle.json.specs.Token.{begin_array, begin_object, end_object, key, number, string};
ghost use Rattle.spiel_tree.specs.Trees.{IsGameTree};
ghost use Rattle.spiel_policy.specs.Entries.{IsFair};
ghost use Rattle.spiel_policy.specs.Partial.{IsFor};
ghost use Rattle.spiel_policy.specs.Profiles.{Fits};
ghost use Rattle.spiel_policy.specs.Reading.{none_given, policy_of, profile_from, with_entry};
ghost use Rattle.spiel_policy.specs.Fronts.{AreEntriesNext, ArePairsNext, IsEntryNext, IsFileNext, IsPairNext, IsWeightNext};

use crate::adding::add_entry;
use crate::entries::{Entry, Pair, not_negative};
use crate::fault::PolicyFault;
use crate::partial::PartialPolicy;
use crate::policy::Policy;
use crate::tokens::{
    take_key, take_number, take_player, take_state, takes_actions, takes_array, takes_end,
    takes_head, takes_object, takes_tail,
};
use json::{Reader, Scratch, Token};
use spiel_frac::{Frac, List, NoMemory, Text, read_number};
use spiel_tree::Tree;
use std::alloc::Global;
use std::str;

/// A whole number as a fraction.
fn whole_weight(text: &str) -> Option<Frac>
    ensures { IfSome result (λ weight. (n : ℕ) × (n < 2 ^ 32) × (text.now ≡ decimal n) × (weight ≡ record { num = pos n; den = 1 })) }
{
    let whole = read_number(text.as_bytes())?;
    Some(Frac::ratio(u64::from(whole), 1))
}

/// Takes a weight: a whole number of at most 32 bits, or a text that reads as a number that isn't
/// negative.
fn take_weight(reader: &mut Reader<'_>) -> Option<Frac>
    ensures next { IfSome result (λ weight. IsWeightNext weight reader.old reader.new) }
    ensures fair { IfSome result IsFair }
{
    match reader.next() {
        Some(Token::Number(text)) => whole_weight(text),
        Some(Token::String(text)) => not_negative(text.as_bytes()),
        _ => None,
    }
}

/// Takes a pair of a number and its weight.
fn take_pair(reader: &mut Reader<'_>) -> Option<Pair>
    ensures next { IfSome result (λ pair. IsPairNext pair reader.old reader.new) }
    ensures fair { IfSome result (λ pair. IsFair pair.weight) }
    ensures shorter { IfSome result (λ _. length reader.new < length reader.old) }
{
    if !takes_array(reader) {
        return None;
    }
    let number = take_number(reader)?;
    let weight = take_weight(reader)?;
    if reader.take_end_array() {
        Some(Pair { number, weight })
    } else {
        None
    }
}

/// Takes pairs, up to the end of their array.
fn take_pairs(alloc: Global, reader: &mut Reader<'_>) -> Result<Option<List<Pair>>, NoMemory>
    ensures next { IfOk result (λ found. IfSome found (λ pairs. ArePairsNext pairs reader.old reader.new)) }
    ensures fair { IfOk result (λ found. IfSome found (All (λ pair. IsFair pair.weight))) }
{
    let mut pairs = List::new(alloc);
    'pairs: while !reader.take_end_array() {
        let Some(pair) = take_pair(reader) else {
            return Ok(None);
        };
        pairs.push(pair)?;
    }
    Ok(Some(pairs))
}

/// An entry with this text.
fn entry_with(alloc: Global, player: u32, state: &str, pairs: List<Pair>) -> Result<Entry, NoMemory>
    ensures { IfOk result (λ entry. entry ≡ record { player = player; text = state.now; pairs = pairs }) }
{
    let mut text = Text::new(alloc);
    text.push(state.as_bytes())?;
    Ok(Entry {
        player,
        text,
        pairs,
    })
}

/// Takes what stands behind the pairs of an entry, where they stand first.
fn take_rest(
    alloc: Global,
    reader: &mut Reader<'_>,
    pairs: List<Pair>,
) -> Result<Option<Entry>, NoMemory>
    ensures { IfOk result (λ found. IfSome found (λ entry. (entry.pairs ≡ pairs) × (entry.player < 2 ^ 32)
        × (reader.old ≡ key (codes "player") ∷ number (decimal entry.player) ∷ key (codes "state") ∷ string entry.text ∷ end_object ∷ reader.new))) }
{
    let Some(player) = take_player(reader) else {
        return Ok(None);
    };
    let Some(state) = take_state(reader) else {
        return Ok(None);
    };
    if !takes_end(reader) {
        return Ok(None);
    }
    Ok(Some(entry_with(alloc, player, state, pairs)?))
}

/// Takes an entry behind the key of its pairs.
fn take_actions_first(alloc: Global, reader: &mut Reader<'_>) -> Result<Option<Entry>, NoMemory>
    ensures next { IfOk result (λ found. IfSome found (λ entry. IsEntryNext entry (begin_object ∷ key (codes "actions") ∷ reader.old) reader.new)) }
    ensures fair { IfOk result (λ found. IfSome found (λ entry. All (λ pair. IsFair pair.weight) entry.pairs)) }
{
    if !takes_array(reader) {
        return Ok(None);
    }
    match take_pairs(alloc, reader)? {
        Some(pairs) => take_rest(alloc, reader, pairs),
        None => Ok(None),
    }
}

/// Takes what stands before the pairs of an entry, behind the key of its player.
fn take_front<'a>(reader: &mut Reader<'a>) -> Option<(u32, &'a str)>
    ensures { IfSome result (λ seen. (seen.0 < 2 ^ 32)
        × (reader.old ≡ number (decimal seen.0) ∷ key (codes "state") ∷ string seen.1.now ∷ key (codes "actions") ∷ begin_array ∷ reader.new)) }
{
    let player = take_number(reader)?;
    let state = take_state(reader)?;
    if takes_actions(reader) {
        Some((player, state))
    } else {
        None
    }
}

/// Takes the end of an entry, where its pairs stand last.
fn take_last(
    alloc: Global,
    reader: &mut Reader<'_>,
    player: u32,
    state: &str,
    pairs: List<Pair>,
) -> Result<Option<Entry>, NoMemory>
    ensures { IfOk result (λ found. IfSome found (λ entry. (entry ≡ record { player = player; text = state.now; pairs = pairs })
        × (reader.old ≡ end_object ∷ reader.new))) }
{
    if !takes_end(reader) {
        return Ok(None);
    }
    Ok(Some(entry_with(alloc, player, state, pairs)?))
}

/// Takes an entry behind the key of its player.
fn take_player_first(alloc: Global, reader: &mut Reader<'_>) -> Result<Option<Entry>, NoMemory>
    ensures next { IfOk result (λ found. IfSome found (λ entry. IsEntryNext entry (begin_object ∷ key (codes "player") ∷ reader.old) reader.new)) }
    ensures fair { IfOk result (λ found. IfSome found (λ entry. All (λ pair. IsFair pair.weight) entry.pairs)) }
{
    let Some((player, state)) = take_front(reader) else {
        return Ok(None);
    };
    match take_pairs(alloc, reader)? {
        Some(pairs) => take_last(alloc, reader, player, state, pairs),
        None => Ok(None),
    }
}

/// Takes the members of an entry, in the order of their names, or as player, state and actions.
fn take_members(alloc: Global, reader: &mut Reader<'_>) -> Result<Option<Entry>, NoMemory>
    ensures next { IfOk result (λ found. IfSome found (λ entry. IsEntryNext entry (begin_object ∷ reader.old) reader.new)) }
    ensures fair { IfOk result (λ found. IfSome found (λ entry. All (λ pair. IsFair pair.weight) entry.pairs)) }
{
    let Some(name) = take_key(reader) else {
        return Ok(None);
    };
    if name == "actions" {
        return take_actions_first(alloc, reader);
    }
    if name == "player" {
        return take_player_first(alloc, reader);
    }
    Ok(None)
}

/// Takes an entry.
fn take_entry(alloc: Global, reader: &mut Reader<'_>) -> Result<Option<Entry>, NoMemory>
    ensures next { IfOk result (λ found. IfSome found (λ entry. IsEntryNext entry reader.old reader.new)) }
    ensures fair { IfOk result (λ found. IfSome found (λ entry. All (λ pair. IsFair pair.weight) entry.pairs)) }
    ensures shorter { IfOk result (λ found. IfSome found (λ _. length reader.new < length reader.old)) }
{
    if !takes_object(reader) {
        return Ok(None);
    }
    take_members(alloc, reader)
}

/// Whether an entry was added, or has a fault.
fn adds_entry(
    alloc: Global,
    tree: &Tree,
    given: &mut PartialPolicy,
    number: u32,
    entry: &Entry,
) -> Result<bool, NoMemory>
    requires game { IsGameTree tree.now }
    requires for_tree { IsFor tree.now given.old }
    requires fair { All (λ pair. IsFair pair.weight) entry.now.pairs }
    ensures { IfOk result (λ added. IsTrue added → (with_entry tree.now given.old number entry.now ≡ Ok given.new)
        × IsFor tree.now given.new × (count_by is_some given.new ≡ count_by is_some given.old + 1)) }
{
    match add_entry(alloc, tree, given, number, entry) {
        Ok(()) => Ok(true),
        Err(PolicyFault::NoMemory) => Err(NoMemory),
        Err(_) => Ok(false),
    }
}

/// Takes entries, up to the end of their array.
fn take_entries(
    alloc: Global,
    tree: &Tree,
    reader: &mut Reader<'_>,
) -> Result<Option<PartialPolicy>, NoMemory>
    ensures next { IfOk result (λ found. IfSome found (λ given. AreEntriesNext tree.now (none_given tree.now) 0 given reader.old reader.new)) }
    ensures for_tree { IfOk result (λ found. IfSome found (IsFor tree.now)) }
{
    let mut given = PartialPolicy::new(alloc, tree.states())?;
    let mut number = 0u32;
    'entries: while !reader.take_end_array() {
        let Some(entry) = take_entry(alloc, reader)? else {
            return Ok(None);
        };
        if !adds_entry(alloc, tree, &mut given, number, &entry)? {
            return Ok(None);
        }
        number += 1;
    }
    Ok(Some(given))
}

/// Takes a whole file.
fn take_file(
    alloc: Global,
    tree: &Tree,
    reader: &mut Reader<'_>,
) -> Result<Option<PartialPolicy>, NoMemory>
    ensures next { IfOk result (λ found. IfSome found (λ given. IsFileNext tree.now given reader.old [])) }
    ensures for_tree { IfOk result (λ found. IfSome found (IsFor tree.now)) }
{
    if !takes_head(reader) {
        return Ok(None);
    }
    let Some(given) = take_entries(alloc, tree, reader)? else {
        return Ok(None);
    };
    if takes_tail(reader) {
        Ok(Some(given))
    } else {
        Ok(None)
    }
}

/// What the entries of a text give.
fn partial_policy_in(
    alloc: Global,
    tree: &Tree,
    text: &str,
) -> Result<Option<PartialPolicy>, NoMemory>
    ensures next { IfOk result (λ found. IfSome found (λ given. IsFileNext tree.now given (tokens text.now) [])) }
    ensures for_tree { IfOk result (λ found. IfSome found (IsFor tree.now)) }
{
    let mut scratch = Scratch::new(alloc);
    let mut reader = Reader::new(text, &mut scratch)?;
    take_file(alloc, tree, &mut reader)
}

/// The policy of what was given, if it has weights for each information state.
fn policy_by(alloc: Global, tree: &Tree, given: &PartialPolicy) -> Result<Option<Policy>, NoMemory>
    requires { IsFor tree.now given.now }
    ensures answer { IfOk result (λ found. IfSome found (λ policy. profile_from tree.now 0 given.now ≡ Ok policy)) }
    ensures fits { IfOk result (λ found. IfSome found (Fits tree.now)) }
{
    match given.policy(alloc, tree) {
        Ok(policy) => Ok(Some(policy)),
        Err(PolicyFault::NoMemory) => Err(NoMemory),
        Err(_) => Ok(None),
    }
}

/// The policy of a file that has a usual form: no other members, `policy` before `states`, those of an
/// entry in the order of their names or as player, state and actions, and whole numbers of at most 32
/// bits. No more than an entry of it is kept at a time. There is none for a file with a fault.
pub(crate) fn usual_policy(
    alloc: Global,
    tree: &Tree,
    bytes: &[u8],
) -> Result<Option<Policy>, NoMemory>
    ensures answer { IfOk result (λ found. IfSome found (λ policy. policy_of tree.now bytes.now ≡ Ok policy)) }
    ensures fits { IfOk result (λ found. IfSome found (Fits tree.now)) }
{
    let Ok(text) = str::from_utf8(bytes) else {
        return Ok(None);
    };
    match partial_policy_in(alloc, tree, text)? {
        Some(given) => policy_by(alloc, tree, &given),
        None => Ok(None),
    }
}
