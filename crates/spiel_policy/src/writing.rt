//! Writing a policy file, entry by entry.
ghost use Rattle.std.specs.Prelude.{◌≡◌, ◌<◌, ◌≤◌, ◌++◌, [], ◌∷◌, Ok, codes, decimal, false, pos, length, nat_lt, string_bytes, IfOk, OnOk, OnErr, IsUtf8};
ghost use Rattle.json.specs.Token.{begin_array, begin_object, end_array, end_object, key, number, string};
ghost use Rattle.serde_json.specs.View.{items_of};
ghost use Rattle.serde_json.specs.Written.{comma_if, compact_text, items_text};
ghost use Rattle.spiel_frac.specs.Fraction.{frac_text, lowest_terms, most, ratio_text};
ghost use Rattle.spiel_tree.specs.States.{numbers_of, state_at, states_below};
ghost use Rattle.spiel_tree.specs.Trees.{IsGameTree};
ghost use Rattle.spiel_policy.specs.Profiles.{Fits, total, weights_of};
ghost use Rattle.spiel_policy.specs.Reading.{policy_of};
ghost use Rattle.spiel_policy.specs.Writing.{HasShortWeights, data_tokens, entries_data, entry_data_at, pair_data, pairs_data, pairs_tokens, policy_text};

use crate::policy::Policy;
use json::Writer;
use spiel_frac::{Frac, NoMemory, Text};
use spiel_tree::Tree;
use std::alloc::{AllocError, Global};
use std::str;

/// The text of a fraction.
fn frac_string(alloc: Global, value: Frac) -> Result<String, AllocError>
    ensures { IfOk result (λ text. string_bytes text ≡ frac_text value) }
{
    let num = value.num();
    let den = value.den();
    if den == 1 {
        num.to_string(alloc)
    } else {
        format!(in alloc; "{num}/{den}")
    }
}

/// The fraction `weight / total`.
fn fraction_of(weight: u128, total: u128) -> Frac
    requires weight { weight ≤ most }
    requires total { total ≤ most }
    requires positive { 0 < total }
    ensures { result ≡ lowest_terms (pos weight) (pos total) }
{
    Frac::new(weight as i128, total as i128).unwrap()
}

/// The text of `weight / total` in lowest terms.
fn ratio(alloc: Global, weight: u128, total: u128) -> Result<String, AllocError>
    requires weight { weight ≤ most }
    requires total { total ≤ most }
    requires positive { 0 < total }
    ensures { IfOk result (λ text. string_bytes text ≡ ratio_text weight total) }
{
    frac_string(alloc, fraction_of(weight, total))
}

/// Writes a pair of a number and this text.
fn write_texts(writer: &mut Writer, action: u32, weight: &str) -> Result<(), AllocError>
    ensures tokens { OnOk result (writer.new.tokens ≡ writer.old.tokens ++ begin_array ∷ number (decimal action) ∷ string weight.now ∷ end_array ∷ []) }
    ensures before { writer.new.before ≡ writer.old.before }
{
    writer.begin_array()?;
    writer.u64(u64::from(action))?;
    writer.string(weight)?;
    writer.end_array()
}

/// Writes the pair of a number and its weight.
fn write_pair(
    alloc: Global,
    writer: &mut Writer,
    number: u32,
    weight: u128,
    total: u128,
) -> Result<(), AllocError>
    requires weight { weight ≤ most }
    requires total { total ≤ most }
    requires positive { 0 < total }
    ensures tokens { OnOk result (writer.new.tokens ≡ writer.old.tokens ++ data_tokens (pair_data total number weight)) }
    ensures before { writer.new.before ≡ writer.old.before }
{
    let text = ratio(alloc, weight, total)?;
    write_texts(writer, number, text.as_str())
}

/// Writes the pairs of an information state.
fn write_pairs(
    alloc: Global,
    writer: &mut Writer,
    tree: &Tree,
    policy: &Policy,
    state: u32,
) -> Result<(), AllocError>
    requires fits { Fits tree.now policy.now }
    requires state { state < length (states_below tree.now.players tree.now.rows) }
    ensures tokens { OnOk result (writer.new.tokens ≡ writer.old.tokens
        ++ pairs_tokens (pairs_data (total policy.now state) (numbers_of tree.now.players tree.now.rows state) (weights_of policy.now state))) }
    ensures before { writer.new.before ≡ writer.old.before }
{
    let total = policy.total(state);
    for index in 0..tree.action_count(state) {
        let weight = policy.weight(state, index);
        write_pair(alloc, writer, tree.action_at(state, index), weight, total)?;
    }
    Ok(())
}

/// What is seen at an information state, which is printable ASCII in every game.
fn state_str(tree: &Tree, state: u32) -> &str
    requires game { IsGameTree tree.now }
    requires state { state < length (states_below tree.now.players tree.now.rows) }
    ensures { result.now ≡ (state_at tree.now.players tree.now.rows state).text }
{
    match str::from_utf8(tree.state_text(state)) {
        Ok(text) => text,
        Err(_) => unreachable!(),
    }
}

/// Writes the front of an entry, up to its first pair.
fn write_front(writer: &mut Writer) -> Result<(), AllocError>
    ensures tokens { OnOk result (writer.new.tokens ≡ writer.old.tokens ++ begin_object ∷ key (codes "actions") ∷ begin_array ∷ []) }
    ensures before { writer.new.before ≡ writer.old.before }
{
    writer.begin_object()?;
    writer.key("actions")?;
    writer.begin_array()
}

/// Writes what stands behind the pairs of an entry.
fn write_rest(writer: &mut Writer, player: u32, text: &str) -> Result<(), AllocError>
    ensures tokens { OnOk result (writer.new.tokens ≡ writer.old.tokens
        ++ end_array ∷ key (codes "player") ∷ number (decimal player) ∷ key (codes "state") ∷ string text.now ∷ end_object ∷ []) }
    ensures before { writer.new.before ≡ writer.old.before }
{
    writer.end_array()?;
    writer.key("player")?;
    writer.u64(u64::from(player))?;
    writer.key("state")?;
    writer.string(text)?;
    writer.end_object()
}

/// Writes the entry of an information state.
fn write_entry(
    alloc: Global,
    writer: &mut Writer,
    tree: &Tree,
    policy: &Policy,
    state: u32,
) -> Result<(), AllocError>
    requires game { IsGameTree tree.now }
    requires fits { Fits tree.now policy.now }
    requires state { state < length (states_below tree.now.players tree.now.rows) }
    ensures tokens { OnOk result (writer.new.tokens ≡ writer.old.tokens ++ data_tokens (entry_data_at tree.now policy.now state)) }
    ensures before { writer.new.before ≡ writer.old.before }
{
    write_front(writer)?;
    write_pairs(alloc, writer, tree, policy, state)?;
    write_rest(writer, tree.state_player(state), state_str(tree, state))
}

/// The text of the entry of an information state.
fn entry_bytes(
    alloc: Global,
    tree: &Tree,
    policy: &Policy,
    state: u32,
) -> Result<Vec<u8>, AllocError>
    requires game { IsGameTree tree.now }
    requires fits { Fits tree.now policy.now }
    requires state { state < length (states_below tree.now.players tree.now.rows) }
    ensures text { IfOk result (λ bytes. bytes.items ≡ compact_text (entry_data_at tree.now policy.now state)) }
    ensures utf8 { IfOk result (λ bytes. IsUtf8 bytes.items) }
{
    let mut writer = Writer::new(Vec::with_capacity(alloc, 256)?);
    write_entry(alloc, &mut writer, tree, policy, state)?;
    Ok(writer.into_inner())
}

/// Adds the comma before an entry, unless it is the first.
fn push_comma(state: u32, out: &mut Text) -> Result<(), NoMemory>
    ensures text { OnOk result (out.new ≡ out.old ++ comma_if (nat_lt 0 state)) }
    ensures utf8 { IsUtf8 out.old → OnOk result (IsUtf8 out.new) }
{
    if state > 0 { out.push(b",") } else { Ok(()) }
}

/// Adds the entry of an information state.
fn push_entry(
    alloc: Global,
    tree: &Tree,
    policy: &Policy,
    state: u32,
    out: &mut Text,
) -> Result<(), NoMemory>
    requires game { IsGameTree tree.now }
    requires fits { Fits tree.now policy.now }
    requires state { state < length (states_below tree.now.players tree.now.rows) }
    ensures text { OnOk result (out.new ≡ (out.old ++ comma_if (nat_lt 0 state)) ++ compact_text (entry_data_at tree.now policy.now state)) }
    ensures utf8 { IsUtf8 out.old → OnOk result (IsUtf8 out.new) }
{
    push_comma(state, out)?;
    let entry = entry_bytes(alloc, tree, policy, state)?;
    out.push(entry.as_slice())
}

/// Adds the entries of all information states. The tree is that of a game, whose texts are printable.
fn push_entries(alloc: Global, tree: &Tree, policy: &Policy, out: &mut Text) -> Result<(), NoMemory>
    requires { Fits tree.now policy.now }
    ensures text { OnOk result (out.new ++ 93 ∷ [] ≡ out.old ++ items_text false (items_of (entries_data tree.now policy.now))) }
    ensures utf8 { IsUtf8 out.old → OnOk result (IsUtf8 out.new) }
    ensures game { OnOk result (IsGameTree tree.now) }
{
    for state in 0..tree.states() {
        push_entry(alloc, tree, policy, state, out)?;
    }
    Ok(())
}

/// The whole text.
fn file_text(alloc: Global, tree: &Tree, policy: &Policy) -> Result<Text, NoMemory>
    requires { Fits tree.now policy.now }
    ensures text { IfOk result (λ text. text ≡ policy_text tree.now policy.now) }
    ensures utf8 { IfOk result (λ text. IsUtf8 text) }
    ensures game { IfOk result (λ text. IsGameTree tree.now) }
{
    let mut out = Text::new(alloc);
    out.push(b"{\"policy\":1,\"states\":[")?;
    push_entries(alloc, tree, policy, &mut out)?;
    out.push(b"]}\n")?;
    Ok(out)
}

/// Adds a text, and takes it as it is where there was none before.
fn append(text: Text, out: &mut Text) -> Result<(), NoMemory>
    ensures ok { OnOk result (out.new ≡ out.old ++ text) }
    ensures err { OnErr result (out.new ≡ out.old) }
{
    if out.bytes().is_empty() {
        *out = text;
        return Ok(());
    }
    out.push(text.bytes())
}

/// Adds the policy file of a policy: the value as compact JSON, then a line feed. The entries stand
/// in the order of the information states, each names all numbers, and the weights are fractions of
/// the total in lowest terms. Where no total has more than 18 digits, the file reads as the same
/// policy. After `NoMemory` the text is as it was.
pub fn write_policy(
    alloc: Global,
    tree: &Tree,
    policy: &Policy,
    out: &mut Text,
) -> Result<(), NoMemory>
    requires { Fits tree.now policy.now }
    ensures ok { OnOk result (out.new ≡ out.old ++ policy_text tree.now policy.now) }
    ensures err { OnErr result (out.new ≡ out.old) }
    ensures reads_back { OnOk result (HasShortWeights policy.now
        → policy_of tree.now (policy_text tree.now policy.now) ≡ Ok policy.now) }
{
    let text = file_text(alloc, tree, policy)?;
    append(text, out)
}
