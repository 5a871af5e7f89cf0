//! Policies that words say.
ghost use Rattle.std.specs.Prelude.{◌≡◌, IfOk, None};
ghost use Rattle.spiel_io.specs.Plan.{Agrees, BeginsAtMost, Follows};
ghost use Rattle.spiel_policy.specs.Profiles.{Fits};
ghost use Rattle.spiel_cli.specs.Policies.{chosen, file_profile, files_in, from_file, name_of, profile_of};
ghost use Rattle.spiel_cli.specs.Refusal.{kind_of};

use crate::files::read_file;
use crate::refusal::Refusal;
use spiel_frac::NoMemory;
use spiel_io::Shelf;
use spiel_policy::{Policy, first_action, read_policy, uniform};
use spiel_tree::Tree;
use std::alloc::Global;

/// A policy that each game has.
#[derive(Clone, Copy)]
pub enum NamedPolicy {
    /// `uniform`: whoever moves takes each number with the same probability.
    Uniform,
    /// `first`: whoever moves takes the first number.
    First,
}

/// The policy of this name.
#[tactic(auto, unfolding(crate::specs::Policies::name_of))]
fn read_name(word: &[u8]) -> Option<NamedPolicy>
    ensures { result ≡ name_of word.now }
{
    if word == b"uniform".as_slice() {
        return Some(NamedPolicy::Uniform);
    }
    if word == b"first".as_slice() {
        return Some(NamedPolicy::First);
    }
    None
}

/// The policy of a name, for a tree.
fn named_policy(alloc: Global, tree: &Tree, name: NamedPolicy) -> Result<Policy, NoMemory>
    ensures profile { IfOk result (λ policy. policy ≡ profile_of name tree.now) }
    ensures fits { IfOk result (λ policy. Fits tree.now policy) }
{
    match name {
        NamedPolicy::Uniform => uniform(alloc, tree),
        NamedPolicy::First => first_action(alloc, tree),
    }
}

/// The policy that the bytes of a file give for a tree.
fn policy_in(alloc: Global, tree: &Tree, bytes: &[u8]) -> Result<Policy, Refusal>
    ensures agrees { Agrees kind_of (file_profile tree.now bytes.now) None result }
    ensures fits { IfOk result (λ policy. Fits tree.now policy) }
{
    read_policy(alloc, tree, bytes).map_err(Refusal::PolicyFile)
}

/// The policy that a file gives for a tree.
fn policy_file<F: Shelf>(
    alloc: Global,
    shelf: &mut F,
    tree: &Tree,
    name: &[u8],
) -> Result<Policy, Refusal>
    ensures follows { Follows kind_of (from_file name.now tree.now) (F.state shelf.old) (F.state shelf.new) result }
    ensures fits { IfOk result (λ policy. Fits tree.now policy) }
    ensures begins { BeginsAtMost 1 0 (F.state shelf.old) (F.state shelf.new) }
{
    let text = read_file(alloc, shelf, name)?;
    policy_in(alloc, tree, text.bytes())
}

/// The policy that a word says, for a tree: `uniform`, `first`, or the name of a file.
pub fn choose_policy<F: Shelf>(
    alloc: Global,
    shelf: &mut F,
    tree: &Tree,
    word: &[u8],
) -> Result<Policy, Refusal>
    ensures follows { Follows kind_of (chosen word.now tree.now) (F.state shelf.old) (F.state shelf.new) result }
    ensures fits { IfOk result (λ policy. Fits tree.now policy) }
    ensures begins { BeginsAtMost (files_in word.now) 0 (F.state shelf.old) (F.state shelf.new) }
{
    match read_name(word) {
        Some(name) => Ok(named_policy(alloc, tree, name)?),
        None => policy_file(alloc, shelf, tree, word),
    }
}
