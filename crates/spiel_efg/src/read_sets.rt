//! The sets that nodes mention.
ghost use Rattle.std.specs.Prelude.{◌≡◌, ◌<◌, ◌≤◌, ◌+◌, ◌^◌, [], ◌∷◌, ◌++◌, length, None, Some, Ok, MatchResult, IfOk, IfSome};
ghost use Rattle.spiel_efg.specs.Sets.{set_at};
ghost use Rattle.spiel_efg.specs.ReadingTokens.{IsComputed};
ghost use Rattle.spiel_efg.specs.ReadingNodes.{are_same_actions, is_same_action, is_same_fraction, place_of_set, repeats_actions, with_first, with_set};

use crate::parts::{EfgAction, EfgSet};
use crate::read_fault::EfgFault;
use crate::read_mentions::SetMention;
use crate::read_weights::test_actions;
use crate::seen::Keys;
use spiel_frac::{Frac, List, NoMemory};
use std::alloc::Global;
use std::marker::Model;

/// Sets in the order of first mention. Contracts see the list of them.
#[derive(Debug, Drop)]
pub(crate) struct Sets {
    keys: Keys,
    sets: List<EfgSet>,
}

impl Model for Sets {
    ghost use Rattle.std.specs.Prelude.{◌≡◌, List, map};
    ghost use Rattle.spiel_efg.specs.Sets.{key_of};
    ghost use Rattle.spiel_efg.specs.declared.parts.EfgSet.{EfgSet};

    ghost Value = { List EfgSet };

    ghost view = { λ known. known.sets };

    ghost invariant = { λ known. known.keys ≡ map key_of known.sets };
}

impl Sets {
    /// No set.
    pub(crate) fn new(alloc: Global) -> Sets
        ensures { result ≡ [] }
    {
        Sets {
            keys: Keys::new(alloc),
            sets: List::new(alloc),
        }
    }

    /// All sets in order.
    pub(crate) fn items(&self) -> &[EfgSet]
        ensures { result.now ≡ self.now }
    {
        self.sets.items()
    }

    /// The place of a set, if it was mentioned.
    fn find(&self, player: Option<u32>, number: u32) -> Option<usize>
        ensures place { result ≡ place_of_set self.now player number }
        ensures within { IfSome result (λ place. place < length self.now) }
    {
        self.keys.find(player, number)
    }

    /// The sets with one more at the end, which is new.
    fn with(self, one: EfgSet) -> Result<Sets, NoMemory>
        requires { place_of_set self one.player one.number ≡ None }
        ensures { IfOk result (λ more. more ≡ self ++ one ∷ []) }
    {
        let Sets { mut keys, mut sets } = self;
        keys.note(one.player, one.number)?;
        sets.push(one)?;
        Ok(Sets { keys, sets })
    }

    /// The list of the sets.
    pub(crate) fn into_list(self) -> List<EfgSet>
        ensures { result ≡ self }
    {
        self.sets
    }
}

/// Whether two fractions are the same.
pub(crate) fn is_same_fraction(a: Frac, b: Frac) -> bool
    ensures { result ≡ is_same_fraction a b }
{
    a.num() == b.num() && a.den() == b.den()
}

fn is_same_action(a: &EfgAction, b: &EfgAction) -> bool
    ensures { result ≡ is_same_action a.now b.now }
{
    a.name.bytes() == b.name.bytes() && is_same_fraction(a.weight, b.weight)
}

// Whether these are as many actions, with the same names and probabilities.
fn are_same_actions(a: &[EfgAction], b: &[EfgAction]) -> bool
    ensures { result ≡ are_same_actions a.now b.now }
{
    if a.len() != b.len() {
        return false;
    }
    for index in 0..a.len() {
        if !is_same_action(&a[index], &b[index]) {
            return false;
        }
    }
    true
}

// Whether an action list of a later mention, if there is one, is that of the first.
fn repeats_actions(actions: &[EfgAction], again: &Option<List<EfgAction>>) -> bool
    ensures { result ≡ repeats_actions actions.now again.now }
{
    match again {
        Some(again) => are_same_actions(again.items(), actions),
        None => true,
    }
}

// The sets after a first mention.
fn with_first(alloc: Global, node: u32, sets: Sets, mention: SetMention) -> Result<Sets, EfgFault>
    requires { place_of_set sets mention.player mention.number ≡ None }
    ensures { MatchResult result
        (λ more. with_first node sets mention mention.actions ≡ Ok more)
        (IsComputed (with_first node sets mention mention.actions)) }
{
    let SetMention {
        player,
        number,
        name,
        actions,
    } = mention;
    let Some(actions) = actions else {
        return Err(EfgFault::SetClash { node });
    };
    test_actions(alloc, node, player, actions.items())?;
    let more = sets.with(EfgSet {
        player,
        number,
        name,
        actions,
    })?;
    Ok(more)
}

/// The place of a set that a node mentions, and the sets after that.
#[tactic(auto, unfolding(crate::specs::ReadingNodes::with_set))]
pub(crate) fn with_set(
    alloc: Global,
    node: u32,
    sets: Sets,
    mention: SetMention,
) -> Result<(u32, Sets), EfgFault>
    requires { length sets < 2 ^ 32 }
    ensures answer { MatchResult result
        (λ found. with_set node sets mention ≡ Ok found)
        (IsComputed (with_set node sets mention)) }
    ensures within { IfOk result (λ found. found.0 < length found.1) }
    ensures count { IfOk result (λ found. length found.1 ≤ length sets + 1) }
{
    match sets.find(mention.player, mention.number) {
        Some(place) => {
            if !repeats_actions(sets.items()[place].actions.items(), &mention.actions) {
                return Err(EfgFault::SetClash { node });
            }
            Ok((place as u32, sets))
        }
        None => {
            let place = sets.items().len() as u32;
            let more = with_first(alloc, node, sets, mention)?;
            Ok((place, more))
        }
    }
}
