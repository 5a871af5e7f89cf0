//! A tree and a policy with what best responses are made from, as one value to read.
ghost use Rattle.std.specs.Prelude.{◌≡◌, ℕ, ◌+◌, ◌<◌, ◌≤◌, length, pos, slice_index_or};
ghost use Rattle.spiel_response.specs.BestResponses.{count_at};
ghost use Rattle.spiel_response.specs.SlotTable.{AreCollected, IsParentSlot, slot_count, slot_start, state_count};

use crate::gathering::Gathered;
use spiel_policy::Policy;
use spiel_tree::Tree;
use std::marker::Model;

/// A tree and a policy for it, with what responses are made from.
#[derive(Drop)]
pub(crate) struct SlotTable<'a> {
    pub tree: &'a Tree,
    pub policy: &'a Policy,
    pub gathered: Gathered,
}

impl<'a> Model for SlotTable<'a> {
    ghost use Rattle.spiel_response.specs.Values.{Judged};
    ghost use Rattle.spiel_response.specs.SlotTable.{IsSlotTable};

    ghost Value = { Judged };

    ghost view = { λ t. record { tree = t.tree.now; profile = t.policy.now } };

    ghost invariant = { λ t. IsSlotTable (record { tree = t.tree.now; profile = t.policy.now }) t.gathered.starts t.gathered.sums.items t.gathered.parents.items };
}

impl<'a> SlotTable<'a> {
    /// The tree.
    pub fn tree(&self) -> &Tree
        ensures { result.now ≡ self.now.tree }
    {
        self.tree
    }

    /// The slot of the first number of an information state.
    pub fn start(&self, state: u32) -> usize
        requires { state < state_count self.now }
        ensures start { result ≡ slot_start self.now state }
        ensures within { slot_start self.now state + count_at self.now state ≤ slot_count self.now }
    {
        self.gathered.starts.items()[state as usize]
    }

    /// How many numbers there are at an information state.
    pub fn count(&self, state: u32) -> u32
        requires { state < state_count self.now }
        ensures { result ≡ count_at self.now state }
    {
        let tree = self.tree;
        tree.action_count(state)
    }

    /// The slot of the last own step before an information state.
    pub fn parent(&self, state: u32, player: u32) -> usize
        requires player { player < self.now.tree.players }
        requires state { state < state_count self.now }
        ensures { IsParentSlot self.now player state result }
    {
        self.gathered.parents[state as usize]
    }

    /// Copies the sums of all slots.
    pub fn copy_sums(&self, sums: &mut [i128])
        requires { length sums.old ≡ slot_count self.now }
        ensures { AreCollected self.now self.now.tree.players sums.new }
    {
        copy(self.gathered.sums.as_slice(), sums);
    }
}

/// Copies numbers.
fn copy(from: &[i128], to: &mut [i128])
    requires { length to.old ≡ length from.now }
    ensures { (k : ℕ) → k < length from.now → slice_index_or to.new k (pos 0) ≡ slice_index_or from.now k (pos 0) }
{
    for at in 0..from.len() {
        to[at] = from[at];
    }
}
