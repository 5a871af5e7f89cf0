//! A list of lists, which stand one after another in one place.
ghost use Rattle.std.specs.Prelude.{◌≡◌, ◌<◌, ◌≤◌, [], ◌∷◌, ◌++◌, length, slice_index, slice_index_or, OnOk, OnErr, IfSome, ◌+◌};
ghost use Rattle.spiel_frac.specs.Packed.{pieces, AreEnds};

use crate::memory::NoMemory;
use std::alloc::Global;
use std::marker::Model;

/// Lists, one after another in one place, so that none of them takes memory of its own, with room
/// for 2^32 - 1 items in all. Contracts see a list of lists, whatever the capacity. It keeps its
/// allocator, so that only `new` takes one.
#[derive(Debug, Drop)]
pub struct Packed<T> {
    items: Vec<T>,
    ends: Vec<u32>,
}

impl<T> Model for Packed<T> {
    ghost use Rattle.std.specs.Prelude.{List, length};
    ghost use Rattle.std.specs.Coded.{coded_list};
    ghost use Rattle.spiel_frac.specs.Packed.{pieces, AreEnds};

    ghost Value = { List (List T) };

    ghost coded = { coded_list (coded_list T.code) };

    ghost view = { λ lists. pieces 0 lists.ends.items lists.items.items };

    ghost invariant = { λ lists. AreEnds 0 lists.ends.items (length lists.items.items) };
}

impl<T> Packed<T> {
    /// No list, which takes no memory yet.
    pub fn new(alloc: Global) -> Packed<T>
        ensures { result ≡ [] }
    {
        Packed {
            items: Vec::new(alloc),
            ends: Vec::new(alloc),
        }
    }

    /// The number of lists.
    #[tactic(auto, using(crate::proofs::Pieces::count_of_pieces))]
    pub fn len(&self) -> usize
        ensures { result ≡ length self.now }
    {
        self.ends.len()
    }

    /// The list at the place `k`, where 0 is that of the first.
    #[tactic(auto, using(crate::proofs::Pieces::count_of_pieces))]
    pub fn at(&self, k: usize) -> &[T]
        requires { k < length self.now }
        ensures { result.now ≡ slice_index_or self.now k [] }
    {
        piece(self.items.as_slice(), self.ends.as_slice(), k)
    }
}

impl<T: Copy> Packed<T> {
    /// Adds the list at the end. After `NoMemory`, when there is no room for it, the lists are as
    /// they were.
    #[tactic(auto, using(crate::proofs::Pieces::ends_push, crate::proofs::Pieces::pieces_push))]
    pub fn push(&mut self, list: &[T]) -> Result<(), NoMemory>
        ensures ok { OnOk result (self.new ≡ self.old ++ list.now ∷ []) }
        ensures err { OnErr result (self.new ≡ self.old) }
    {
        let Some(end) = end_after(self.items.len(), list.len()) else {
            return Err(NoMemory);
        };
        self.ends.reserve(1)?;
        self.items.extend_from_slice(list)?;
        self.ends.push(end)?;
        Ok(())
    }
}

// Where so many items more end, if there is room for them.
fn end_after(count: usize, more: usize) -> Option<u32>
    ensures { IfSome result (λ end. end ≡ count + more) }
{
    u32::try_from(count.checked_add(more)?).ok()
}

// The list at a place, whose items stand behind those of the list before it.
#[tactic(auto, using(crate::proofs::Pieces::piece_rises, crate::proofs::Pieces::piece_ends, crate::proofs::Pieces::pieces_at))]
fn piece<'a, T>(items: &'a [T], ends: &[u32], k: usize) -> &'a [T]
    requires place { k < length ends.now }
    requires ends { AreEnds 0 ends.now (length items.now) }
    ensures { result.now ≡ slice_index_or (pieces 0 ends.now items.now) k [] }
{
    let from = start_of(ends, k);
    &items[from..ends[k] as usize]
}

// Where the list at a place begins: where the one before it ends.
fn start_of(ends: &[u32], k: usize) -> usize
    requires { k ≤ length ends.now }
    ensures { result ≡ slice_index (0 ∷ ends.now) k }
{
    if k == 0 { 0 } else { ends[k - 1] as usize }
}
