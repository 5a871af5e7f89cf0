//! What waits for the nodes that are still to come.
ghost use Rattle.std.specs.Prelude.{◌≡◌, ◌+◌, ◌<◌, ◌^◌, [], ◌∷◌, ◌++◌, length, replicate, OnOk, MatchOption};

use spiel_frac::NoMemory;
use std::alloc::Global;
use std::marker::Model;

/// A value for each tree that is still to come. Contracts see the list of them, that of the nearest
/// tree first. It keeps its allocator, so that only `new` takes one.
#[derive(Debug, Drop)]
pub(crate) struct Waiting<T> {
    items: Vec<T>,
}

impl<T> Model for Waiting<T> {
    ghost use Rattle.std.specs.Prelude.{List, reverse};

    ghost Value = { List T };

    ghost view = { λ waiting. reverse waiting.items.items };
}

impl<T> Waiting<T> {
    /// Nothing, which takes no memory yet.
    pub(crate) fn new(alloc: Global) -> Waiting<T>
        ensures { result ≡ [] }
    {
        Waiting {
            items: Vec::new(alloc),
        }
    }
}

impl<T> Waiting<T> {
    /// How many values there are.
    pub(crate) fn len(&self) -> usize
        ensures { result ≡ length self.now }
    {
        self.items.len()
    }
}

impl<T: Copy> Waiting<T> {
    /// Puts so many copies of a value in front.
    pub(crate) fn put(&mut self, value: T, count: usize) -> Result<(), NoMemory>
        requires { length self.old + count < 2 ^ 63 }
        ensures { OnOk result (self.new ≡ replicate count value ++ self.old) }
    {
        let len = self.items.as_slice().len();
        self.items.resize(len + count, value)?;
        Ok(())
    }

    /// Takes the first value, if there is one.
    pub(crate) fn next(&mut self) -> Option<T>
        ensures { MatchOption result ((self.old ≡ []) × (self.new ≡ [])) (λ value. self.old ≡ value ∷ self.new) }
    {
        self.items.pop()
    }
}
