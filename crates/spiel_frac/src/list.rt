//! A list that grows at its end, which contracts see as its items.
ghost use Rattle.std.specs.Prelude.{◌≡◌, [], ◌∷◌, ◌++◌, IfOk, OnOk, OnErr, MatchOption, List};

use crate::memory::NoMemory;
use std::alloc::Global;
use std::marker::Model;

/// Items that grow at their end. Contracts see it as the list of the items, whatever its capacity.
/// It keeps its allocator, so that only `new` takes one.
#[derive(Debug, Drop)]
pub struct List<T> {
    items: Vec<T>,
}

impl<T> Model for List<T> {
    ghost use Rattle.std.specs.Prelude.{List};
    ghost use Rattle.std.specs.Coded.{coded_list};

    ghost Value = { List T };

    ghost coded = { coded_list T.code };

    ghost view = { λ list. list.items.items };
}

impl<T> List<T> {
    /// The empty list, which takes no memory yet.
    pub fn new(alloc: Global) -> List<T>
        ensures { result ≡ [] }
    {
        List {
            items: Vec::new(alloc),
        }
    }

    /// All items in order.
    pub fn items(&self) -> &[T]
        ensures { result.now ≡ self.now }
    {
        self.items.as_slice()
    }

    /// Exchanges the last item for this one. Where there is none, both are as they were.
    pub fn swap_last(&mut self, item: &mut T)
        ensures last { (front : List T) (last : T) → self.old ≡ front ++ last ∷ [] → (self.new ≡ front ++ item.old ∷ []) × (item.new ≡ last) }
        ensures none { self.old ≡ [] → (self.new ≡ []) × (item.new ≡ item.old) }
    {
        if let Some(last) = self.items.last_mut() {
            std::mem::swap(last, item);
        }
    }
}

impl<T: Drop> List<T> {
    /// Adds the item at the end. After `NoMemory`, when there is no room for it, the list is as it
    /// was, and the item is dropped.
    pub fn push(&mut self, item: T) -> Result<(), NoMemory>
        ensures ok { OnOk result (self.new ≡ self.old ++ item ∷ []) }
        ensures err { OnErr result (self.new ≡ self.old) }
    {
        self.items.push(item)?;
        Ok(())
    }

    /// Takes the last item away and answers it, if there is one. Its room is kept for the next.
    pub fn pop(&mut self) -> Option<T>
        ensures taken { MatchOption result ((self.old ≡ []) × (self.new ≡ [])) (λ item. self.old ≡ self.new ++ item ∷ []) }
        ensures last { (front : List T) (item : T) → self.old ≡ front ++ item ∷ [] → (self.new ≡ front) × (result ≡ Some item) }
    {
        self.items.pop()
    }

    /// Takes all items away, and keeps their room for the next.
    pub fn clear(&mut self)
        ensures { self.new ≡ [] }
    {
        self.items.clear();
    }
}

impl<T: Copy> List<T> {
    /// A second list of the same items.
    pub fn copy(&self, alloc: Global) -> Result<List<T>, NoMemory>
        ensures { IfOk result (λ list. list ≡ self.now) }
    {
        let mut list = List::new(alloc);
        list.extend(self.items())?;
        Ok(list)
    }

    /// Adds these items at the end. After `NoMemory`, when there is no room for them all, the list
    /// is as it was.
    pub fn extend(&mut self, items: &[T]) -> Result<(), NoMemory>
        ensures ok { OnOk result (self.new ≡ self.old ++ items.now) }
        ensures err { OnErr result (self.new ≡ self.old) }
    {
        self.items.extend_from_slice(items)?;
        Ok(())
    }
}
