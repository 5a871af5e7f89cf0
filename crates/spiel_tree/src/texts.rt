//! Texts, numbered in the order in which they are first seen.
ghost use Rattle.std.specs.Prelude.{◌≡◌, ◌<◌, [], length, Contains, OnOk, OnErr, IfOk, IfSome, IfNone};
ghost use Rattle.spiel_tree.specs.FirstSeen.{with_text, place_of_text, text_at};

use indexmap::IndexSet;
use spiel_frac::NoMemory;
use std::alloc::Global;
use std::marker::Model;

/// Texts, each once, numbered from 0 in the order in which they were first seen. Contracts see
/// the list of the texts in that order. It keeps its allocator, so that only `new` takes one.
#[derive(Drop)]
pub struct Texts {
    keys: IndexSet<Vec<u8>>,
}

impl Model for Texts {
    ghost use Rattle.std.specs.Prelude.{List, ℕ, map};

    ghost Value = { List (List ℕ) };

    ghost view = { λ texts. map (λ key. key.items) texts.keys.keys };
}

impl Texts {
    /// No text, which takes no memory yet.
    pub fn new(alloc: Global) -> Texts
        ensures { result ≡ [] }
    {
        Texts {
            keys: IndexSet::new(alloc),
        }
    }

    /// The number of texts.
    pub fn len(&self) -> usize
        ensures { result ≡ length self.now }
    {
        self.keys.len()
    }

    /// The text with the number `n`.
    pub fn at(&self, n: usize) -> &[u8]
        requires { n < length self.now }
        ensures { result.now ≡ text_at self.now n }
    {
        self.keys[n].as_slice()
    }

    /// The number of a text, or `None` if it wasn't seen.
    pub fn find(&self, text: &[u8]) -> Option<usize>
        ensures there { IfSome result (λ n. text_at self.now n ≡ text.now) }
        ensures within { IfSome result (λ n. n < length self.now) }
        ensures number { IfSome result (λ n. n ≡ place_of_text self.now text.now) }
        ensures none { IfNone result (Contains self.now text.now → ⊥) }
    {
        self.keys.get_index_of(text)
    }

    /// The number of a text, which is added behind the others if it wasn't seen. After `NoMemory`,
    /// when there is no room for it, the texts are as they were.
    pub fn number(&mut self, alloc: Global, text: &[u8]) -> Result<usize, NoMemory>
        ensures texts { OnOk result (self.new ≡ with_text self.old text.now) }
        ensures number { IfOk result (λ n. n ≡ place_of_text self.old text.now) }
        ensures within { IfOk result (λ n. n < length self.new) }
        ensures err { OnErr result (self.new ≡ self.old) }
    {
        if let Some(number) = self.find(text) {
            return Ok(number);
        }
        let text = Vec::from_slice(alloc, text)?;
        let (number, _) = match self.keys.insert_full(text) {
            Ok(answer) => answer,
            Err(_) => return Err(NoMemory),
        };
        Ok(number)
    }
}
