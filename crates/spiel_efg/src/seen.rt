//! What was seen of sets and outcomes, each once.
ghost use Rattle.std.specs.Prelude.{◌≡◌, ◌<◌, [], ◌∷◌, ◌++◌, length, slice_index, not, true, IfOk, IfSome, position, ◌==◌};
ghost use Rattle.std.specs.List.{list_any};
ghost use Rattle.spiel_efg.specs.Mentions.{place_of, with_number};
ghost use Rattle.spiel_efg.specs.Sets.{is_same_key};

use indexmap::IndexSet;
use spiel_frac::NoMemory;
use std::alloc::Global;
use std::marker::Model;

/// By what a set is known: a player, or chance, and a number.
#[derive(Clone, Copy, Debug, PartialEq, Eq, Hash)]
struct SetKey {
    player: Option<u32>,
    number: u32,
}

/// Keys of sets, each once, in the order in which they were seen.
#[derive(Debug, Drop)]
pub(crate) struct Keys {
    keys: IndexSet<SetKey>,
}

impl Model for Keys {
    ghost use Rattle.std.specs.Prelude.{List};
    ghost use Rattle.spiel_efg.specs.Sets.{Key};
    ghost use Rattle.spiel_efg.specs.Seen.{pairs};

    ghost Value = { List Key };

    ghost view = { λ seen. pairs seen.keys.keys };
}

impl Keys {
    /// No key, which takes no memory yet.
    pub(crate) fn new(alloc: Global) -> Keys
        ensures { result ≡ [] }
    {
        Keys {
            keys: IndexSet::new(alloc),
        }
    }

    /// Notes a key, and answers whether it is new.
    pub(crate) fn note(&mut self, player: Option<u32>, number: u32) -> Result<bool, NoMemory>
        ensures is_new { IfOk result (λ is_new. is_new ≡ not (list_any (is_same_key (player, number)) self.old)) }
        ensures keys { IfOk result (λ is_new. is_new ≡ true → self.new ≡ self.old ++ (player, number) ∷ []) }
    {
        match self.keys.insert_full(SetKey { player, number }) {
            Ok((_, is_new)) => Ok(is_new),
            Err(_) => Err(NoMemory),
        }
    }
}

impl Keys {
    /// The place of a key, if it was noted.
    pub(crate) fn find(&self, player: Option<u32>, number: u32) -> Option<usize>
        ensures place { result ≡ position (is_same_key (player, number)) self.now }
        ensures within { IfSome result (λ place. place < length self.now) }
    {
        self.keys.get_index_of(&SetKey { player, number })
    }
}

/// Numbers, each once, in the order in which they were first seen.
#[derive(Debug, Drop)]
pub(crate) struct Numbers {
    keys: IndexSet<u32>,
}

impl Model for Numbers {
    ghost use Rattle.std.specs.Prelude.{List, ℕ};

    ghost Value = { List ℕ };

    ghost view = { λ seen. seen.keys.keys };
}

impl Numbers {
    /// No number, which takes no memory yet.
    pub(crate) fn new(alloc: Global) -> Numbers
        ensures { result ≡ [] }
    {
        Numbers {
            keys: IndexSet::new(alloc),
        }
    }

    /// How many numbers were seen.
    pub(crate) fn len(&self) -> usize
        ensures { result ≡ length self.now }
    {
        self.keys.len()
    }

    /// The number that was seen at a place.
    pub(crate) fn at(&self, place: usize) -> u32
        requires { place < length self.now }
        ensures { result ≡ slice_index self.now place }
    {
        self.keys[place]
    }

    /// Notes a number, which goes last if it wasn't seen.
    pub(crate) fn note(&mut self, number: u32) -> Result<(), NoMemory>
        ensures { IfOk result (λ _. self.new ≡ with_number self.old number) }
    {
        match self.keys.insert_full(number) {
            Ok(_) => Ok(()),
            Err(_) => Err(NoMemory),
        }
    }

    /// The place at which a number was first seen, or how many were seen where it wasn't.
    pub(crate) fn place(&self, number: u32) -> usize
        ensures { result ≡ place_of self.now number }
    {
        self.keys.get_index_of(&number).unwrap_or(self.keys.len())
    }

    /// The place at which a number was first seen, if it was.
    pub(crate) fn find(&self, number: u32) -> Option<usize>
        ensures place { result ≡ position (λ seen. number == seen) self.now }
        ensures within { IfSome result (λ place. place < length self.now) }
    {
        self.keys.get_index_of(&number)
    }
}
