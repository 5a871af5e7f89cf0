//! The rows of a tree, one for each history in preorder, kept in columns.
ghost use Rattle.std.specs.Prelude.{◌≡◌, ◌<◌, ◌≤◌, ◌^◌, [], ◌∷◌, length, replicate, OnOk, IfOk, IsTrue, IsSome, ◌↔◌};
ghost use Rattle.spiel_tree.specs.Flat.{AddsRows, IsBefore, IsBuilt, IsMoverBelow, number_with, rows_of, shown, texts_with, way_to};
ghost use Rattle.spiel_tree.specs.Shown.{node_shown};

use crate::node::Shown;
use crate::texts::Texts;
use spiel_api::Place;
use spiel_frac::{List, NoMemory, Packed, Text};
use std::alloc::Global;

/// A history: its parent, the place of its last number there, and at a move the number of the
/// mover's text among those of that player.
#[derive(Clone, Copy)]
pub(crate) struct FlatRow {
    pub parent: Option<u32>,
    pub step: u32,
    pub place: Place,
    pub text: u32,
}

/// Rows in preorder, with their lists in columns, and the texts of each player.
#[derive(Drop)]
pub(crate) struct Rows {
    pub flat: List<FlatRow>,
    pub numbers: Packed<u32>,
    pub weights: Packed<u64>,
    pub pays: Packed<i64>,
    pub texts: Vec<Texts>,
    /// How many bytes of texts were made, those that were there already among them.
    pub text_bytes: u64,
}

/// No texts yet, for each player.
fn no_texts(alloc: Global, players: u32) -> Result<Vec<Texts>, NoMemory>
    ensures { IfOk result (λ texts. texts.items ≡ replicate players []) }
{
    let mut texts = Vec::new(alloc);
    for _player in 0..players {
        texts.push(Texts::new(alloc))?;
    }
    Ok(texts)
}

/// The number of a mover's text, which is added if it is new. There is room for 2^32 texts.
fn number_text(
    alloc: Global,
    texts: &mut Vec<Texts>,
    place: Place,
    info: &Text,
) -> Result<u32, NoMemory>
    requires { IsMoverBelow (length texts.old.items) place }
    ensures texts { OnOk result (texts.new.items ≡ texts_with texts.old.items place info.now) }
    ensures number { IfOk result (λ n. n ≡ number_with texts.old.items place info.now) }
{
    match place {
        Place::Move(player) => {
            let number = texts[player as usize].number(alloc, info.bytes())?;
            match u32::try_from(number) {
                Ok(number) => Ok(number),
                Err(_) => Err(NoMemory),
            }
        }
        _ => Ok(0),
    }
}

impl Rows {
    /// No rows yet.
    pub fn new(alloc: Global, players: u32) -> Result<Rows, NoMemory>
        ensures rows { IfOk result (λ t. rows_of t ≡ []) }
        ensures built { IfOk result (λ t. IsBuilt t) }
        ensures players { IfOk result (λ t. length t.texts.items ≡ players) }
    {
        let texts = no_texts(alloc, players)?;
        Ok(Rows {
            flat: List::new(alloc),
            numbers: Packed::new(alloc),
            weights: Packed::new(alloc),
            pays: Packed::new(alloc),
            texts,
            text_bytes: 0,
        })
    }

    /// Whether there are so many rows already.
    pub fn is_full(&self, limit: u32) -> bool
        requires { IsBuilt self.now }
        ensures { IsTrue result ↔ limit ≤ length (rows_of self.now) }
    {
        self.flat.items().len() >= limit as usize
    }

    /// Whether more bytes of texts were made than there may be, where there may be only so many.
    pub fn is_longer(&self, most: Option<u64>) -> bool
        ensures { IsTrue result → IsSome most }
    {
        match most {
            Some(most) => self.text_bytes > most,
            None => false,
        }
    }

    /// How many rows there are.
    pub fn count(&self) -> u32
        requires built { IsBuilt self.now }
        requires fits { length (rows_of self.now) < 2 ^ 32 }
        ensures { result ≡ length (rows_of self.now) }
    {
        self.flat.items().len() as u32
    }

    /// Adds a row.
    pub fn add(
        &mut self,
        alloc: Global,
        parent: Option<u32>,
        step: u32,
        node: &Shown,
    ) -> Result<(), NoMemory>
        requires built { IsBuilt self.old }
        requires parent { IsBefore parent (length (rows_of self.old)) }
        requires mover { IsMoverBelow (length self.old.texts.items) node.now.place }
        requires shown { shown node.now.place node.now.info ≡ node.now.info }
        ensures { OnOk result (AddsRows self.old self.new (record { way = way_to (rows_of self.old) parent step; here = node_shown node.now } ∷ [])) }
    {
        let place = node.place;
        let text = number_text(alloc, &mut self.texts, place, &node.info)?;
        self.text_bytes = self
            .text_bytes
            .saturating_add(node.info.bytes().len() as u64);
        self.numbers.push(node.numbers.items())?;
        self.weights.push(node.weights.items())?;
        self.pays.push(node.pays.items())?;
        self.flat.push(FlatRow {
            parent,
            step,
            place,
            text,
        })
    }
}
