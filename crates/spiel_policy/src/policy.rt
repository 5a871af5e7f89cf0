//! A behaviour policy: whole weights for the numbers of each information state.
ghost use Rattle.std.specs.Prelude.{◌≡◌, ◌<◌, length};
ghost use Rattle.spiel_policy.specs.Profiles.{AreReduced, total, weight, weights_of};
ghost use Rattle.spiel_policy.specs.Kept.{KeepsTotals};

use spiel_frac::{List, Packed};
use std::marker::Model;

/// A behaviour policy of each player: whole weights of the numbers of each information state, in the
/// order of the states and of the numbers. A number is chosen with its weight over the total of its
/// state. The total is the least common multiple of the denominators of these fractions, and it is
/// at most 2^127 - 1.
#[derive(Debug, Drop)]
pub struct Policy {
    weights: Packed<u128>,
    totals: List<u128>,
}

impl Model for Policy {
    ghost use Rattle.spiel_policy.specs.Profiles.{Profile};
    ghost use Rattle.spiel_policy.specs.Kept.{KeepsTotals};

    ghost Value = { Profile };

    ghost view = { λ policy. policy.weights };

    ghost invariant = { λ policy. KeepsTotals policy.weights policy.totals };
}

impl Policy {
    /// A policy of these weights.
    pub(crate) fn new(weights: Packed<u128>, totals: List<u128>) -> Policy
        requires { KeepsTotals weights totals }
        ensures { result ≡ weights }
    {
        Policy { weights, totals }
    }

    /// The weight of the number at an index, at an information state.
    pub fn weight(&self, state: u32, index: u32) -> u128
        requires state { state < length self.now }
        requires index { index < length (weights_of self.now state) }
        ensures { result ≡ weight self.now state index }
    {
        self.weights.at(state as usize)[index as usize]
    }

    /// The sum of the weights at an information state, at least 1.
    pub fn total(&self, state: u32) -> u128
        requires { state < length self.now }
        ensures total { result ≡ total self.now state }
        ensures reduced { AreReduced (weights_of self.now state) }
    {
        self.totals.items()[state as usize]
    }
}
