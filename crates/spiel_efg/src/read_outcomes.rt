//! The outcomes that nodes mention.
ghost use Rattle.std.specs.Prelude.{◌≡◌, ◌<◌, [], ◌∷◌, ◌++◌, length, None, Some, Ok, MatchResult, IfOk, IfSome};
ghost use Rattle.spiel_efg.specs.ReadingTokens.{IsComputed};
ghost use Rattle.spiel_efg.specs.ReadingNodes.{are_same_fractions, place_of_outcome, repeats_pays, with_first_pays, with_known, with_outcome, without_pays};

use crate::parts::EfgOutcome;
use crate::read_fault::EfgFault;
use crate::read_mentions::OutcomeMention;
use crate::read_sets::is_same_fraction;
use crate::seen::Numbers;
use spiel_frac::{Frac, List, NoMemory};
use std::alloc::Global;
use std::marker::Model;

/// Outcomes in the order of first mention. Contracts see the list of them.
#[derive(Debug, Drop)]
pub(crate) struct Outcomes {
    numbers: Numbers,
    outcomes: List<EfgOutcome>,
}

impl Model for Outcomes {
    ghost use Rattle.std.specs.Prelude.{◌≡◌, List, map};
    ghost use Rattle.spiel_efg.specs.declared.parts.EfgOutcome.{EfgOutcome};

    ghost Value = { List EfgOutcome };

    ghost view = { λ known. known.outcomes };

    ghost invariant = { λ known. known.numbers ≡ map (λ outcome. outcome.number) known.outcomes };
}

impl Outcomes {
    /// No outcome.
    pub(crate) fn new(alloc: Global) -> Outcomes
        ensures { result ≡ [] }
    {
        Outcomes {
            numbers: Numbers::new(alloc),
            outcomes: List::new(alloc),
        }
    }

    /// The place of an outcome, if it was mentioned.
    fn find(&self, number: u32) -> Option<usize>
        ensures place { result ≡ place_of_outcome self.now number }
        ensures within { IfSome result (λ place. place < length self.now) }
    {
        self.numbers.find(number)
    }

    /// All outcomes in order.
    fn items(&self) -> &[EfgOutcome]
        ensures { result.now ≡ self.now }
    {
        self.outcomes.items()
    }

    /// The outcomes with one more at the end, which is new.
    fn with(self, one: EfgOutcome) -> Result<Outcomes, NoMemory>
        requires { place_of_outcome self one.number ≡ None }
        ensures { IfOk result (λ more. more ≡ self ++ one ∷ []) }
    {
        let Outcomes {
            mut numbers,
            mut outcomes,
        } = self;
        numbers.note(one.number)?;
        outcomes.push(one)?;
        Ok(Outcomes { numbers, outcomes })
    }

    /// The list of the outcomes.
    pub(crate) fn into_list(self) -> List<EfgOutcome>
        ensures { result ≡ self }
    {
        self.outcomes
    }
}

// Whether these are as many payoffs, and the same.
fn are_same_fractions(a: &[Frac], b: &[Frac]) -> bool
    ensures { result ≡ are_same_fractions a.now b.now }
{
    if a.len() != b.len() {
        return false;
    }
    for index in 0..a.len() {
        if !is_same_fraction(a[index], b[index]) {
            return false;
        }
    }
    true
}

// Whether payoffs of a later mention, if there are any, are those of the first.
fn repeats_pays(pays: &[Frac], again: &Option<List<Frac>>) -> bool
    ensures { result ≡ repeats_pays pays.now again.now }
{
    match again {
        Some(again) => are_same_fractions(again.items(), pays),
        None => true,
    }
}

// The outcomes after a mention of outcome 0, which is none.
fn without_pays(
    node: u32,
    outcomes: Outcomes,
    pays: &Option<List<Frac>>,
) -> Result<Outcomes, EfgFault>
    ensures { MatchResult result
        (λ same. without_pays node outcomes pays.now ≡ Ok same)
        (IsComputed (without_pays node outcomes pays.now)) }
{
    match pays {
        Some(_) => Err(EfgFault::OutcomeClash { node }),
        None => Ok(outcomes),
    }
}

// The outcomes after a first mention.
fn with_first_pays(
    node: u32,
    outcomes: Outcomes,
    mention: OutcomeMention,
) -> Result<Outcomes, EfgFault>
    requires { place_of_outcome outcomes mention.number ≡ None }
    ensures { MatchResult result
        (λ more. with_first_pays node outcomes mention mention.pays ≡ Ok more)
        (IsComputed (with_first_pays node outcomes mention mention.pays)) }
{
    let OutcomeMention { number, name, pays } = mention;
    let Some(pays) = pays else {
        return Err(EfgFault::OutcomeClash { node });
    };
    let more = outcomes.with(EfgOutcome { number, name, pays })?;
    Ok(more)
}

// The outcomes after a mention of one that isn't 0.
fn with_known(node: u32, outcomes: Outcomes, mention: OutcomeMention) -> Result<Outcomes, EfgFault>
    ensures { MatchResult result
        (λ more. with_known node outcomes mention (place_of_outcome outcomes mention.number) ≡ Ok more)
        (IsComputed (with_known node outcomes mention (place_of_outcome outcomes mention.number))) }
{
    match outcomes.find(mention.number) {
        Some(place) => {
            if !repeats_pays(outcomes.items()[place].pays.items(), &mention.pays) {
                return Err(EfgFault::OutcomeClash { node });
            }
            Ok(outcomes)
        }
        None => with_first_pays(node, outcomes, mention),
    }
}

/// The outcomes after a node's mention of one.
#[tactic(auto, unfolding(crate::specs::ReadingNodes::with_outcome))]
pub(crate) fn with_outcome(
    node: u32,
    outcomes: Outcomes,
    mention: OutcomeMention,
) -> Result<Outcomes, EfgFault>
    ensures { MatchResult result
        (λ more. with_outcome node outcomes mention ≡ Ok more)
        (IsComputed (with_outcome node outcomes mention)) }
{
    if mention.number == 0 {
        without_pays(node, outcomes, &mention.pays)
    } else {
        with_known(node, outcomes, mention)
    }
}
