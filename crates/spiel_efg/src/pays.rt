//! Payoffs as whole numbers, and the returns at the leaves.
ghost use Rattle.std.specs.Prelude.{◌≡◌, ◌≤◌, ◌<◌, ◌^◌, ◌+ℤ◌, ◌&&◌, true, length, map, nat_abs, nat_le, slice_index, slice_index_or, IfOk, MatchResult};
ghost use Rattle.spiel_matrix.specs.Pays.{are_small, common_unit, in_parts};
ghost use Rattle.spiel_efg.specs.EfgPays.{all_pays, are_lists_small, are_pays_fine, cap_for, cap_with, efg_cap, efg_unit, outcome_rows, pay_in, pay_lists, small};
ghost use Rattle.spiel_efg.specs.Faults.{IsRefused};
ghost use Rattle.spiel_efg.specs.Tables.{IsPayTable, IsPaid};
ghost use Rattle.spiel_efg.specs.Tree.{counts_of, is_forest, most_nodes};

use crate::fault::PartsFault;
use crate::parts::{EfgOutcome, EfgParts};
use crate::waiting::Waiting;
use spiel_frac::{Frac, List, NoMemory, Packed};
use spiel_matrix::{MatrixFault, common_unit, pays_in};
use std::alloc::Global;

/// The greatest size of a return: 2^62.
const MOST: u128 = 0x4000_0000_0000_0000;

/// What each node pays: the row of its outcome, and the payoffs row by row. Row 0 is that of no
/// outcome, and has no list.
#[derive(Debug, Drop)]
pub(crate) struct PayTable {
    rows: List<usize>,
    lists: Packed<i64>,
}

impl PayTable {
    /// The row of the outcome of the node that stands at a place.
    pub(crate) fn row(&self, place: usize) -> usize
        requires { place < length self.now.rows }
        ensures { result ≡ slice_index self.now.rows place }
    {
        self.rows.items()[place]
    }

    /// What a player gets at the node that stands at a place.
    pub(crate) fn own(&self, place: usize, player: usize) -> i64
        requires { place < length self.now.rows }
        ensures { result ≡ pay_in self.now.lists (slice_index self.now.rows place) player }
    {
        pay_in(&self.lists, self.rows.items()[place], player)
    }
}

/// What a player gets in a row.
fn pay_in(lists: &Packed<i64>, row: usize, player: usize) -> i64
    ensures { result ≡ pay_in lists.now row player }
{
    if row == 0 || row > lists.len() {
        return 0;
    }
    match lists.at(row - 1).get(player) {
        Some(pay) => *pay,
        None => 0,
    }
}

/// All payoffs of all outcomes.
fn all_pays(alloc: Global, outcomes: &[EfgOutcome]) -> Result<List<Frac>, NoMemory>
    ensures { IfOk result (λ pays. pays ≡ all_pays outcomes.now) }
{
    let mut pays = List::new(alloc);
    for outcome in outcomes {
        pays.extend(outcome.pays.items())?;
    }
    Ok(pays)
}

/// Payoffs in parts of 1/unit. `Bad` comes exactly where the size of one of them passes 2^62.
fn outcome_pays(alloc: Global, unit: u64, pays: &[Frac]) -> Result<List<i64>, PartsFault>
    ensures pays { IfOk result (λ parts. parts ≡ map (in_parts unit) pays.now) }
    ensures test { MatchResult result (λ _. are_small unit pays.now ≡ true) (IsRefused (are_small unit pays.now)) }
{
    match pays_in(alloc, unit, pays) {
        Ok(parts) => Ok(parts),
        Err(MatrixFault::NoMemory) => Err(PartsFault::NoMemory),
        Err(_) => Err(PartsFault::Bad),
    }
}

/// All payoffs in parts of 1/unit, outcome by outcome. `Bad` comes exactly where the size of one of
/// them passes 2^62.
fn pay_lists(alloc: Global, unit: u64, outcomes: &[EfgOutcome]) -> Result<Packed<i64>, PartsFault>
    ensures lists { IfOk result (λ lists. lists ≡ pay_lists unit outcomes.now) }
    ensures test { MatchResult result (λ _. are_lists_small unit outcomes.now ≡ true) (IsRefused (are_lists_small unit outcomes.now)) }
{
    let mut lists = Packed::new(alloc);
    for outcome in outcomes {
        let pays = outcome_pays(alloc, unit, outcome.pays.items())?;
        lists.push(pays.items())?;
    }
    Ok(lists)
}

/// A sum with one payoff more.
pub(crate) fn plus(above: i128, own: i64) -> i128
    requires { nat_abs above ≤ 2 ^ 100 }
    ensures { result ≡ above +ℤ own }
{
    above + own as i128
}

/// The cap with one return more, where the node is a leaf, unless its size passes 2^62.
fn cap_with(cap: u64, count: usize, here: i128) -> Option<u64>
    ensures { result ≡ cap_with cap count here }
{
    if count > 0 {
        return Some(cap);
    }
    let size = here.unsigned_abs();
    if size > MOST {
        return None;
    }
    Some(cap.max(size as u64))
}

/// The greatest size of a player's return at a leaf, and 1 at least, unless it passes 2^62.
fn cap_for(
    alloc: Global,
    parts: &EfgParts,
    counts: &[usize],
    table: &PayTable,
    player: usize,
) -> Result<Option<u64>, NoMemory>
    requires table { IsPayTable parts.now table.now }
    requires counts { counts.now ≡ counts_of parts.now.sets parts.now.nodes }
    requires few { length counts.now ≤ most_nodes }
    requires tree { is_forest 1 counts.now ≡ true }
    ensures { IfOk result (λ cap. cap ≡ small (cap_for parts.now player)) }
{
    let mut waiting = Waiting::new(alloc);
    waiting.put(0i128, 1)?;
    let mut cap = 1u64;
    for place in 0..counts.len() {
        let Some(above) = waiting.next() else {
            return Ok(Some(cap));
        };
        let here = plus(above, table.own(place, player));
        let Some(next) = cap_with(cap, counts[place], here) else {
            return Ok(None);
        };
        cap = next;
        waiting.put(here, counts[place])?;
    }
    Ok(Some(cap))
}

/// The greatest size of a return at a leaf, and 1 at least, unless it passes 2^62.
fn cap_of(
    alloc: Global,
    parts: &EfgParts,
    counts: &[usize],
    table: &PayTable,
) -> Result<Option<u64>, NoMemory>
    requires table { IsPayTable parts.now table.now }
    requires counts { counts.now ≡ counts_of parts.now.sets parts.now.nodes }
    requires few { length counts.now ≤ most_nodes }
    requires tree { is_forest 1 counts.now ≡ true }
    ensures { IfOk result (λ cap. cap ≡ small (efg_cap parts.now)) }
{
    let mut cap = 1u64;
    for player in 0..parts.players.items().len() {
        let Some(own) = cap_for(alloc, parts, counts, table, player)? else {
            return Ok(None);
        };
        cap = cap.max(own);
    }
    Ok(Some(cap))
}

/// The unit, what each node pays in parts of it, and the cap.
#[derive(Debug, Drop)]
pub(crate) struct Paid {
    pub unit: u64,
    pub table: PayTable,
    pub cap: u64,
}

/// The unit, the payoffs and the cap. `Bad` comes exactly where the cap passes 2^62.
#[tactic(auto, using(crate::proofs::Paying::cap_passes, crate::proofs::Paying::cap_fails))]
fn paid_with(
    alloc: Global,
    parts: &EfgParts,
    counts: &[usize],
    unit: u64,
    table: PayTable,
) -> Result<Paid, PartsFault>
    requires unit { unit ≡ efg_unit parts.now }
    requires table { IsPayTable parts.now table }
    requires counts { counts.now ≡ counts_of parts.now.sets parts.now.nodes }
    requires few { length counts.now ≤ most_nodes }
    requires tree { is_forest 1 counts.now ≡ true }
    ensures paid { IfOk result (IsPaid parts.now) }
    ensures test { MatchResult result (λ _. nat_le (efg_cap parts.now) (2 ^ 62) ≡ true) (IsRefused (nat_le (efg_cap parts.now) (2 ^ 62))) }
{
    match cap_of(alloc, parts, counts, &table)? {
        Some(cap) => Ok(Paid { unit, table, cap }),
        None => Err(PartsFault::Bad),
    }
}

/// The payoffs of the parts in parts of 1/unit. `Bad` comes exactly where a payoff or the cap passes
/// 2^62.
fn paid_in(
    alloc: Global,
    parts: &EfgParts,
    counts: &[usize],
    rows: List<usize>,
    unit: u64,
) -> Result<Paid, PartsFault>
    requires unit { unit ≡ efg_unit parts.now }
    requires rows { rows ≡ outcome_rows parts.now }
    requires counts { counts.now ≡ counts_of parts.now.sets parts.now.nodes }
    requires few { length counts.now ≤ most_nodes }
    requires tree { is_forest 1 counts.now ≡ true }
    ensures paid { IfOk result (IsPaid parts.now) }
    ensures test { MatchResult result (λ _. (are_small (efg_unit parts.now) (all_pays parts.now.outcomes) && nat_le (efg_cap parts.now) (2 ^ 62)) ≡ true) (IsRefused (are_small (efg_unit parts.now) (all_pays parts.now.outcomes) && nat_le (efg_cap parts.now) (2 ^ 62))) }
{
    match pay_lists(alloc, unit, parts.outcomes.items()) {
        Ok(lists) => paid_with(alloc, parts, counts, unit, PayTable { rows, lists }),
        Err(fault) => Err(fault),
    }
}

/// The payoffs of the parts, given the row of each node's outcome. `Bad` comes exactly where they
/// are too fine.
pub(crate) fn paid_by(
    alloc: Global,
    parts: &EfgParts,
    counts: &[usize],
    rows: List<usize>,
) -> Result<Paid, PartsFault>
    requires rows { rows ≡ outcome_rows parts.now }
    requires counts { counts.now ≡ counts_of parts.now.sets parts.now.nodes }
    requires few { length counts.now ≤ most_nodes }
    requires tree { is_forest 1 counts.now ≡ true }
    ensures paid { IfOk result (IsPaid parts.now) }
    ensures test { MatchResult result (λ _. are_pays_fine parts.now ≡ true) (IsRefused (are_pays_fine parts.now)) }
{
    let all = all_pays(alloc, parts.outcomes.items())?;
    let Some(unit) = common_unit(all.items()) else {
        return Err(PartsFault::Bad);
    };
    paid_in(alloc, parts, counts, rows, unit)
}
