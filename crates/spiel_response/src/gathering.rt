//! What best responses are made from, gathered player by player.
ghost use Rattle.std.specs.Prelude.{◌≡◌, ◌≤◌, replicate, pos, IfOk};
ghost use Rattle.spiel_frac.specs.Fraction.{most};
ghost use Rattle.spiel_response.specs.Reach.{scale_of};
ghost use Rattle.spiel_response.specs.Values.{size_below};
ghost use Rattle.spiel_response.specs.SlotTable.{AreSlotSums};

use crate::collecting::collect;
use crate::slots::slot_starts;
use crate::weighed::WeighedTree;
use spiel_frac::{List, NoMemory};
use std::alloc::Global;

/// What responses are made from.
#[derive(Drop)]
pub(crate) struct Gathered {
    /// Where the slots of each information state begin, and last how many slots there are.
    pub starts: List<usize>,
    /// For each slot, the sum over the leaves to which it is that of the last own step.
    pub sums: Vec<i128>,
    /// For each information state, the slot of the last own step before it.
    pub parents: Vec<usize>,
}

/// So many sums of nothing.
pub(crate) fn no_sums(alloc: Global, count: usize) -> Result<Vec<i128>, NoMemory>
    ensures { IfOk result (λ sums. sums.items ≡ replicate count (pos 0)) }
{
    match vec![in alloc; 0; count] {
        Ok(sums) => Ok(sums),
        Err(_) => Err(NoMemory),
    }
}

/// So many slots that aren't known yet.
fn no_slots(alloc: Global, count: usize) -> Result<Vec<usize>, NoMemory>
    ensures { IfOk result (λ slots. slots.items ≡ replicate count 0) }
{
    match vec![in alloc; 0; count] {
        Ok(slots) => Ok(slots),
        Err(_) => Err(NoMemory),
    }
}

/// Before any player.
fn nothing_gathered(alloc: Global, weighed: &WeighedTree) -> Result<Gathered, NoMemory>
    ensures { IfOk result (λ gathered. AreSlotSums weighed.now 0 gathered.starts gathered.sums.items gathered.parents.items) }
{
    let tree = weighed.tree;
    let starts = slot_starts(alloc, weighed)?;
    let states = tree.states() as usize;
    let sums = no_sums(alloc, starts.items()[states])?;
    let parents = no_slots(alloc, states)?;
    Ok(Gathered {
        starts,
        sums,
        parents,
    })
}

/// Gathers what the responses of all players are made from.
pub(crate) fn gather(
    alloc: Global,
    weighed: &WeighedTree,
    scale: u128,
) -> Result<Gathered, NoMemory>
    requires scale { scale ≡ scale_of weighed.now.tree.rows weighed.now.profile }
    requires fits { scale ≤ most }
    requires sizes { size_below weighed.now weighed.now.tree.players ≤ most }
    ensures { IfOk result (λ gathered. AreSlotSums weighed.now weighed.now.tree.players gathered.starts gathered.sums.items gathered.parents.items) }
{
    let tree = weighed.tree;
    let mut gathered = nothing_gathered(alloc, weighed)?;
    for player in 0..tree.players() {
        collect(
            weighed,
            gathered.starts.items(),
            scale,
            player,
            &mut gathered.sums,
            &mut gathered.parents,
        );
    }
    Ok(gathered)
}
