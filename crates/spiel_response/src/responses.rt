//! The best responses that are made so far.
ghost use Rattle.std.specs.Prelude.{◌≡◌, ◌≤◌, ◌<◌, length, pos, replicate, slice_set, false, true, nat_abs, IfOk};
ghost use Rattle.spiel_frac.specs.Fraction.{most};
ghost use Rattle.spiel_response.specs.Answered.{HasRoom, IsAnswered};
ghost use Rattle.spiel_response.specs.BestResponses.{best_value};

use crate::gathering::no_sums;
use crate::responding::make_response;
use crate::table::SlotTable;
use spiel_frac::NoMemory;
use std::alloc::Global;

/// The responses of players, as far as they are made.
#[derive(Drop)]
pub(crate) struct Responses {
    /// For each player, whether the response is made.
    pub made: Vec<bool>,
    /// What the response of each player earns, where it is made.
    pub earned: Vec<i128>,
    /// The index that the response takes at each information state, where it is made.
    pub answers: Vec<u32>,
    /// Room for the sums of all slots while a response is made.
    pub sums: Vec<i128>,
}

/// So many players, none of whose responses is made.
fn none_made(alloc: Global, count: usize) -> Result<Vec<bool>, NoMemory>
    ensures { IfOk result (λ made. made.items ≡ replicate count false) }
{
    match vec![in alloc; false; count] {
        Ok(made) => Ok(made),
        Err(_) => Err(NoMemory),
    }
}

/// So many information states that aren't answered yet.
fn no_answers(alloc: Global, count: usize) -> Result<Vec<u32>, NoMemory>
    ensures { IfOk result (λ answers. answers.items ≡ replicate count 0) }
{
    match vec![in alloc; 0; count] {
        Ok(answers) => Ok(answers),
        Err(_) => Err(NoMemory),
    }
}

/// Room for the responses of so many players, at so many information states, with so many slots.
pub(crate) fn no_responses(
    alloc: Global,
    players: usize,
    states: usize,
    slots: usize,
) -> Result<Responses, NoMemory>
    ensures made { IfOk result (λ r. r.made.items ≡ replicate players false) }
    ensures earned { IfOk result (λ r. length r.earned.items ≡ players) }
    ensures answers { IfOk result (λ r. length r.answers.items ≡ states) }
    ensures sums { IfOk result (λ r. length r.sums.items ≡ slots) }
{
    Ok(Responses {
        made: none_made(alloc, players)?,
        earned: no_sums(alloc, players)?,
        answers: no_answers(alloc, states)?,
        sums: no_sums(alloc, slots)?,
    })
}

impl Responses {
    /// Makes the response of a player, and answers what it earns.
    pub fn make(&mut self, table: &SlotTable, player: u32) -> i128
        requires player { player < table.now.tree.players }
        requires before { IsAnswered (record { judged = table.now; made = self.old.made.items }) self.old.earned.items self.old.answers.items self.old.sums.items }
        ensures made { self.new.made.items ≡ slice_set self.old.made.items player true }
        ensures after { IsAnswered (record { judged = table.now; made = self.new.made.items }) self.new.earned.items self.new.answers.items self.new.sums.items }
        ensures earned { result ≡ best_value table.now player }
    {
        let earned = make_response(table, player, &mut self.sums, &mut self.answers);
        self.earned[player as usize] = earned;
        self.made[player as usize] = true;
        earned
    }
}
