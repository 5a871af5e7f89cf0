//! Information states: their numbers, their players and texts, and the first row of each.
ghost use Rattle.std.specs.Prelude.{◌≡◌, ◌<◌, ◌≤◌, ◌^◌, length, Contains, IfOk, IfSome, IfNone};
ghost use Rattle.spiel_tree.specs.Flat.{IsBuilt, row_at, rows_of};
ghost use Rattle.spiel_tree.specs.States.{AreFirsts, AreStarts, noted, state_at, state_of, states_below};

use crate::flat::Rows;
use spiel_api::Place;
use spiel_frac::NoMemory;
use std::alloc::Global;

/// Where the numbers of each player's information states begin, and last how many there are.
#[tactic(auto, using(crate::proofs::StateReading::player_texts))]
pub(crate) fn starts(alloc: Global, rows: &Rows) -> Result<Vec<u32>, NoMemory>
    requires built { IsBuilt rows.now }
    requires fits { length (rows_of rows.now) < 2 ^ 32 }
    ensures { IfOk result (λ starts. AreStarts (length rows.now.texts.items) (rows_of rows.now) starts.items) }
{
    let mut count = 0;
    let mut starts = Vec::new(alloc);
    starts.push(count)?;
    for player in 0..rows.texts.len() {
        count += rows.texts[player].len() as u32;
        starts.push(count)?;
    }
    Ok(starts)
}

/// The information state of a row, at a move.
pub(crate) fn state_of(rows: &Rows, starts: &[u32], row: u32) -> Option<u32>
    requires built { IsBuilt rows.now }
    requires fits { length (rows_of rows.now) < 2 ^ 32 }
    requires starts { AreStarts (length rows.now.texts.items) (rows_of rows.now) starts.now }
    requires row { row < length (rows_of rows.now) }
    ensures { result ≡ state_of (rows_of rows.now) (row_at (rows_of rows.now) row) }
{
    let flat = rows.flat.items()[row as usize];
    match flat.place {
        Place::Move(player) => Some(starts[player as usize] + flat.text),
        _ => None,
    }
}

/// The first row of each information state.
pub(crate) fn first_rows(alloc: Global, rows: &Rows, starts: &[u32]) -> Result<Vec<u32>, NoMemory>
    requires built { IsBuilt rows.now }
    requires fits { length (rows_of rows.now) < 2 ^ 32 }
    requires starts { AreStarts (length rows.now.texts.items) (rows_of rows.now) starts.now }
    ensures { IfOk result (λ firsts. AreFirsts (length rows.now.texts.items) (rows_of rows.now) firsts.items) }
{
    let count = rows.count();
    let states = starts[rows.texts.len()];
    let mut firsts = match vec![in alloc; count; states as usize] {
        Ok(firsts) => firsts,
        Err(_) => return Err(NoMemory),
    };
    let mut row = count;
    while row > 0 {
        row -= 1;
        note_row(&mut firsts, state_of(rows, starts, row), row);
    }
    Ok(firsts)
}

/// Writes a row at its information state.
fn note_row(firsts: &mut [u32], state: Option<u32>, row: u32)
    requires { IfSome state (λ s. s < length firsts.old) }
    ensures { firsts.new ≡ noted firsts.old state row }
{
    if let Some(state) = state {
        firsts[state as usize] = row;
    }
}

/// The player of an information state: the last one whose numbers begin at or before it.
pub(crate) fn player_of(rows: &Rows, starts: &[u32], state: u32) -> u32
    requires players { length rows.now.texts.items < 2 ^ 32 }
    requires starts { AreStarts (length rows.now.texts.items) (rows_of rows.now) starts.now }
    requires state { state < length (states_below (length rows.now.texts.items) (rows_of rows.now)) }
    ensures { result ≡ (state_at (length rows.now.texts.items) (rows_of rows.now) state).player }
{
    let mut player = 0;
    while starts[player as usize + 1] <= state {
        player += 1;
    }
    player
}

/// What the player of an information state sees there.
pub(crate) fn text_of<'a>(rows: &'a Rows, starts: &[u32], state: u32) -> &'a [u8]
    requires built { IsBuilt rows.now }
    requires players { length rows.now.texts.items < 2 ^ 32 }
    requires starts { AreStarts (length rows.now.texts.items) (rows_of rows.now) starts.now }
    requires state { state < length (states_below (length rows.now.texts.items) (rows_of rows.now)) }
    ensures { result.now ≡ (state_at (length rows.now.texts.items) (rows_of rows.now) state).text }
{
    let player = player_of(rows, starts, state) as usize;
    rows.texts[player].at((state - starts[player]) as usize)
}

/// The information state of a player with this text.
#[tactic(auto, using(crate::proofs::StateReading::player_texts, crate::proofs::StateReading::state_found, crate::proofs::StateReading::state_missed))]
pub(crate) fn find(rows: &Rows, starts: &[u32], player: u32, text: &[u8]) -> Option<u32>
    requires built { IsBuilt rows.now }
    requires fits { length (rows_of rows.now) < 2 ^ 32 }
    requires starts { AreStarts (length rows.now.texts.items) (rows_of rows.now) starts.now }
    requires player { player < length rows.now.texts.items }
    ensures there { IfSome result (λ s. state_at (length rows.now.texts.items) (rows_of rows.now) s ≡ record { player = player; text = text.now }) }
    ensures within { IfSome result (λ s. s < length (states_below (length rows.now.texts.items) (rows_of rows.now))) }
    ensures none { IfNone result (Contains (states_below (length rows.now.texts.items) (rows_of rows.now)) (record { player = player; text = text.now }) → ⊥) }
{
    let number = rows.texts[player as usize].find(text)?;
    Some(starts[player as usize] + number as u32)
}
