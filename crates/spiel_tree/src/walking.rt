//! The walk over all histories of a game, with one state that goes to each of them in turn.
ghost use Rattle.std.specs.Prelude.{◌≡◌, ◌∷◌, [], length, IfOk, OnOk};
ghost use Rattle.spiel_api.specs.Rules.{next_of};
ghost use Rattle.spiel_api.specs.States.{StandsFor};
ghost use Rattle.spiel_tree.specs.Rows.{row_of, rows, rows_from, way_from};
ghost use Rattle.spiel_tree.specs.Flat.{AddsRows, IsBefore, IsBuilt, rows_of, way_to};
ghost use Rattle.spiel_tree.specs.Walked.{AddsAll, IsAll};

use crate::counting::count_all;
use crate::flat::Rows;
use crate::history::numbers_at;
use crate::node::{Shown, show};
use spiel_api::Game;
use spiel_frac::NoMemory;
use std::alloc::Global;

/// So many bytes of texts are made before the histories are counted.
const BYTES_BEFORE_COUNTING: u64 = 1 << 25;

/// Why a walk over all histories ended early.
#[derive(Clone, Copy)]
pub(crate) enum Stop {
    /// There are more histories than the limit.
    TooMany,
    /// The texts are longer in all than a walk was to make.
    Long,
    /// Memory ran out.
    NoMemory,
}

impl From<NoMemory> for Stop {
    ghost use Rattle.std.specs.Prelude.{◌≡◌};
    ghost use Rattle.spiel_tree.specs.declared.walking.Stop.TheVariants.{NoMemory as NoMemoryLeft};

    ghost from_gives = { λ _ stop. stop ≡ NoMemoryLeft };

    fn from(_error: NoMemory) -> Stop {
        Stop::NoMemory
    }
}

/// Adds the row of a state, and answers how many numbers are legal there.
fn add_row<G: Game>(
    alloc: Global,
    game: &G,
    state: &G::State,
    parent: Option<u32>,
    step: u32,
    shown: &mut Shown,
    out: &mut Rows,
) -> Result<u32, NoMemory>
    requires at { G.is_at game.now state.now }
    requires built { IsBuilt out.old }
    requires players { length out.old.texts.items ≡ (G.rules game.now).players }
    requires parent { IsBefore parent (length (rows_of out.old)) }
    requires way { way_to (rows_of out.old) parent step ≡ way_from (G.rules game.now) [] (G.history_of game.now state.now) }
    ensures row { OnOk result (AddsRows out.old out.new (row_of (G.rules game.now) (G.history_of game.now state.now) ∷ [])) }
    ensures count { IfOk result (λ count. count ≡ length (next_of (G.rules game.now) (G.history_of game.now state.now))) }
{
    let count = show(alloc, game, state, shown)?;
    out.add(alloc, parent, step, shown)?;
    Ok(count)
}

/// Adds the row of each history from a state on, in preorder. The state goes to each of them in turn,
/// and stands in the end where it stood. A walk that may make so many bytes of texts, `long`, stops where
/// it has made more.
fn add_rows<G: Game>(
    alloc: Global,
    game: &G,
    state: &mut G::State,
    parent: Option<u32>,
    step: u32,
    limit: u32,
    long: Option<u64>,
    shown: &mut Shown,
    out: &mut Rows,
) -> Result<(), Stop>
    requires at { G.is_at game.now state.old }
    requires built { IsBuilt out.old }
    requires players { length out.old.texts.items ≡ (G.rules game.now).players }
    requires parent { IsBefore parent (length (rows_of out.old)) }
    requires way { way_to (rows_of out.old) parent step ≡ way_from (G.rules game.now) [] (G.history_of game.now state.old) }
    ensures all { AddsAll result out.old out.new (rows_from (G.rules game.now) (G.history_of game.now state.old)) limit long }
    ensures back { OnOk result (StandsFor (G.is_at game.now) (G.history_of game.now) state.new (G.history_of game.now state.old)) }
{
    if out.is_full(limit) {
        return Err(Stop::TooMany);
    }
    if out.is_longer(long) {
        return Err(Stop::Long);
    }
    let here = out.count();
    let count = add_row(alloc, game, state, parent, step, shown, out)?;
    for index in 0..count {
        let number = numbers_at(out, here)[index as usize];
        game.apply(alloc, state, number)?;
        add_rows(
            alloc,
            game,
            state,
            Some(here),
            index,
            limit,
            long,
            shown,
            out,
        )?;
        game.undo(state);
    }
    Ok(())
}

/// The rows of all histories of a game, if they are at most `limit`, by a walk that may make so many
/// bytes of texts.
fn walk<G: Game>(alloc: Global, game: &G, limit: u32, long: Option<u64>) -> Result<Rows, Stop>
    requires { G.is_game game.now }
    ensures all { IsAll result (rows (G.rules game.now)) limit long }
    ensures players { IfOk result (λ out. length out.texts.items ≡ (G.rules game.now).players) }
{
    let mut out = Rows::new(alloc, game.players())?;
    let mut shown = Shown::new(alloc);
    let mut state = game.start(alloc)?;
    add_rows(
        alloc, game, &mut state, None, 0, limit, long, &mut shown, &mut out,
    )?;
    Ok(out)
}

/// The rows of all histories of a game, if they are at most `limit`. Where the texts get long, the
/// histories are counted first, so that too many of them are refused before their texts are made.
pub(crate) fn walk_all<G: Game>(alloc: Global, game: &G, limit: u32) -> Result<Rows, Stop>
    requires { G.is_game game.now }
    ensures all { IsAll result (rows (G.rules game.now)) limit None }
    ensures players { IfOk result (λ out. length out.texts.items ≡ (G.rules game.now).players) }
{
    match walk(alloc, game, limit, Some(BYTES_BEFORE_COUNTING)) {
        Err(Stop::Long) => {
            count_all(alloc, game, limit)?;
            walk(alloc, game, limit, None)
        }
        Err(stop) => Err(stop),
        Ok(rows) => Ok(rows),
    }
}
