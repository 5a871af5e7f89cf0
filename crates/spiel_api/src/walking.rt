//! From a list of numbers to the state that it leads to, or why it leads to none, and what each fault says.
ghost use Rattle.std.specs.Prelude.{◌≡◌, ◌<◌, IsTrue, ◌↔◌, IfOk, IfErr, OnOk, MatchResult, Some};
ghost use Rattle.std.specs.Bool.{MatchBool};
ghost use Rattle.std.specs.List.{Contains};
ghost use Rattle.spiel_api.specs.Rules.{next_of};
ghost use Rattle.spiel_api.specs.Place.{IsOutside};
ghost use Rattle.spiel_api.specs.States.{StandsFor};
ghost use Rattle.spiel_api.specs.Walks.{IsFinished, HasWalkFault, walk_fault, IsComputed};
ghost use Rattle.spiel_api.specs.FaultTexts.{fault_text};

use crate::{Game, Place};
use spiel_frac::NoMemory;
use std::alloc::Global;
use std::error::Error;
use std::fmt;

/// Why a list of numbers leads to no state.
#[derive(Clone, Copy, Debug, PartialEq, Eq)]
pub enum WalkFault {
    /// The number at this place is the first that isn't legal where it stands.
    Illegal { at: u32 },
    /// Each number is legal, and the list, of this length, ends inside a joint step.
    Unfinished { at: u32 },
    /// Memory ran out.
    NoMemory,
}

impl fmt::Display for WalkFault {
    ghost output = { λ fault. Some (fault_text fault) };

    fn fmt<W: fmt::Write>(&self, f: &mut fmt::Formatter<W>) -> fmt::Result {
        match self {
            WalkFault::Illegal { at } => write!(f, "illegal action at {at}"),
            WalkFault::Unfinished { at } => write!(f, "unfinished joint step at {at}"),
            WalkFault::NoMemory => write!(f, "no memory"),
        }
    }
}

impl Error for WalkFault {}

impl From<NoMemory> for WalkFault {
    ghost use Rattle.std.specs.Prelude.{◌≡◌};
    ghost use Rattle.spiel_api.specs.declared.walking.WalkFault.TheVariants.{NoMemory as WalkNoMemory};

    ghost from_gives = { λ _ fault. fault ≡ WalkNoMemory };

    fn from(_error: NoMemory) -> WalkFault {
        WalkFault::NoMemory
    }
}

/// The state that stands for a list of numbers. `Illegal` comes exactly where some number isn't legal
/// where it stands, with the first such place; any number after the end is illegal. `Unfinished`
/// comes exactly where all are legal and the list ends inside a joint step.
pub fn walk<G: Game>(alloc: Global, game: &G, actions: &[u32]) -> Result<G::State, WalkFault>
    requires { G.is_game game.now }
    ensures stands { IfOk result (λ s. StandsFor (G.is_at game.now) (G.history_of game.now) s actions.now) }
    ensures finished { OnOk result (IsFinished (G.rules game.now) actions.now) }
    ensures fault { IfErr result (HasWalkFault (G.rules game.now) actions.now) }
    ensures computed { MatchResult result
        (λ s. walk_fault (G.rules game.now) actions.now ≡ None)
        (IsComputed (walk_fault (G.rules game.now) actions.now)) }
{
    let mut state = game.start(alloc)?;
    let mut at = 0u32;
    for action in actions {
        if !is_next(game, &state, *action) {
            return Err(WalkFault::Illegal { at });
        }
        game.apply(alloc, &mut state, *action)?;
        at += 1;
    }
    if is_inside(game.place(&state)) {
        return Err(WalkFault::Unfinished { at });
    }
    Ok(state)
}

/// Whether a joint step has begun and not ended.
fn is_inside(place: Place) -> bool
    ensures { MatchBool result (IsOutside place → ⊥) (IsOutside place) }
{
    match place {
        Place::Joint(player) => player != 0,
        _ => false,
    }
}

/// Whether a number is legal for whoever is next.
fn is_next<G: Game>(game: &G, state: &G::State, action: u32) -> bool
    requires { G.is_at game.now state.now }
    ensures { IsTrue result ↔ Contains (next_of (G.rules game.now) (G.history_of game.now state.now)) action }
{
    match game.place(state) {
        Place::End => false,
        Place::Chance => is_among(game, state, 0, action),
        Place::Move(player) => is_among(game, state, player, action),
        Place::Joint(player) => is_among(game, state, player, action),
    }
}

/// Whether a number is legal for a player.
fn is_among<G: Game>(game: &G, state: &G::State, player: u32, action: u32) -> bool
    requires at { G.is_at game.now state.now }
    requires player { player < (G.rules game.now).players }
    ensures { IsTrue result ↔ Contains ((G.rules game.now).legal (G.history_of game.now state.now) player) action }
{
    for index in 0..game.legal_count(state, player) {
        if game.legal_at(state, player, index) == action {
            return true;
        }
    }
    false
}
