//! Games under transforms, by what names them.
ghost use Rattle.std.specs.Prelude.{ℕ, zero, suc, IfOk};
ghost use Rattle.spiel_io.specs.Plan.{Follows, seeing};
ghost use Rattle.spiel_load.specs.Asked.{ReadsAs, asked_view};
ghost use Rattle.spiel_load.specs.Faults.{load_kind};
ghost use Rattle.spiel_load.specs.Games.{base_rules};
ghost use Rattle.spiel_load.specs.Named.{layered, named_within, repeated_or, start_at_or, transformed};
ghost use Rattle.spiel_load.specs.Reads.{ReadsSide};

use crate::asked::Asked;
use crate::fault::LoadFault;
use crate::games::gambit::{efg_game, is_efg_game};
use crate::games::{Base, Table};
use crate::known::{Known, load_known};
use crate::transforms::{Layering, Transform, find_transform, taken_by};
use spiel_api::{Game, WalkFault};
use spiel_efg::Efg;
use spiel_frac::List;
use spiel_io::Shelf;
use spiel_layers::{Either, Layer};
use std::alloc::Global;

/// A game that may stand under so many transforms, by what names it.
pub trait Named: Game {
    /// How many transforms there is room for.
    ghost room: { ℕ };

    /// The game that is asked for, or the first fault.
    fn load<F: Shelf>(asked: Asked, shelf: &mut F) -> Result<Self, LoadFault>
        ensures follows { Follows load_kind (named_within room (asked_view asked.entry)) (F.state shelf.old) (F.state shelf.new) (seeing Self.rules result) }
        ensures playable { IfOk result Self.is_game }
        ensures side { ReadsSide (F.state shelf.old) (F.state shelf.new) };
}

// The game of a file, or else the one of these that has the name.
fn load_base<G: Known, F: Shelf>(asked: Asked, shelf: &mut F) -> Result<Either<Efg, G>, LoadFault>
    ensures follows { Follows load_kind (base_rules G.known (asked_view asked.entry)) (F.state shelf.old) (F.state shelf.new) (seeing ⟦<Either<Efg, G> as Game>⟧.rules result) }
    ensures playable { IfOk result ⟦<Either<Efg, G> as Game>⟧.is_game }
    ensures side { ReadsSide (F.state shelf.old) (F.state shelf.new) }
{
    if is_efg_game(asked.name) {
        return Ok(Either::left(efg_game(asked, shelf)?));
    }
    Ok(Either::right(load_known::<G>(asked)?))
}

#[tactic(auto, unfolding(crate::specs::Named::named_within))]
impl Named for Base {
    ghost room = { zero };

    fn load<F: Shelf>(asked: Asked, shelf: &mut F) -> Result<Base, LoadFault> {
        match find_transform(asked.name) {
            Some(_) => Err(LoadFault::TooDeep),
            None => load_base::<Table, F>(asked, shelf),
        }
    }
}

// Rounds of a stage, or why there are none.
fn repeat<G: Game>(stage: G, times: u32) -> Result<Layer<G>, LoadFault>
    requires { G.is_game stage }
    ensures reads { ReadsAs ⟦<Layer<G> as Game>⟧.rules (repeated_or times (G.rules stage)) result }
    ensures playable { IfOk result ⟦<Layer<G> as Game>⟧.is_game }
{
    match Layer::repeated(stage, times) {
        Ok(layer) => Ok(layer),
        Err(fault) => Err(LoadFault::Repeat(fault)),
    }
}

// The game that starts behind a prefix, or why there is none.
fn start_at<G: Game>(alloc: Global, inner: G, prefix: List<u32>) -> Result<Layer<G>, LoadFault>
    requires { G.is_game inner }
    ensures reads { ReadsAs ⟦<Layer<G> as Game>⟧.rules (start_at_or prefix (G.rules inner)) result }
    ensures playable { IfOk result ⟦<Layer<G> as Game>⟧.is_game }
{
    match Layer::start_at(alloc, inner, prefix) {
        Ok(layer) => Ok(layer),
        Err(WalkFault::NoMemory) => Err(LoadFault::NoMemory),
        Err(fault) => Err(LoadFault::Start(fault)),
    }
}

// The game with a transform laid over it, or the transform's fault.
fn lay<G: Game>(alloc: Global, layering: Layering, inner: G) -> Result<Layer<G>, LoadFault>
    requires { G.is_game inner }
    ensures reads { ReadsAs ⟦<Layer<G> as Game>⟧.rules (layered layering (G.rules inner)) result }
    ensures playable { IfOk result ⟦<Layer<G> as Game>⟧.is_game }
{
    match layering {
        Layering::Misere => Ok(Layer::misere(inner)),
        Layering::Repeated { times } => repeat(inner, times),
        Layering::StartAt { prefix } => start_at(alloc, inner, prefix),
        Layering::TurnBased => Ok(Layer::turn_based(inner)),
    }
}

// A game under a transform, or the first fault.
#[tactic(auto, unfolding(crate::specs::Named::transformed))]
fn load_under<G: Named, F: Shelf>(
    transform: Transform,
    asked: Asked,
    shelf: &mut F,
) -> Result<Layer<G>, LoadFault>
    ensures follows { Follows load_kind (transformed (named_within G.room) (asked_view asked.entry) transform) (F.state shelf.old) (F.state shelf.new) (seeing ⟦<Layer<G> as Game>⟧.rules result) }
    ensures playable { IfOk result ⟦<Layer<G> as Game>⟧.is_game }
    ensures side { ReadsSide (F.state shelf.old) (F.state shelf.new) }
{
    let (layering, inner) = taken_by(transform, asked)?;
    let game = G::load(inner, shelf)?;
    lay(asked.alloc, layering, game)
}

#[tactic(auto, unfolding(crate::specs::Named::named_within))]
impl<G: Named> Named for Layer<G> {
    ghost room = { suc G.room };

    fn load<F: Shelf>(asked: Asked, shelf: &mut F) -> Result<Layer<G>, LoadFault> {
        match find_transform(asked.name) {
            Some(transform) => load_under(transform, asked, shelf),
            None => Ok(Layer::plain(G::load(asked, shelf)?)),
        }
    }
}
