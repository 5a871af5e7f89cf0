//! A game with its joint steps as moves, one after another.
ghost use Rattle.std.specs.Prelude.{◌≡◌};
ghost use Rattle.spiel_layers.specs.TurnBased.{turn_based_rules};

use spiel_api::{Game, Place};
use spiel_frac::{NoMemory, Text};
use std::alloc::Global;

/// The inner game, in which the players of a joint step move one after another, in player order. Who
/// moves doesn't see the choices of the same step. All else is the inner game's; it isn't one-shot.
#[derive(Drop)]
pub struct TurnBased<G> {
    inner: G,
}

impl<G: Game> TurnBased<G> {
    /// The turn-based game of an inner one, which can be played where the inner game can.
    pub fn new(inner: G) -> TurnBased<G>
        ensures rules { ⟦<TurnBased<G> as Game>⟧.rules result ≡ turn_based_rules (G.rules inner) }
        ensures game { G.is_game inner → ⟦<TurnBased<G> as Game>⟧.is_game result }
    {
        TurnBased { inner }
    }
}

impl<G: Game> Game for TurnBased<G> {
    ghost use Rattle.spiel_layers.specs.TurnBased.{turn_based_rules};
    ghost use Rattle.spiel_layers.specs.TurnBasedLaws.{turn_lawful, turn_play};

    type State = G::State;

    ghost is_game = { λ g. G.is_game g.inner };

    ghost rules = { λ g. turn_based_rules (G.rules g.inner) };

    ghost is_at = { λ g s. G.is_at g.inner s };

    ghost history_of = { λ g s. G.history_of g.inner s };

    ghost plays = { λ g s at. turn_play (G.rules g.inner) (G.history_of g.inner s) (G.plays g.inner s at) };

    ghost lawful = { λ g h. turn_lawful (G.rules g.inner) (G.lawful g.inner h) };

    ghost can_be_played = { λ g s at. G.can_be_played g.inner s at };

    fn players(&self) -> u32 {
        self.inner.players()
    }

    fn unit(&self) -> i64 {
        self.inner.unit()
    }

    fn pay_cap(&self) -> i64 {
        self.inner.pay_cap()
    }

    fn one_shot(&self) -> bool {
        false
    }

    fn start(&self, alloc: Global) -> Result<G::State, NoMemory> {
        self.inner.start(alloc)
    }

    fn place(&self, state: &G::State) -> Place {
        match self.inner.place(state) {
            Place::Joint(player) => Place::Move(player),
            place => place,
        }
    }

    fn legal_count(&self, state: &G::State, player: u32) -> u32 {
        match self.inner.place(state) {
            Place::Joint(mover) if mover != player => 0,
            _ => self.inner.legal_count(state, player),
        }
    }

    fn legal_at(&self, state: &G::State, player: u32, index: u32) -> u32 {
        self.inner.legal_at(state, player, index)
    }

    fn weight_at(&self, state: &G::State, index: u32) -> u64 {
        self.inner.weight_at(state, index)
    }

    fn pay(&self, state: &G::State, player: u32) -> i64 {
        self.inner.pay(state, player)
    }

    fn history<'a>(&self, state: &'a G::State) -> &'a [u32] {
        self.inner.history(state)
    }

    fn info(
        &self,
        alloc: Global,
        state: &G::State,
        player: u32,
        out: &mut Text,
    ) -> Result<(), NoMemory> {
        self.inner.info(alloc, state, player, out)
    }

    fn action_name(
        &self,
        alloc: Global,
        state: &G::State,
        player: u32,
        action: u32,
        out: &mut Text,
    ) -> Result<(), NoMemory> {
        self.inner.action_name(alloc, state, player, action, out)
    }

    fn apply(&self, alloc: Global, state: &mut G::State, action: u32) -> Result<(), NoMemory> {
        self.inner.apply(alloc, state, action)
    }

    fn undo(&self, state: &mut G::State) {
        self.inner.undo(state);
    }

    fn copy(&self, alloc: Global, state: &G::State) -> Result<G::State, NoMemory> {
        self.inner.copy(alloc, state)
    }
}
