//! The game behind some first numbers.
ghost use Rattle.std.specs.Prelude.{◌≡◌, IfOk, IfErr, OnOk, MatchResult, None};
ghost use Rattle.spiel_api.specs.Plays.{IsPlay};
ghost use Rattle.spiel_api.specs.States.{StandsFor};
ghost use Rattle.spiel_api.specs.Walks.{IsFinished, HasWalkFault, walk_fault, IsComputed};
ghost use Rattle.spiel_layers.specs.StartAt.{start_at_rules};

use spiel_api::{Game, Place, WalkFault, walk};
use spiel_frac::{List, NoMemory, Text};
use std::alloc::Global;

/// A game that starts behind some first numbers of an inner game, its prefix. Each meaning at a history
/// is the inner one at the prefix and then the history. So a history counts from where the game starts,
/// and an information text is that of the inner game, which may tell of the prefix. The game is
/// one-shot where the inner one is and the prefix is empty.
///
/// A state is the inner state, which stands for a play that begins with the prefix.
#[derive(Drop)]
pub struct StartAt<G> {
    inner: G,
    prefix: List<u32>,
}

impl<G: Game> StartAt<G> {
    /// The game that starts behind the prefix. The prefix is refused exactly as `walk` refuses it:
    /// `Illegal` with the first place whose number isn't legal where it stands, else `Unfinished` with
    /// its length where it ends inside a joint step. A prefix that ends the game is fine, and so is
    /// the empty one.
    pub fn new(alloc: Global, inner: G, prefix: List<u32>) -> Result<StartAt<G>, WalkFault>
        requires { G.is_game inner }
        ensures game { IfOk result (λ g. ⟦<StartAt<G> as Game>⟧.is_game g) }
        ensures rules { IfOk result (λ g. ⟦<StartAt<G> as Game>⟧.rules g ≡ start_at_rules prefix (G.rules inner)) }
        ensures finished { OnOk result (IsFinished (G.rules inner) prefix) }
        ensures fault { IfErr result (HasWalkFault (G.rules inner) prefix) }
        ensures computed { MatchResult result
            (λ _. walk_fault (G.rules inner) prefix ≡ None)
            (IsComputed (walk_fault (G.rules inner) prefix)) }
    {
        match walk(alloc, &inner, prefix.items()) {
            Ok(_) => Ok(StartAt { inner, prefix }),
            Err(fault) => Err(fault),
        }
    }
}

// The state that stands for a play.
fn follow<G: Game>(alloc: Global, game: &G, play: &[u32]) -> Result<G::State, NoMemory>
    requires game { G.is_game game.now }
    requires play { IsPlay (G.rules game.now) play.now }
    ensures { IfOk result (λ s. StandsFor (G.is_at game.now) (G.history_of game.now) s play.now) }
{
    let mut state = game.start(alloc)?;
    for action in play {
        game.apply(alloc, &mut state, *action)?;
    }
    Ok(state)
}

impl<G: Game> Game for StartAt<G> {
    ghost use Rattle.spiel_layers.specs.StartAt.{start_at_history, start_at_rules, IsStarted, IsStartedAt};
    ghost use Rattle.spiel_layers.specs.StartAtLaws.{started_lawful, started_play};

    type State = G::State;

    ghost is_game = { IsStarted ⟦<G as Game>⟧ };

    ghost rules = { λ g. start_at_rules g.prefix (G.rules g.inner) };

    ghost is_at = { IsStartedAt ⟦<G as Game>⟧ };

    ghost history_of = { start_at_history ⟦<G as Game>⟧ };

    ghost plays = { λ g s at. started_play ⟦<G as Game>⟧ g s at (G.plays g.inner s at.sound) };

    ghost lawful = { λ g started. started_lawful ⟦<G as Game>⟧ g started (G.lawful g.inner started.sound) };

    ghost can_be_played = { λ g s at. at.started };

    fn players(&self) -> u32 {
        self.inner.players()
    }

    fn unit(&self) -> i64 {
        self.inner.unit()
    }

    fn pay_cap(&self) -> i64 {
        self.inner.pay_cap()
    }

    fn one_shot(&self) -> bool {
        self.prefix.items().is_empty() && self.inner.one_shot()
    }

    fn start(&self, alloc: Global) -> Result<G::State, NoMemory> {
        follow(alloc, &self.inner, self.prefix.items())
    }

    fn place(&self, state: &G::State) -> Place {
        self.inner.place(state)
    }

    fn legal_count(&self, state: &G::State, player: u32) -> u32 {
        self.inner.legal_count(state, player)
    }

    fn legal_at(&self, state: &G::State, player: u32, index: u32) -> u32 {
        self.inner.legal_at(state, player, index)
    }

    fn weight_at(&self, state: &G::State, index: u32) -> u64 {
        self.inner.weight_at(state, index)
    }

    fn pay(&self, state: &G::State, player: u32) -> i64 {
        self.inner.pay(state, player)
    }

    fn history<'a>(&self, state: &'a G::State) -> &'a [u32] {
        &self.inner.history(state)[self.prefix.items().len()..]
    }

    fn info(
        &self,
        alloc: Global,
        state: &G::State,
        player: u32,
        out: &mut Text,
    ) -> Result<(), NoMemory> {
        self.inner.info(alloc, state, player, out)
    }

    fn action_name(
        &self,
        alloc: Global,
        state: &G::State,
        player: u32,
        action: u32,
        out: &mut Text,
    ) -> Result<(), NoMemory> {
        self.inner.action_name(alloc, state, player, action, out)
    }

    fn apply(&self, alloc: Global, state: &mut G::State, action: u32) -> Result<(), NoMemory> {
        self.inner.apply(alloc, state, action)
    }

    fn undo(&self, state: &mut G::State) {
        self.inner.undo(state);
    }

    fn copy(&self, alloc: Global, state: &G::State) -> Result<G::State, NoMemory> {
        self.inner.copy(alloc, state)
    }
}
