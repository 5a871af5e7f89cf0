//! A game as it is, or one that is made of it.
ghost use Rattle.std.specs.Prelude.{◌≡◌, IfOk, MatchResult, None, Some};
ghost use Rattle.spiel_api.specs.Walks.{walk_fault, IsComputed};
ghost use Rattle.spiel_layers.specs.TurnBased.{turn_based_rules};
ghost use Rattle.spiel_layers.specs.Misere.{misere_rules};
ghost use Rattle.spiel_layers.specs.Repeated.{repeat_fault, repeated_rules};
ghost use Rattle.spiel_layers.specs.StartAt.{start_at_rules};

use crate::{Misere, RepeatFault, Repeated, StartAt, TurnBased};
use spiel_api::{Game, Place, WalkFault};
use spiel_frac::{List, NoMemory, Text};
use std::alloc::Global;

/// A game as it is, or one that is made of it. All meanings are those of the game of the variant.
/// Several layers are one inside the other: `Layer<Layer<G>>`.
#[derive(Drop)]
pub enum Layer<G> {
    /// The inner game as it is.
    Plain(G),
    /// Its joint steps are moves.
    TurnBased(TurnBased<G>),
    /// Its returns are negated.
    Misere(Misere<G>),
    /// It is played several times.
    Repeated(Repeated<G>),
    /// It starts behind some first numbers.
    StartAt(StartAt<G>),
}

/// A state of the game of a layer. It stands for a play of a [`Layer`] only where both have the same
/// variant.
#[derive(Drop)]
pub enum LayerState<G: Game> {
    Plain(G::State),
    TurnBased(<TurnBased<G> as Game>::State),
    Misere(<Misere<G> as Game>::State),
    Repeated(<Repeated<G> as Game>::State),
    StartAt(<StartAt<G> as Game>::State),
}

// What the game of the variant answers, the same at each of the variants that are named here.
macro_rules! at_layer {
    ($layer:expr, $game:ident => $answer:expr) => {
        at_layer!(Plain TurnBased Misere Repeated StartAt; $layer, $game => $answer)
    };
    ($($name:ident)+; $layer:expr, $game:ident => $answer:expr) => {
        match $layer {
            $(Layer::$name($game) => $answer,)+
        }
    };
}

// What the game of the variant answers of its state, the same at each of the variants that are named
// here. A layer and a state of two variants stand for no play.
macro_rules! at_state {
    ($layer:expr, $state:expr, ($game:ident, $own:ident) => $answer:expr) => {
        at_state!(Plain TurnBased Misere Repeated StartAt; $layer, $state, ($game, $own) => $answer)
    };
    ($($name:ident)+; $layer:expr, $state:expr, ($game:ident, $own:ident) => $answer:expr) => {
        match ($layer, $state) {
            $((Layer::$name($game), LayerState::$name($own)) => $answer,)+
            _ => unreachable!(),
        }
    };
}

#[tactic(auto, unfolding(crate::specs::Layer::IsLayerGame, crate::specs::Layer::layer_rules, crate::specs::Layer::IsLayerAt, crate::specs::Layer::layer_history))]
impl<G: Game> Layer<G> {
    /// The inner game as it is.
    pub fn plain(inner: G) -> Layer<G>
        ensures rules { ⟦<Layer<G> as Game>⟧.rules result ≡ G.rules inner }
        ensures game { G.is_game inner → ⟦<Layer<G> as Game>⟧.is_game result }
    {
        Layer::Plain(inner)
    }

    /// The inner game with its joint steps as moves.
    pub fn turn_based(inner: G) -> Layer<G>
        ensures rules { ⟦<Layer<G> as Game>⟧.rules result ≡ turn_based_rules (G.rules inner) }
        ensures game { G.is_game inner → ⟦<Layer<G> as Game>⟧.is_game result }
    {
        Layer::TurnBased(TurnBased::new(inner))
    }

    /// The inner game with its returns negated.
    pub fn misere(inner: G) -> Layer<G>
        ensures rules { ⟦<Layer<G> as Game>⟧.rules result ≡ misere_rules (G.rules inner) }
        ensures game { G.is_game inner → ⟦<Layer<G> as Game>⟧.is_game result }
    {
        Layer::Misere(Misere::new(inner))
    }

    /// So many rounds of the stage, or why it isn't repeated so often, as [`Repeated::new`] says.
    pub fn repeated(stage: G, times: u32) -> Result<Layer<G>, RepeatFault>
        requires { G.is_game stage }
        ensures rules { IfOk result (λ layer. ⟦<Layer<G> as Game>⟧.rules layer ≡ repeated_rules times (G.rules stage)) }
        ensures game { IfOk result ⟦<Layer<G> as Game>⟧.is_game }
        ensures computed { MatchResult result
            (λ _. repeat_fault (G.rules stage) times ≡ None)
            (λ fault. repeat_fault (G.rules stage) times ≡ Some fault) }
    {
        Ok(Layer::Repeated(Repeated::new(stage, times)?))
    }

    /// The game that starts behind the prefix, or why there is none, as [`StartAt::new`] says.
    pub fn start_at(alloc: Global, inner: G, prefix: List<u32>) -> Result<Layer<G>, WalkFault>
        requires { G.is_game inner }
        ensures rules { IfOk result (λ layer. ⟦<Layer<G> as Game>⟧.rules layer ≡ start_at_rules prefix (G.rules inner)) }
        ensures game { IfOk result ⟦<Layer<G> as Game>⟧.is_game }
        ensures computed { MatchResult result
            (λ _. walk_fault (G.rules inner) prefix ≡ None)
            (IsComputed (walk_fault (G.rules inner) prefix)) }
    {
        Ok(Layer::StartAt(StartAt::new(alloc, inner, prefix)?))
    }
}

#[tactic(auto, unfolding(crate::specs::Layer::IsLayerGame, crate::specs::Layer::layer_rules, crate::specs::Layer::IsLayerAt, crate::specs::Layer::layer_history))]
impl<G: Game> Game for Layer<G> {
    ghost use Rattle.spiel_layers.specs.Layer.{IsLayerGame, layer_rules, IsLayerAt, layer_history};
    ghost use Rattle.spiel_layers.specs.LayerLaws.{layer_plays, layer_lawful, layer_playable};

    type State = LayerState<G>;

    ghost is_game = { IsLayerGame ⟦<G as Game>⟧ };

    ghost rules = { layer_rules ⟦<G as Game>⟧ };

    ghost is_at = { IsLayerAt ⟦<G as Game>⟧ };

    ghost history_of = { layer_history ⟦<G as Game>⟧ };

    ghost plays = { layer_plays ⟦<G as Game>⟧ G.plays };

    ghost lawful = { layer_lawful ⟦<G as Game>⟧ G.lawful };

    ghost can_be_played = { layer_playable ⟦<G as Game>⟧ G.can_be_played };

    fn players(&self) -> u32 {
        at_layer!(self, game => game.players())
    }

    fn unit(&self) -> i64 {
        at_layer!(self, game => game.unit())
    }

    fn pay_cap(&self) -> i64 {
        at_layer!(self, game => game.pay_cap())
    }

    fn one_shot(&self) -> bool {
        at_layer!(self, game => game.one_shot())
    }

    fn start(&self, alloc: Global) -> Result<LayerState<G>, NoMemory> {
        Ok(match self {
            Layer::Plain(game) => LayerState::Plain(game.start(alloc)?),
            Layer::TurnBased(game) => LayerState::TurnBased(game.start(alloc)?),
            Layer::Misere(game) => LayerState::Misere(game.start(alloc)?),
            Layer::Repeated(game) => LayerState::Repeated(game.start(alloc)?),
            Layer::StartAt(game) => LayerState::StartAt(game.start(alloc)?),
        })
    }

    fn place(&self, state: &LayerState<G>) -> Place {
        at_state!(self, state, (game, own) => game.place(own))
    }

    fn legal_count(&self, state: &LayerState<G>, player: u32) -> u32 {
        at_state!(self, state, (game, own) => game.legal_count(own, player))
    }

    fn legal_at(&self, state: &LayerState<G>, player: u32, index: u32) -> u32 {
        at_state!(self, state, (game, own) => game.legal_at(own, player, index))
    }

    fn weight_at(&self, state: &LayerState<G>, index: u32) -> u64 {
        at_state!(self, state, (game, own) => game.weight_at(own, index))
    }

    fn pay(&self, state: &LayerState<G>, player: u32) -> i64 {
        at_state!(self, state, (game, own) => game.pay(own, player))
    }

    fn history<'a>(&self, state: &'a LayerState<G>) -> &'a [u32] {
        at_state!(self, state, (game, own) => game.history(own))
    }

    fn info(
        &self,
        alloc: Global,
        state: &LayerState<G>,
        player: u32,
        out: &mut Text,
    ) -> Result<(), NoMemory> {
        at_state!(self, state, (game, own) => game.info(alloc, own, player, out))
    }

    fn action_name(
        &self,
        alloc: Global,
        state: &LayerState<G>,
        player: u32,
        action: u32,
        out: &mut Text,
    ) -> Result<(), NoMemory> {
        at_state!(self, state, (game, own) => game.action_name(alloc, own, player, action, out))
    }

    fn apply(&self, alloc: Global, state: &mut LayerState<G>, action: u32) -> Result<(), NoMemory> {
        at_state!(self, state, (game, own) => game.apply(alloc, own, action))
    }

    fn undo(&self, state: &mut LayerState<G>) {
        at_state!(self, state, (game, own) => game.undo(own))
    }

    fn copy(&self, alloc: Global, state: &LayerState<G>) -> Result<LayerState<G>, NoMemory> {
        Ok(match (self, state) {
            (Layer::Plain(game), LayerState::Plain(own)) => {
                LayerState::Plain(game.copy(alloc, own)?)
            }
            (Layer::TurnBased(game), LayerState::TurnBased(own)) => {
                LayerState::TurnBased(game.copy(alloc, own)?)
            }
            (Layer::Misere(game), LayerState::Misere(own)) => {
                LayerState::Misere(game.copy(alloc, own)?)
            }
            (Layer::Repeated(game), LayerState::Repeated(own)) => {
                LayerState::Repeated(game.copy(alloc, own)?)
            }
            (Layer::StartAt(game), LayerState::StartAt(own)) => {
                LayerState::StartAt(game.copy(alloc, own)?)
            }
            _ => unreachable!(),
        })
    }
}
