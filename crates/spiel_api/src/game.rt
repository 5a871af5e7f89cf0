//! What a game is: the trait of all games.
ghost use Rattle.std.specs.Prelude.{◌≡◌, ◌<◌, ℕ, List, [], ◌∷◌, ◌++◌, length, slice_index, pos, IsTrue, ◌↔◌, IfOk, OnOk, OnErr};
ghost use Rattle.std.specs.List.{Contains};
ghost use Rattle.spiel_api.specs.declared.place.Place.TheVariants.{End, Chance, Move, Joint};
ghost use Rattle.spiel_api.specs.Rules.{Rules, next_of};
ghost use Rattle.spiel_api.specs.Plays.{IsPlay};
ghost use Rattle.spiel_api.specs.Place.{HasInfo};
ghost use Rattle.spiel_api.specs.Laws.{IsLawful};
ghost use Rattle.spiel_frac.specs.Adding.{Adds};
ghost use Rattle.spiel_api.specs.States.{StandsFor, IsJointChoice};

use crate::Place;
use spiel_frac::{NoMemory, Text};
use std::alloc::Global;

/// A game with chance and simultaneous moves, and states that stand for its plays
/// (Game and State of OpenSpiel: Lanctot et al. 2019).
///
/// A history is the list of action numbers from the root. A joint step, in which all players choose
/// at once, adds one number for each player, in player order. A play is a history in which each
/// number is legal where it stands, and a state stands for one play.
///
/// A game is what six functions of a history say, and each method answers them at the play for
/// which the state stands:
///
/// - `place`: whose number is next. `Joint(p)` is player p's number inside a joint step.
/// - `legal`: the action numbers of player p. At a chance node these are the outcome numbers, the
///   same for every player. There are none at the end, nor for a player who doesn't move.
/// - `weights`: at a chance node, one whole weight for each outcome.
/// - `info`: the information text of player p (information states: Kuhn 1953), at `Move(p)` and at
///   each `Joint(q)` with p >= q.
/// - `name`: the name of a legal number.
/// - `pay`: at the end, the return of player p, in parts of 1/unit.
///
/// All games keep the laws `IsLawful`. Players are counted from 0. A method that answers no `Result`
/// takes no memory.
pub trait Game: Drop {
    /// What the game keeps of one play.
    type State: Drop;

    /// The game can be played: its constructor saw to what its numbers need.
    ghost is_game: { Self → Type 0 };

    /// The six meanings, with the players, the unit, the cap and whether the game is one-shot.
    ghost rules: { Self → Rules };

    /// The state belongs to a play of the game, and its parts agree.
    ghost is_at: { Self → Self.State → Type 0 };

    /// The play for which the state stands.
    ghost history_of: { Self → Self.State → List ℕ };

    /// How many players there are: 1 to 64.
    fn players(&self) -> u32
        requires { is_game self.now }
        ensures { result ≡ (rules self.now).players };

    /// How many parts a whole return has: 1 to 2^62.
    fn unit(&self) -> i64
        requires { is_game self.now }
        ensures { result ≡ pos (rules self.now).unit };

    /// The size that no return passes, in parts of 1/unit: 1 to 2^62.
    fn pay_cap(&self) -> i64
        requires { is_game self.now }
        ensures { result ≡ pos (rules self.now).cap };

    /// Whether the game is one joint step and no more.
    fn one_shot(&self) -> bool
        requires { is_game self.now }
        ensures { result ≡ (rules self.now).one_shot };

    /// A state at the root, which stands for the empty history.
    fn start(&self, alloc: Global) -> Result<Self::State, NoMemory>
        requires { is_game self.now }
        ensures { IfOk result (λ s. StandsFor (is_at self.now) (history_of self.now) s []) };

    /// Whose number is next.
    fn place(&self, state: &Self::State) -> Place
        requires { is_at self.now state.now }
        ensures { result ≡ (rules self.now).place (history_of self.now state.now) };

    /// How many action numbers the player has: at a chance node the count of outcomes, and 0 at the
    /// end and for a player who doesn't move.
    fn legal_count(&self, state: &Self::State, player: u32) -> u32
        requires at { is_at self.now state.now }
        requires player { player < (rules self.now).players }
        ensures { result ≡ length ((rules self.now).legal (history_of self.now state.now) player) };

    /// The player's action number at an index below `legal_count`. The numbers strictly rise.
    fn legal_at(&self, state: &Self::State, player: u32, index: u32) -> u32
        requires at { is_at self.now state.now }
        requires player { player < (rules self.now).players }
        requires index { index < length ((rules self.now).legal (history_of self.now state.now) player) }
        ensures { result ≡ slice_index ((rules self.now).legal (history_of self.now state.now) player) index };

    /// At a chance node, the whole weight of the outcome at an index below `legal_count`: its
    /// probability is the weight over the sum of all weights. Elsewhere the answer has no meaning.
    fn weight_at(&self, state: &Self::State, index: u32) -> u64
        requires at { is_at self.now state.now }
        ensures { index < length ((rules self.now).weights (history_of self.now state.now))
            → result ≡ slice_index ((rules self.now).weights (history_of self.now state.now)) index };

    /// At the end, the return of the player, in parts of 1/unit.
    fn pay(&self, state: &Self::State, player: u32) -> i64
        requires at { is_at self.now state.now }
        requires end { (rules self.now).place (history_of self.now state.now) ≡ End }
        requires player { player < (rules self.now).players }
        ensures { result ≡ (rules self.now).pay (history_of self.now state.now) player };

    /// The play for which the state stands: at most 4,096 numbers.
    fn history<'a>(&self, state: &'a Self::State) -> &'a [u32]
        requires { is_at self.now state.now }
        ensures { result.now ≡ history_of self.now state.now };

    /// Adds the information text of the player to `out`: printable ASCII of at most 32,768 bytes. The
    /// player moves, or has yet to choose in a joint step. After `NoMemory` a front of the text may
    /// have been added.
    fn info(
        &self,
        alloc: Global,
        state: &Self::State,
        player: u32,
        out: &mut Text,
    ) -> Result<(), NoMemory>
        requires at { is_at self.now state.now }
        requires player { player < (rules self.now).players }
        requires has { HasInfo ((rules self.now).place (history_of self.now state.now)) player }
        ensures { Adds result out.old out.new ((rules self.now).info (history_of self.now state.now) player) };

    /// Adds the name of one of the player's action numbers to `out`: printable ASCII of at most 128
    /// bytes. After `NoMemory` a front of the name may have been added.
    fn action_name(
        &self,
        alloc: Global,
        state: &Self::State,
        player: u32,
        action: u32,
        out: &mut Text,
    ) -> Result<(), NoMemory>
        requires at { is_at self.now state.now }
        requires player { player < (rules self.now).players }
        requires legal { Contains ((rules self.now).legal (history_of self.now state.now) player) action }
        ensures { Adds result out.old out.new ((rules self.now).name (history_of self.now state.now) player action) };

    /// Adds one number to the play: an outcome, or an action of whoever is next. After `NoMemory` the
    /// state is as it was.
    fn apply(&self, alloc: Global, state: &mut Self::State, action: u32) -> Result<(), NoMemory>
        requires at { is_at self.now state.old }
        requires legal { Contains (next_of (rules self.now) (history_of self.now state.old)) action }
        ensures ok { OnOk result (StandsFor (is_at self.now) (history_of self.now) state.new (history_of self.now state.old ++ action ∷ [])) }
        ensures err { OnErr result (state.new ≡ state.old) };

    /// Takes the last number of the play back (UndoAction of OpenSpiel). Takes no memory.
    fn undo(&self, state: &mut Self::State)
        requires at { is_at self.now state.old }
        requires some { 0 < length (history_of self.now state.old) }
        ensures { (h : List ℕ) (a : ℕ) → history_of self.now state.old ≡ h ++ a ∷ []
            → StandsFor (is_at self.now) (history_of self.now) state.new h };

    /// A second state that stands for the same play.
    fn copy(&self, alloc: Global, state: &Self::State) -> Result<Self::State, NoMemory>
        requires { is_at self.now state.now }
        ensures { IfOk result (λ s. StandsFor (is_at self.now) (history_of self.now) s (history_of self.now state.now)) };

    /// Adds a whole joint step to a play that stands at `Joint(0)`: one legal number for each player,
    /// in player order. After `NoMemory` the state is as it was. Takes one copy of the state.
    final fn apply_joint(
        &self,
        alloc: Global,
        state: &mut Self::State,
        actions: &[u32],
    ) -> Result<(), NoMemory>
        requires at { is_at self.now state.old }
        requires joint { (rules self.now).place (history_of self.now state.old) ≡ Joint 0 }
        requires choice { IsJointChoice (rules self.now) (history_of self.now state.old) actions.now }
        ensures ok { OnOk result (StandsFor (is_at self.now) (history_of self.now) state.new (history_of self.now state.old ++ actions.now)) }
        ensures err { OnErr result (state.new ≡ state.old) }
    {
        let mut next = self.copy(alloc, state)?;
        for action in actions {
            self.apply(alloc, &mut next, *action)?;
        }
        *state = next;
        Ok(())
    }

    /// A state of the game stands for a play of it.
    ghost plays: { (g : Self) (s : Self.State) → is_at g s → IsPlay (rules g) (history_of g s) };

    /// A game that can be played keeps the laws.
    ghost lawful: { (g : Self) → is_game g → IsLawful (rules g) };

    /// A state belongs to a game that can be played.
    ghost can_be_played: { (g : Self) (s : Self.State) → is_at g s → is_game g };
}
