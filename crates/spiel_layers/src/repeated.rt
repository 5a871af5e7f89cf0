//! Several rounds of a one-shot game.
ghost use Rattle.std.specs.Prelude.{◌≡◌, ◌<◌, length, MatchResult, OnOk, OnErr, None, Some};
ghost use Rattle.std.specs.Bool.{MatchBool};
ghost use Rattle.std.specs.List.{Contains};
ghost use Rattle.std.specs.Option.{MatchOption};
ghost use Rattle.spiel_api.specs.Rules.{next_of};
ghost use Rattle.spiel_layers.specs.Repeated.{repeated_rules, piece_of, before_piece, repeat_fault, CanRepeat, HasRepeatFault};
ghost use Rattle.spiel_layers.specs.RepeatedState.{IsRepeatedAt, IsInRound, HasGrown};
ghost use Rattle.spiel_layers.specs.FaultTexts.{fault_text};

use crate::told::push_told;
use spiel_api::{Game, Place};
use spiel_frac::{List, NoMemory, Text};
use std::alloc::Global;
use std::error::Error;
use std::fmt;

/// Why a game isn't repeated. The first fault that holds, in this order, is the one that is answered.
#[derive(Clone, Copy, Debug, PartialEq, Eq)]
pub enum RepeatFault {
    /// The stage game isn't one-shot.
    NotOneShot,
    /// There are no repetitions, or the repetitions times the players pass 1,024.
    Repeats,
    /// The repetitions times the stage's cap pass 2^62.
    PayTooFine,
}

impl fmt::Display for RepeatFault {
    ghost output = { λ fault. Some (fault_text fault) };

    fn fmt<W: fmt::Write>(&self, f: &mut fmt::Formatter<W>) -> fmt::Result {
        match self {
            RepeatFault::NotOneShot => write!(f, "stage game is not one-shot"),
            RepeatFault::Repeats => write!(f, "bad number of repetitions"),
            RepeatFault::PayTooFine => write!(f, "repeated payoffs too large"),
        }
    }
}

impl Error for RepeatFault {}

/// A one-shot game, the stage, played so many times, one round after another. A history is cut into
/// pieces of one number for each player, one piece for each round. Who is next, the legal numbers and
/// their names are the stage's at the unfinished piece. After the last round the game is over, and each
/// return is the sum of the stage's returns of all pieces. What was chosen in earlier rounds is told to
/// all: an information text has the numbers of the full pieces, each with a space behind it, then `| `,
/// then the stage's text.
#[derive(Drop)]
pub struct Repeated<G> {
    stage: G,
    times: u32,
}

/// All numbers so far, a state of the stage for each round that is over, and one for the round that is
/// played. Once all rounds are over, the last one is at the root of the stage.
#[derive(Drop)]
pub struct RepeatedState<S> {
    history: List<u32>,
    rounds: List<S>,
    stage: S,
}

impl<G: Game> Repeated<G> {
    /// So many rounds of the stage. Refused are a stage that isn't one-shot (`NotOneShot`); else a
    /// number of rounds that is 0 or, times the players, passes 1,024 (`Repeats`); else one that, times
    /// the stage's cap, passes 2^62 (`PayTooFine`).
    pub fn new(stage: G, times: u32) -> Result<Repeated<G>, RepeatFault>
        requires { G.is_game stage }
        ensures made { MatchResult result
            (λ g. (⟦<Repeated<G> as Game>⟧.rules g ≡ repeated_rules times (G.rules stage)) × ⟦<Repeated<G> as Game>⟧.is_game g)
            (HasRepeatFault (G.rules stage) times) }
        ensures computed { MatchResult result
            (λ _. repeat_fault (G.rules stage) times ≡ None)
            (λ fault. repeat_fault (G.rules stage) times ≡ Some fault) }
    {
        match fault_of(&stage, times) {
            Some(fault) => Err(fault),
            None => Ok(Repeated { stage, times }),
        }
    }

    /// Whether a round is played.
    fn is_open(&self, state: &RepeatedState<G::State>) -> bool
        requires { IsRepeatedAt ⟦<G as Game>⟧ self.now state.now }
        ensures { MatchBool result
            (piece_of (G.rules self.now.stage).players self.now.times state.now.history ≡ Some (G.history_of self.now.stage state.now.stage))
            (piece_of (G.rules self.now.stage).players self.now.times state.now.history ≡ None) }
    {
        (state.rounds.items().len() as u64) < u64::from(self.times)
    }

    /// The numbers of the rounds that are over.
    fn past<'a>(&self, state: &'a RepeatedState<G::State>) -> &'a [u32]
        requires { IsRepeatedAt ⟦<G as Game>⟧ self.now state.now }
        ensures { result.now ≡ before_piece state.now.history (G.history_of self.now.stage state.now.stage) }
    {
        let numbers = state.history.items();
        &numbers[..numbers.len() - self.stage.history(&state.stage).len()]
    }

    /// Adds a number to the history and to the stage's state. After `NoMemory` both are as they were.
    fn add(
        &self,
        alloc: Global,
        state: &mut RepeatedState<G::State>,
        action: u32,
    ) -> Result<(), NoMemory>
        requires at { G.is_at self.now.stage state.old.stage }
        requires legal { Contains (next_of (G.rules self.now.stage) (G.history_of self.now.stage state.old.stage)) action }
        ensures ok { OnOk result (HasGrown ⟦<G as Game>⟧ self.now state.old action state.new) }
        ensures err { OnErr result (state.new ≡ state.old) }
    {
        state.history.push(action)?;
        match self.stage.apply(alloc, &mut state.stage, action) {
            Ok(()) => Ok(()),
            Err(fault) => {
                state.history.pop();
                Err(fault)
            }
        }
    }

    /// Sees to it that the round that is played is the one of the last number.
    fn reopen(&self, state: &mut RepeatedState<G::State>)
        requires at { IsRepeatedAt ⟦<G as Game>⟧ self.now state.old }
        requires some { 0 < length state.old.history }
        ensures round { IsInRound ⟦<G as Game>⟧ self.now state.new }
        ensures history { state.new.history ≡ state.old.history }
    {
        if self.stage.history(&state.stage).is_empty() {
            if let Some(round) = state.rounds.pop() {
                state.stage = round;
            }
        }
    }
}

/// Why the stage isn't repeated so often, if it isn't.
fn fault_of<G: Game>(stage: &G, times: u32) -> Option<RepeatFault>
    requires { G.is_game stage.now }
    ensures { MatchOption result (CanRepeat ⟦<G as Game>⟧ stage.now times) (λ fault. HasRepeatFault (G.rules stage.now) times fault) }
{
    if !stage.one_shot() {
        return Some(RepeatFault::NotOneShot);
    }
    if times == 0 || times > 1024 || times * stage.players() > 1024 {
        return Some(RepeatFault::Repeats);
    }
    if stage.pay_cap() > (1 << 62) / i64::from(times) {
        return Some(RepeatFault::PayTooFine);
    }
    None
}

impl<G: Game> Game for Repeated<G> {
    ghost use Rattle.spiel_layers.specs.Repeated.{repeated_rules, CanRepeat};
    ghost use Rattle.spiel_layers.specs.RepeatedState.{IsRepeatedAt};
    ghost use Rattle.spiel_layers.specs.RepeatedLaws.{can_repeat_lawful};

    type State = RepeatedState<G::State>;

    ghost is_game = { λ g. CanRepeat ⟦<G as Game>⟧ g.stage g.times };

    ghost rules = { λ g. repeated_rules g.times (G.rules g.stage) };

    ghost is_at = { IsRepeatedAt ⟦<G as Game>⟧ };

    ghost history_of = { λ _ s. s.history };

    ghost plays = { λ g s at. at.play };

    ghost lawful = { λ g can. can_repeat_lawful ⟦<G as Game>⟧ g.stage g.times can (G.lawful g.stage can.sound) };

    ghost can_be_played = { λ g s at. at.can };

    fn players(&self) -> u32 {
        self.stage.players()
    }

    fn unit(&self) -> i64 {
        self.stage.unit()
    }

    fn pay_cap(&self) -> i64 {
        i64::from(self.times) * self.stage.pay_cap()
    }

    fn one_shot(&self) -> bool {
        false
    }

    fn start(&self, alloc: Global) -> Result<RepeatedState<G::State>, NoMemory> {
        let stage = self.stage.start(alloc)?;
        Ok(RepeatedState {
            history: List::new(alloc),
            rounds: List::new(alloc),
            stage,
        })
    }

    fn place(&self, state: &RepeatedState<G::State>) -> Place {
        if self.is_open(state) {
            self.stage.place(&state.stage)
        } else {
            Place::End
        }
    }

    fn legal_count(&self, state: &RepeatedState<G::State>, player: u32) -> u32 {
        if self.is_open(state) {
            self.stage.legal_count(&state.stage, player)
        } else {
            0
        }
    }

    fn legal_at(&self, state: &RepeatedState<G::State>, player: u32, index: u32) -> u32 {
        if self.is_open(state) {
            self.stage.legal_at(&state.stage, player, index)
        } else {
            unreachable!()
        }
    }

    fn weight_at(&self, _state: &RepeatedState<G::State>, _index: u32) -> u64 {
        0
    }

    fn pay(&self, state: &RepeatedState<G::State>, player: u32) -> i64 {
        let mut total = 0;
        for round in state.rounds.items() {
            total += self.stage.pay(round, player);
        }
        total
    }

    fn history<'a>(&self, state: &'a RepeatedState<G::State>) -> &'a [u32] {
        state.history.items()
    }

    fn info(
        &self,
        alloc: Global,
        state: &RepeatedState<G::State>,
        player: u32,
        out: &mut Text,
    ) -> Result<(), NoMemory> {
        if self.is_open(state) {
            push_told(self.past(state), out)?;
            self.stage.info(alloc, &state.stage, player, out)
        } else {
            unreachable!()
        }
    }

    fn action_name(
        &self,
        alloc: Global,
        state: &RepeatedState<G::State>,
        player: u32,
        action: u32,
        out: &mut Text,
    ) -> Result<(), NoMemory> {
        if self.is_open(state) {
            self.stage
                .action_name(alloc, &state.stage, player, action, out)
        } else {
            unreachable!()
        }
    }

    fn apply(
        &self,
        alloc: Global,
        state: &mut RepeatedState<G::State>,
        action: u32,
    ) -> Result<(), NoMemory> {
        if self.stage.history(&state.stage).len() + 1 < self.stage.players() as usize {
            return self.add(alloc, state, action);
        }
        // The next round is made first, in the place that the one that ends takes then, so that a
        // refusal can be taken back.
        let fresh = self.stage.start(alloc)?;
        state.rounds.push(fresh)?;
        match self.add(alloc, state, action) {
            Ok(()) => {
                state.rounds.swap_last(&mut state.stage);
                Ok(())
            }
            Err(fault) => {
                state.rounds.pop();
                Err(fault)
            }
        }
    }

    fn undo(&self, state: &mut RepeatedState<G::State>) {
        self.reopen(state);
        self.stage.undo(&mut state.stage);
        state.history.pop();
    }

    fn copy(
        &self,
        alloc: Global,
        state: &RepeatedState<G::State>,
    ) -> Result<RepeatedState<G::State>, NoMemory> {
        let mut history = List::new(alloc);
        history.extend(state.history.items())?;
        let mut rounds = List::new(alloc);
        for round in state.rounds.items() {
            rounds.push(self.stage.copy(alloc, round)?)?;
        }
        let stage = self.stage.copy(alloc, &state.stage)?;
        Ok(RepeatedState {
            history,
            rounds,
            stage,
        })
    }
}
