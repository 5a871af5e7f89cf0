//! Kuhn poker of two players (Kuhn 1950, "A simplified two-person poker").
ghost use Rattle.std.specs.Prelude.{◌≡◌, ◌<◌, ◌-◌, ℕ, take, length, ◌↔◌, [], ◌∷◌, ◌++◌, IsOk, nat_lt, if◌then◌else◌, Some, codes};
ghost use Rattle.spiel_poker.specs.Kuhn.{kuhn_rules};
ghost use Rattle.spiel_poker.specs.KuhnState.{told, TakesWord};

use spiel_api::{Game, Place};
use spiel_frac::{List, NoMemory, Text};
use std::alloc::Global;
use std::error::Error;
use std::fmt;

/// The number of players isn't 2.
#[derive(Clone, Copy, Debug, PartialEq, Eq)]
pub struct BadPlayers;

impl fmt::Display for BadPlayers {
    ghost output = { λ _. Some (codes "the number of players isn't 2") };

    fn fmt<W: fmt::Write>(&self, f: &mut fmt::Formatter<W>) -> fmt::Result {
        write!(f, "the number of players isn't 2")
    }
}

impl Error for BadPlayers {}

/// Kuhn poker of two players (Kuhn 1950, "A simplified two-person poker"; the numbers and texts are
/// this project's own).
///
/// There are three cards, 0, 1 and 2, and each player antes 1. Chance deals a card to player 0 and
/// then one of the others to player 1. The players speak in turn, 0 for `pass` and 1 for `bet`, until
/// both have passed, or one has bet and the other has answered. After a bet and a pass the one who
/// bet wins, else the higher card. The loser pays 2 after a bet that was called, else 1.
///
/// The information text is the player's own card and a letter for each word so far, as `0pb`.
#[derive(Clone, Copy, Debug)]
pub struct Kuhn {
    players: u32,
    ghost two: { players ≡ 2 },
}

/// How far a play has come: the cards that were dealt, and then the words that were said.
#[derive(Clone, Copy, Debug, PartialEq, Eq)]
enum Stage {
    First,
    Second,
    Open,
    Pass,
    Bet,
    PassPass,
    PassBet,
    BetPass,
    BetBet,
    PassBetPass,
    PassBetBet,
}

/// A state of Kuhn poker: the cards and the words of a play.
#[derive(Drop)]
pub struct KuhnState {
    history: List<u32>,
    first: u32,
    second: u32,
    stage: Stage,
}

impl Kuhn {
    /// The game of so many players. `BadPlayers` comes exactly where that isn't 2.
    pub fn new(players: u32) -> Result<Kuhn, BadPlayers>
        ensures { IsOk result ↔ (players ≡ 2) }
    {
        if players == 2 {
            Ok(Kuhn::of(players))
        } else {
            Err(BadPlayers)
        }
    }

    /// The same game, of 2 players.
    pub fn of(players: u32) -> Kuhn
        requires { players ≡ 2 }
        ensures game { ⟦<Kuhn as Game>⟧.is_game result }
        ensures rules { ⟦<Kuhn as Game>⟧.rules result ≡ kuhn_rules }
    {
        Kuhn { players }
    }
}

/// The stage after a word, where one can be said.
fn after(stage: Stage, word: u32) -> Stage
    requires { word < 2 }
    ensures { TakesWord stage → (c d : ℕ) → told result c d ≡ told stage c d ++ word ∷ [] }
{
    match (stage, word) {
        (Stage::Open, 0) => Stage::Pass,
        (Stage::Open, _) => Stage::Bet,
        (Stage::Pass, 0) => Stage::PassPass,
        (Stage::Pass, _) => Stage::PassBet,
        (Stage::Bet, 0) => Stage::BetPass,
        (Stage::Bet, _) => Stage::BetBet,
        (Stage::PassBet, 0) => Stage::PassBetPass,
        (Stage::PassBet, _) => Stage::PassBetBet,
        _ => stage,
    }
}

/// The stage before the last number.
fn before(stage: Stage) -> Stage
    ensures { (c d : ℕ) → told result c d ≡ take (length (told stage c d) - 1) (told stage c d) }
{
    match stage {
        Stage::First | Stage::Second => Stage::First,
        Stage::Open => Stage::Second,
        Stage::Pass | Stage::Bet => Stage::Open,
        Stage::PassPass | Stage::PassBet => Stage::Pass,
        Stage::BetPass | Stage::BetBet => Stage::Bet,
        Stage::PassBetPass | Stage::PassBetBet => Stage::PassBet,
    }
}

impl Game for Kuhn {
    ghost use Rattle.std.specs.Prelude.{◌≡◌, List, ℕ, ⊤};
    ghost use Rattle.spiel_poker.specs.Kuhn.{kuhn_rules};
    ghost use Rattle.spiel_poker.specs.KuhnState.{IsKuhnAt};
    ghost use Rattle.spiel_poker.specs.KuhnLaws.{kuhn_lawful};

    type State = KuhnState;

    ghost is_game = { λ _. ⊤ };

    ghost rules = { λ _. kuhn_rules };

    ghost is_at = { λ _ s. IsKuhnAt s };

    ghost history_of = { λ _ s. s.history };

    ghost plays = { λ g s at. at.play };

    ghost lawful = { λ g h. kuhn_lawful };

    ghost can_be_played = { λ g s at. tt };

    fn players(&self) -> u32 {
        self.players
    }

    fn unit(&self) -> i64 {
        1
    }

    fn pay_cap(&self) -> i64 {
        2
    }

    fn one_shot(&self) -> bool {
        false
    }

    fn start(&self, alloc: Global) -> Result<KuhnState, NoMemory> {
        Ok(KuhnState {
            history: List::new(alloc),
            first: 0,
            second: 0,
            stage: Stage::First,
        })
    }

    fn place(&self, state: &KuhnState) -> Place {
        match state.stage {
            Stage::First | Stage::Second => Place::Chance,
            Stage::Open | Stage::PassBet => Place::Move(0),
            Stage::Pass | Stage::Bet => Place::Move(1),
            Stage::PassPass
            | Stage::BetPass
            | Stage::BetBet
            | Stage::PassBetPass
            | Stage::PassBetBet => Place::End,
        }
    }

    fn legal_count(&self, state: &KuhnState, player: u32) -> u32 {
        match self.place(state) {
            Place::Chance => match state.stage {
                Stage::First => 3,
                _ => 2,
            },
            Place::Move(mover) if mover == player => 2,
            _ => 0,
        }
    }

    fn legal_at(&self, state: &KuhnState, _player: u32, index: u32) -> u32 {
        match state.stage {
            Stage::Second if index >= state.first => index + 1,
            _ => index,
        }
    }

    fn weight_at(&self, _state: &KuhnState, _index: u32) -> u64 {
        1
    }

    fn pay(&self, state: &KuhnState, player: u32) -> i64 {
        let (winner, stake) = match state.stage {
            Stage::PassBetPass => (1, 1),
            Stage::BetPass => (0, 1),
            Stage::BetBet | Stage::PassBetBet => (higher(state.first, state.second), 2),
            _ => (higher(state.first, state.second), 1),
        };
        if player == winner { stake } else { -stake }
    }

    fn history<'a>(&self, state: &'a KuhnState) -> &'a [u32] {
        state.history.items()
    }

    fn info(
        &self,
        _alloc: Global,
        state: &KuhnState,
        player: u32,
        out: &mut Text,
    ) -> Result<(), NoMemory> {
        let card = if player == 0 {
            state.first
        } else {
            state.second
        };
        out.push(&[b'0' + card as u8])?;
        out.push(match state.stage {
            Stage::Pass => b"p",
            Stage::Bet => b"b",
            Stage::PassBet => b"pb",
            _ => b"",
        })
    }

    fn action_name(
        &self,
        _alloc: Global,
        state: &KuhnState,
        _player: u32,
        action: u32,
        out: &mut Text,
    ) -> Result<(), NoMemory> {
        match state.stage {
            Stage::First | Stage::Second => {
                out.push(b"deal ")?;
                out.push(&[b'0' + action as u8])
            }
            _ => out.push(if action == 0 { b"pass" } else { b"bet" }),
        }
    }

    fn apply(&self, _alloc: Global, state: &mut KuhnState, action: u32) -> Result<(), NoMemory> {
        state.history.push(action)?;
        match state.stage {
            Stage::First => {
                state.first = action;
                state.stage = Stage::Second;
            }
            Stage::Second => {
                state.second = action;
                state.stage = Stage::Open;
            }
            stage => state.stage = after(stage, action),
        }
        Ok(())
    }

    fn undo(&self, state: &mut KuhnState) {
        state.history.pop();
        state.stage = before(state.stage);
    }

    fn copy(&self, alloc: Global, state: &KuhnState) -> Result<KuhnState, NoMemory> {
        Ok(KuhnState {
            history: state.history.copy(alloc)?,
            first: state.first,
            second: state.second,
            stage: state.stage,
        })
    }
}

/// Who has the higher card.
fn higher(first: u32, second: u32) -> u32
    ensures { result ≡ if nat_lt second first then 0 else 1 }
{
    if second < first { 0 } else { 1 }
}
