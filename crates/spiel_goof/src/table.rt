//! The table at which goofspiel is played: what lies there, and what the players have after each turn.
ghost use Rattle.std.specs.Prelude.{◌≡◌, ◌<◌, ◌≤◌, ◌+◌, ◌-◌, ◌^◌, ◌++◌, ◌∷◌, List, ℕ, [], map, take};
ghost use Rattle.std.specs.List.{All};
ghost use Rattle.spiel_goof.specs.Cards.{AreLeft};
ghost use Rattle.spiel_goof.specs.declared.turns.Stage.TheVariants.{Bid};
ghost use Rattle.spiel_goof.specs.Goofspiel.{Parts, bid_of, point_of};
ghost use Rattle.spiel_goof.specs.GoofspielPlays.{IsTurnOf};
ghost use Rattle.spiel_goof.specs.Table.{IsTable, seat_of, shown};

use crate::cards::Cards;
use crate::turns::{Stage, Turn};

/// What a player has.
#[derive(Clone, Copy)]
pub struct Seat {
    /// The cards that the player has bid in no complete turn.
    pub hand: Cards,
    /// The points so far.
    pub points: u32,
}

/// What lies on the table, and what the players have.
#[derive(Clone, Copy)]
pub struct Table {
    /// What lies of the turn that is on.
    pub stage: Stage,
    /// The complete turns, and behind them room for more.
    turns: [Turn; 20],
    /// How many turns are complete.
    count: usize,
    /// The point cards that were in no complete turn.
    pub deck: Cards,
    first: Seat,
    second: Seat,
}

impl Seat {
    /// What the player has after a turn with this bid, which gained so many points.
    fn after(self, bid: u32, gain: u32) -> Seat
        requires bid { bid < 20 }
        requires points { self.points + gain < 2 ^ 32 }
        ensures hand { (gone : List ℕ) → AreLeft self.hand gone → AreLeft result.hand (gone ++ bid ∷ []) }
        ensures points { result.points ≡ self.points + gain }
    {
        Seat {
            hand: self.hand.without(bid),
            points: self.points + gain,
        }
    }

    /// What the player had before a turn which gained so many points, and after these turns.
    fn before(self, player: u32, turns: &[Turn], gain: u32) -> Seat
        requires cards { All (IsTurnOf 20) turns.now }
        requires points { gain ≤ self.points }
        ensures hand { AreLeft result.hand (map (bid_of player) turns.now) }
        ensures points { result.points ≡ self.points - gain }
    {
        Seat {
            hand: hand_after(player, turns),
            points: self.points - gain,
        }
    }
}

/// The point cards that were in none of these turns.
fn deck_after(turns: &[Turn]) -> Cards
    requires { All (IsTurnOf 20) turns.now }
    ensures { AreLeft result (map point_of turns.now) }
{
    let mut deck = Cards::all();
    for turn in turns {
        deck = deck.without(turn.point);
    }
    deck
}

/// The cards that the player has bid in none of these turns.
fn hand_after(player: u32, turns: &[Turn]) -> Cards
    requires { All (IsTurnOf 20) turns.now }
    ensures { AreLeft result (map (bid_of player) turns.now) }
{
    let mut hand = Cards::all();
    for turn in turns {
        hand = hand.without(turn.bid(player));
    }
    hand
}

impl Table {
    /// The table at the beginning, with what lies of the first turn.
    pub fn new(stage: Stage) -> Table
        ensures { IsTable result (record { turns = []; stage = stage }) }
    {
        let seat = Seat {
            hand: Cards::all(),
            points: 0,
        };
        Table {
            stage,
            turns: [Turn {
                point: 0,
                first: 0,
                second: 0,
            }; 20],
            count: 0,
            deck: Cards::all(),
            first: seat,
            second: seat,
        }
    }

    /// The complete turns.
    pub fn turns(&self) -> &[Turn]
        requires { self.now.count < 21 }
        ensures { result.now ≡ take self.now.count self.now.turns }
    {
        &self.turns[..self.count]
    }

    /// How many turns are complete.
    pub fn count(&self) -> u32
        requires { self.now.count < 21 }
        ensures { result ≡ self.now.count }
    {
        self.count as u32
    }

    /// What the player has.
    pub fn seat(&self, player: u32) -> &Seat
        ensures { result.now ≡ seat_of player self.now }
    {
        if player == 0 {
            &self.first
        } else {
            &self.second
        }
    }

    /// The table with something else of the turn that is on.
    pub fn with(self, stage: Stage) -> Table
        ensures { (x : Parts) → IsTable self x → IsTable result (record x { stage = stage }) }
    {
        Table { stage, ..self }
    }

    /// The table after a turn, with what lies of the next.
    pub fn after(self, turn: Turn, next: Stage) -> Table
        requires count { self.count < 20 }
        requires cards { IsTurnOf 20 turn }
        requires first { self.first.points < 1000 }
        requires second { self.second.points < 1000 }
        ensures { (x : Parts) → IsTable self x → IsTable result (record { turns = x.turns ++ turn ∷ []; stage = next }) }
    {
        let mut turns = self.turns;
        turns[self.count] = turn;
        Table {
            stage: next,
            turns,
            count: self.count + 1,
            deck: self.deck.without(turn.point),
            first: self.first.after(turn.first, turn.gain(0)),
            second: self.second.after(turn.second, turn.gain(1)),
        }
    }

    /// Takes the last turn back, up to the bid of player 1.
    pub fn reopen(&mut self)
        requires some { 0 < self.old.count }
        requires shows { IsTable self.old (shown self.old) }
        requires cards { All (IsTurnOf 20) (shown self.old).turns }
        ensures { (turns : List Turn) (turn : Turn) → (shown self.old).turns ≡ turns ++ turn ∷ [] → IsTable self.new (record { turns = turns; stage = Bid turn.point turn.first }) }
    {
        self.count -= 1;
        let turn = self.turns[self.count];
        self.stage = Stage::Bid {
            point: turn.point,
            first: turn.first,
        };
        self.deck = deck_after(self.turns());
        self.first = self.first.before(0, self.turns(), turn.gain(0));
        self.second = self.second.before(1, self.turns(), turn.gain(1));
    }
}
