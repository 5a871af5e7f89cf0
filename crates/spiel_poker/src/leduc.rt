//! Leduc poker of two players (Southey et al. 2005, "Bayes' bluff: opponent modelling in poker").
ghost use Rattle.std.specs.Prelude.{◌≡◌, ◌<◌, ◌+◌, ◌↔◌, IsOk, ◌≤◌, List, ℕ, [], map, take, length, false, slice_index, ◌++◌, codes};
ghost use Rattle.std.specs.Fmt.{decimal};
ghost use Rattle.spiel_frac.specs.Adding.{Adds};
ghost use Rattle.spiel_poker.specs.Betting.{word_letter};
ghost use Rattle.spiel_poker.specs.Leduc.{first_opening, second_opening, better_card, winner_in, bet_name, leduc_rules};
ghost use Rattle.spiel_poker.specs.Table.{IsTable, seats};

use crate::betting::{CALL, FOLD, Table};
use crate::deck::{left_at, left_count};
use crate::kuhn::BadPlayers;
use spiel_api::{Game, Place};
use spiel_frac::{List, NoMemory, Text, write_number};
use std::alloc::Global;

/// How many cards there are: two of each rank.
const CARDS: u32 = 6;

/// By how much a raise passes the highest stake in the first round.
const FIRST_RAISE: u32 = 2;

/// By how much a raise passes the highest stake in the second round.
const SECOND_RAISE: u32 = 4;

/// Leduc poker of two players (Southey et al. 2005, "Bayes' bluff: opponent modelling in poker"; the
/// numbers and texts are this project's own).
///
/// There are six cards, 0 to 5, and a card's rank is half of its number, rounded down. Each player
/// antes 1. Chance deals a card to player 0 and then one to player 1. There are two rounds of words,
/// and between them chance deals one public card. Player 0 speaks first in both rounds, and the
/// players alternate:
///
/// - 0, `fold`, where the player has paid less than the highest stake: the play is over.
/// - 1, `call`: the player pays the highest stake.
/// - 2, `raise`, where fewer than two raises were made in this round: the player pays the highest
///   stake and 2 more in the first round, or 4 more in the second.
///
/// A round is over when both have called with no raise, or a raise was called. After the second round
/// a card of the public card's rank wins, else the higher rank, and equal ranks split. The loser pays
/// the own stake, and after a split nobody pays.
///
/// The information text is the player's own card and a letter for each word, and once the public
/// card is dealt that card and the letters of the second round, as `3:cc/4:r`.
#[derive(Clone, Copy, Debug)]
pub struct Leduc {
    players: u32,
    ghost two: { players ≡ 2 },
}

/// How far a play has come: the players' cards are dealt, or one of the rounds is on.
#[derive(Clone, Copy, Debug, PartialEq, Eq)]
enum Round {
    Deal,
    First,
    Second,
}

/// A state of Leduc poker: the cards and the words of a play, and the table of the round that is on.
#[derive(Drop)]
pub struct LeducState {
    history: List<u32>,
    round: Round,
    /// The public card, when it is dealt.
    public: u32,
    /// Where in the history the public card stands, when it is dealt.
    public_at: usize,
    table: Table,
}

impl Leduc {
    /// The game of so many players. `BadPlayers` comes exactly where that isn't 2.
    pub fn new(players: u32) -> Result<Leduc, BadPlayers>
        ensures { IsOk result ↔ (players ≡ 2) }
    {
        if players == 2 {
            Ok(Leduc::of(players))
        } else {
            Err(BadPlayers)
        }
    }

    /// The same game, of 2 players.
    pub fn of(players: u32) -> Leduc
        requires { players ≡ 2 }
        ensures game { ⟦<Leduc as Game>⟧.is_game result }
        ensures rules { ⟦<Leduc as Game>⟧.rules result ≡ leduc_rules }
    {
        Leduc { players }
    }
}

impl LeducState {
    ghost use Rattle.std.specs.Prelude.{reverse};
    ghost use Rattle.spiel_poker.specs.declared.leduc.Round.TheVariants.{Second};
    ghost use Rattle.spiel_api.specs.Plays.{IsPlay};
    ghost use Rattle.spiel_poker.specs.Leduc.{leduc_rules, parts, round_texts};
    ghost use Rattle.spiel_poker.specs.LeducState.{IsLeducAt, front};

    /// The players' cards, so far as they are dealt.
    fn cards(&self) -> &[u32]
        ensures { result.now ≡ take 2 self.now.history }
    {
        let history = self.history.items();
        if history.len() < 2 {
            history
        } else {
            &history[..2]
        }
    }

    /// Who wins, if a player does: who is left, or has the better card.
    fn winner(&self) -> Option<u32>
        requires { 2 ≤ length self.now.history }
        ensures { result ≡ winner_in (seats self.now.table.folded self.now.table.speaker)
            (better_card (slice_index self.now.history 0) (slice_index self.now.history 1) self.now.public) }
    {
        let history = self.history.items();
        if self.table.folded {
            Some(self.table.speaker)
        } else {
            better(history[0], history[1], self.public)
        }
    }

    /// The words of the first round, when it is over.
    #[tactic(auto, using(crate::proofs::Said::first_said))]
    fn first_words(&self) -> &[u32]
        requires at { IsLeducAt self.now }
        requires second { self.now.round ≡ Second }
        ensures { result.now ≡ reverse (parts 2 self.now.history).first }
    {
        &self.history.items()[2..self.public_at]
    }

    /// The words of the second round.
    #[tactic(auto, using(crate::proofs::Said::second_said))]
    fn second_words(&self) -> &[u32]
        requires at { IsLeducAt self.now }
        requires second { self.now.round ≡ Second }
        ensures { result.now ≡ reverse (parts 2 self.now.history).words }
    {
        &self.history.items()[self.public_at + 1..]
    }

    /// The words of both rounds, with the public card between them.
    fn write_both(&self, out: &mut Text) -> Result<(), NoMemory>
        requires at { IsLeducAt self.now }
        requires second { self.now.round ≡ Second }
        ensures { Adds result out.old out.new (round_texts 2 (parts 2 self.now.history)) }
    {
        write_letters(self.first_words(), out)?;
        out.push(b"/")?;
        write_card(self.public, out)?;
        write_letters(self.second_words(), out)
    }

    /// Goes on to one number more of the history, when the state shows as many as `count`.
    fn show(&mut self, count: usize)
        requires play { IsPlay leduc_rules self.old.history }
        requires more { count < length self.old.history }
        requires shown { IsLeducAt (front count self.old) }
        ensures history { self.new.history ≡ self.old.history }
        ensures shown { IsLeducAt (front (count + 1) self.new) }
    {
        let action = self.history.items()[count];
        match self.round {
            Round::Deal => {
                if count == 1 {
                    self.round = Round::First;
                }
            }
            Round::First if self.table.owed == 0 => {
                self.round = Round::Second;
                self.public = action;
                self.public_at = count;
                self.table = second_table(self.table);
            }
            Round::First => self.table = self.table.after(action, FIRST_RAISE),
            Round::Second => self.table = self.table.after(action, SECOND_RAISE),
        }
    }

    /// Shows the history from its first number on.
    fn show_all(&mut self)
        requires { IsPlay leduc_rules self.old.history }
        ensures history { self.new.history ≡ self.old.history }
        ensures shown { IsLeducAt self.new }
    {
        self.round = Round::Deal;
        self.public = 0;
        self.public_at = 2;
        self.table = first_table();
        for count in 0..self.history.items().len() {
            self.show(count);
        }
    }

    /// All words, and the public card when it is dealt.
    fn write_rounds(&self, out: &mut Text) -> Result<(), NoMemory>
        requires at { IsLeducAt self.now }
        requires cards { 2 ≤ length self.now.history }
        ensures { Adds result out.old out.new (round_texts (parts 2 self.now.history).round (parts 2 self.now.history)) }
    {
        match self.round {
            Round::Second => self.write_both(out),
            _ => write_letters(&self.history.items()[2..], out),
        }
    }
}

/// The table as the first round begins.
fn first_table() -> Table
    ensures { IsTable result (first_opening 2) [] }
{
    Table {
        speaker: 0,
        owed: 2,
        raises: 0,
        highest: 1,
        stakes: [1, 1],
        folded: false,
    }
}

/// The table as the second round begins, after a first round that nobody left.
fn second_table(table: Table) -> Table
    ensures { (words : List ℕ) → IsTable table (first_opening 2) words → table.folded ≡ false → IsTable result (second_opening 2 words) [] }
{
    let stakes = table.stakes;
    let opened = first_table();
    Table {
        highest: table.highest,
        stakes,
        ..opened
    }
}

/// A card and a colon.
fn write_card(card: u32, out: &mut Text) -> Result<(), NoMemory>
    ensures { Adds result out.old out.new (decimal card ++ codes ":") }
{
    write_number(card, out)?;
    out.push(b":")
}

/// The letters of these words, in order.
fn write_letters(words: &[u32], out: &mut Text) -> Result<(), NoMemory>
    ensures { Adds result out.old out.new (map word_letter words.now) }
{
    for word in words {
        out.push(match *word {
            FOLD => b"f",
            CALL => b"c",
            _ => b"r",
        })?;
    }
    Ok(())
}

/// The name of a word.
fn word_name(word: u32) -> &'static [u8]
    ensures { result.now ≡ bet_name word }
{
    match word {
        FOLD => b"fold",
        CALL => b"call",
        _ => b"raise",
    }
}

/// Who has the better of two cards beside the public card, if one is better.
fn better(first: u32, second: u32, public: u32) -> Option<u32>
    ensures { result ≡ better_card first second public }
{
    if first / 2 == second / 2 {
        None
    } else if first / 2 == public / 2 {
        Some(0)
    } else if second / 2 == public / 2 {
        Some(1)
    } else if second / 2 < first / 2 {
        Some(0)
    } else {
        Some(1)
    }
}

impl Game for Leduc {
    ghost use Rattle.std.specs.Prelude.{◌≡◌, List, ℕ, ⊤};
    ghost use Rattle.spiel_poker.specs.Leduc.{leduc_rules};
    ghost use Rattle.spiel_poker.specs.LeducState.{IsLeducAt};
    ghost use Rattle.spiel_poker.specs.LeducLaws.{leduc_lawful};

    type State = LeducState;

    ghost is_game = { λ _. ⊤ };

    ghost rules = { λ _. leduc_rules };

    ghost is_at = { λ _ s. IsLeducAt s };

    ghost history_of = { λ _ s. s.history };

    ghost plays = { λ g s at. at.play };

    ghost lawful = { λ g h. leduc_lawful };

    ghost can_be_played = { λ g s at. tt };

    fn players(&self) -> u32 {
        self.players
    }

    fn unit(&self) -> i64 {
        1
    }

    fn pay_cap(&self) -> i64 {
        13
    }

    fn one_shot(&self) -> bool {
        false
    }

    #[tactic(auto, unfolding(crate::specs::Leduc::parts))]
    fn start(&self, alloc: Global) -> Result<LeducState, NoMemory> {
        Ok(LeducState {
            history: List::new(alloc),
            round: Round::Deal,
            public: 0,
            public_at: 2,
            table: first_table(),
        })
    }

    fn place(&self, state: &LeducState) -> Place {
        match state.round {
            Round::Deal => Place::Chance,
            Round::First => state.table.place_or(Place::Chance),
            Round::Second => state.table.place_or(Place::End),
        }
    }

    fn legal_count(&self, state: &LeducState, player: u32) -> u32 {
        match self.place(state) {
            Place::Chance => left_count(CARDS, state.cards()),
            Place::Move(mover) if mover == player => state.table.word_count(),
            _ => 0,
        }
    }

    fn legal_at(&self, state: &LeducState, _player: u32, index: u32) -> u32 {
        match self.place(state) {
            Place::Chance => left_at(CARDS, state.cards(), index),
            _ => state.table.word_at(index),
        }
    }

    fn weight_at(&self, _state: &LeducState, _index: u32) -> u64 {
        1
    }

    fn pay(&self, state: &LeducState, player: u32) -> i64 {
        let stakes = state.table.stakes;
        match state.winner() {
            None => 0,
            Some(winner) if winner == player => i64::from(stakes[1 - player as usize]),
            Some(_) => -i64::from(stakes[player as usize]),
        }
    }

    fn history<'a>(&self, state: &'a LeducState) -> &'a [u32] {
        state.history.items()
    }

    fn info(
        &self,
        _alloc: Global,
        state: &LeducState,
        player: u32,
        out: &mut Text,
    ) -> Result<(), NoMemory> {
        write_card(state.history.items()[player as usize], out)?;
        state.write_rounds(out)
    }

    fn action_name(
        &self,
        _alloc: Global,
        state: &LeducState,
        _player: u32,
        action: u32,
        out: &mut Text,
    ) -> Result<(), NoMemory> {
        match self.place(state) {
            Place::Chance => {
                out.push(b"deal ")?;
                write_number(action, out)
            }
            _ => out.push(word_name(action)),
        }
    }

    fn apply(&self, _alloc: Global, state: &mut LeducState, action: u32) -> Result<(), NoMemory> {
        let count = state.history.items().len();
        state.history.push(action)?;
        state.show(count);
        Ok(())
    }

    fn undo(&self, state: &mut LeducState) {
        state.history.pop();
        state.show_all();
    }

    fn copy(&self, alloc: Global, state: &LeducState) -> Result<LeducState, NoMemory> {
        Ok(LeducState {
            history: state.history.copy(alloc)?,
            round: state.round,
            public: state.public,
            public_at: state.public_at,
            table: state.table,
        })
    }
}
