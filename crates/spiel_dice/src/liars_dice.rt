//! Liar's dice of two players: its rules in words, and its state.
ghost use Rattle.std.specs.Prelude.{◌≡◌, ◌<◌, ◌≤◌, ◌*◌, ◌+◌, ◌++◌, ◌∷◌, ◌==◌, ◌↔◌, length, replicate, codes, count_by, IsOk, IfOk, OnOk, if◌then◌else◌, Some};
ghost use Rattle.std.specs.Fmt.{decimal};
ghost use Rattle.spiel_frac.specs.Adding.{Adds};
ghost use Rattle.spiel_frac.specs.Listed.{listed};
ghost use Rattle.spiel_dice.specs.LiarsDice.{between, liar, is_rolling, all_dice, dice_of, calls_of, numbers_after, faces_of, call_name, shown, liars_dice_rules};
ghost use Rattle.spiel_dice.specs.LiarsDiceState.{IsWithinRange, IsLiarsDiceAt};

use spiel_api::{Game, Place};
use spiel_frac::{List, NoMemory, Text, write_number, write_numbers};
use std::alloc::Global;
use std::error::Error;
use std::fmt;

/// The number of dice isn't 1 to 5, or the number of sides isn't 2 to 20.
#[derive(Clone, Copy, Debug, PartialEq, Eq)]
pub struct BadDice;

impl fmt::Display for BadDice {
    ghost output = { λ _. Some (codes "the number of dice isn't 1 to 5, or that of sides isn't 2 to 20") };

    fn fmt<W: fmt::Write>(&self, f: &mut fmt::Formatter<W>) -> fmt::Result {
        write!(
            f,
            "the number of dice isn't 1 to 5, or that of sides isn't 2 to 20"
        )
    }
}

impl Error for BadDice {}

/// Liar's dice of two players, each with the same number of dice of the same number of sides.
///
/// Chance rolls the dice of player 0, one for each step, and then those of player 1. Nobody sees the
/// other's dice. Then the players call in turn, and player 0 begins. A bid says that at least so
/// many of all dice show a face or the highest face, which is wild. It has to be higher than the
/// last: a larger quantity, or the same quantity of a larger face. Whoever doubts the last bid calls
/// `liar`, which ends the play. If the bid was true its maker gets 1 from the other, and else pays
/// 1.
///
/// The number of a roll is the face less 1, and its name is `roll F`. The number of a bid counts the
/// bids from the lowest on, and its name is the quantity and the face, as `2-6`. The number of
/// `liar` is the count of bids. The information text is the player's own faces in rising order with
/// commas between, a colon, and the numbers of the bids with spaces between, as `4:0 7`.
#[derive(Clone, Copy, Debug)]
pub struct LiarsDice {
    dice: u32,
    sides: u32,
}

/// A state of liar's dice: the rolls and the calls of a play.
#[derive(Drop)]
pub struct LiarsDiceState {
    history: List<u32>,
}

/// Numbers that can come next: from the first on, below the second.
#[derive(Clone, Copy)]
struct Choices {
    low: u32,
    high: u32,
}

impl LiarsDice {
    /// The game in which each player has so many dice of so many sides. `BadDice` comes exactly
    /// where there aren't 1 to 5 dice or not 2 to 20 sides.
    pub fn new(numdice: u32, sides: u32) -> Result<LiarsDice, BadDice>
        ensures accepted { IsOk result ↔ IsWithinRange numdice sides }
        ensures game { IfOk result (λ game. ⟦<LiarsDice as Game>⟧.is_game game) }
        ensures rules { IfOk result (λ game. ⟦<LiarsDice as Game>⟧.rules game ≡ liars_dice_rules numdice sides) }
    {
        if (1..=5).contains(&numdice) && (2..=20).contains(&sides) {
            Ok(LiarsDice::of(numdice, sides))
        } else {
            Err(BadDice)
        }
    }

    /// The same game, of 1 to 5 dice with 2 to 20 sides.
    pub fn of(numdice: u32, sides: u32) -> LiarsDice
        requires { IsWithinRange numdice sides }
        ensures game { ⟦<LiarsDice as Game>⟧.is_game result }
        ensures rules { ⟦<LiarsDice as Game>⟧.rules result ≡ liars_dice_rules numdice sides }
    {
        LiarsDice {
            dice: numdice,
            sides,
        }
    }

    /// How many rolls stand before the calls.
    fn rolls(&self) -> usize
        ensures { result ≡ 2 * self.now.dice }
    {
        2 * self.dice as usize
    }

    /// The number of `liar`.
    fn liar(&self) -> u32
        requires { IsWithinRange self.now.dice self.now.sides }
        ensures { result ≡ liar self.now.dice self.now.sides }
    {
        2 * self.dice * self.sides
    }

    /// Whether somebody has dice to roll.
    fn is_rolling(&self, state: &LiarsDiceState) -> bool
        ensures { result ≡ is_rolling self.now.dice state.now.history }
    {
        state.history.items().len() < self.rolls()
    }

    /// The calls so far.
    fn calls<'a>(&self, state: &'a LiarsDiceState) -> &'a [u32]
        requires { 2 * self.now.dice ≤ length state.now.history }
        ensures { result.now ≡ calls_of self.now.dice state.now.history }
    {
        &state.history.items()[self.rolls()..]
    }

    /// The numbers of whoever is next.
    fn choices(&self, state: &LiarsDiceState) -> Choices
        requires { IsLiarsDiceAt self.now state.now }
        ensures numbers { between result.low result.high ≡ numbers_after self.now.dice self.now.sides state.now.history }
        ensures ordered { result.low ≤ result.high }
        ensures small { result.high ≤ 201 }
    {
        if self.is_rolling(state) {
            return Choices {
                low: 0,
                high: self.sides,
            };
        }
        match self.calls(state).last() {
            None => Choices {
                low: 0,
                high: self.liar(),
            },
            Some(call) => Choices {
                low: *call + 1,
                high: self.liar() + 1,
            },
        }
    }

    /// How many dice show the face of the bid or the highest face.
    fn shown(&self, state: &LiarsDiceState, bid: u32) -> usize
        requires range { IsWithinRange self.now.dice self.now.sides }
        requires rolled { 2 * self.now.dice ≤ length state.now.history }
        ensures { result ≡ shown self.now.sides bid (all_dice self.now.dice state.now.history) }
    {
        let face = bid % self.sides;
        let wild = self.sides - 1;
        let dice = &state.history.items()[..self.rolls()];
        dice.iter()
            .filter(|die| **die == face || **die == wild)
            .count()
    }

    /// The dice of a player.
    fn dice_of<'a>(&self, state: &'a LiarsDiceState, player: u32) -> &'a [u32]
        requires range { IsWithinRange self.now.dice self.now.sides }
        requires rolled { 2 * self.now.dice ≤ length state.now.history }
        requires player { player < 2 }
        ensures { result.now ≡ dice_of player self.now.dice state.now.history }
    {
        let dice = self.dice as usize;
        let own = &state.history.items()[player as usize * dice..];
        &own[..dice]
    }

    /// The faces of some dice in rising order.
    fn faces(&self, alloc: Global, dice: &[u32]) -> Result<List<u32>, NoMemory>
        requires { IsWithinRange self.now.dice self.now.sides }
        ensures { IfOk result (λ faces. faces ≡ faces_of self.now.sides dice.now) }
    {
        let mut faces = List::new(alloc);
        for roll in 0..self.sides {
            add_face(roll, dice, &mut faces)?;
        }
        Ok(faces)
    }

    /// Adds the faces of some dice in rising order.
    fn push_faces(&self, alloc: Global, dice: &[u32], out: &mut Text) -> Result<(), NoMemory>
        requires { IsWithinRange self.now.dice self.now.sides }
        ensures { Adds result out.old out.new (listed 44 (faces_of self.now.sides dice.now)) }
    {
        let faces = self.faces(alloc, dice)?;
        write_numbers(faces.items(), b',', out)
    }

    /// Adds the name of a call.
    fn push_call(&self, call: u32, out: &mut Text) -> Result<(), NoMemory>
        requires range { IsWithinRange self.now.dice self.now.sides }
        requires call { call ≤ 200 }
        ensures { Adds result out.old out.new (call_name self.now.dice self.now.sides call) }
    {
        if call == self.liar() {
            return out.push(b"liar");
        }
        write_number(call / self.sides + 1, out)?;
        out.push(b"-")?;
        write_number(call % self.sides + 1, out)
    }
}

/// Adds the name of a roll.
fn push_roll(roll: u32, out: &mut Text) -> Result<(), NoMemory>
    requires { roll ≤ 200 }
    ensures { Adds result out.old out.new (codes "roll " ++ decimal (roll + 1)) }
{
    out.push(b"roll ")?;
    write_number(roll + 1, out)
}

/// Adds the face of a roll as often as it was rolled.
fn add_face(roll: u32, dice: &[u32], faces: &mut List<u32>) -> Result<(), NoMemory>
    requires { roll < 20 }
    ensures { OnOk result (faces.new ≡ faces.old ++ replicate (count_by (λ die. die == roll) dice.now) (roll + 1)) }
{
    for die in dice {
        if *die == roll {
            faces.push(roll + 1)?;
        }
    }
    Ok(())
}

impl Game for LiarsDice {
    ghost use Rattle.std.specs.Prelude.{◌≡◌, List, ℕ};
    ghost use Rattle.spiel_dice.specs.LiarsDice.{liars_dice_rules};
    ghost use Rattle.spiel_dice.specs.LiarsDiceState.{IsWithinRange, IsLiarsDiceAt};
    ghost use Rattle.spiel_dice.specs.LiarsDiceLaws.{liars_dice_lawful};

    type State = LiarsDiceState;

    ghost is_game = { λ g. IsWithinRange g.dice g.sides };

    ghost rules = { λ g. liars_dice_rules g.dice g.sides };

    ghost is_at = { λ g s. IsLiarsDiceAt g s };

    ghost history_of = { λ _ s. s.history };

    ghost plays = { λ g s at. at.play };

    ghost lawful = { λ g h. liars_dice_lawful g.dice g.sides h };

    ghost can_be_played = { λ g s at. at.range };

    fn players(&self) -> u32 {
        2
    }

    fn unit(&self) -> i64 {
        1
    }

    fn pay_cap(&self) -> i64 {
        1
    }

    fn one_shot(&self) -> bool {
        false
    }

    fn start(&self, alloc: Global) -> Result<LiarsDiceState, NoMemory> {
        Ok(LiarsDiceState {
            history: List::new(alloc),
        })
    }

    fn place(&self, state: &LiarsDiceState) -> Place {
        if self.is_rolling(state) {
            return Place::Chance;
        }
        let calls = self.calls(state);
        let mover = Place::Move((calls.len() % 2) as u32);
        match calls.last() {
            Some(call) if *call == self.liar() => Place::End,
            Some(_) | None => mover,
        }
    }

    #[tactic(auto, using(spiel_api::proofs::TurnLaws::turn_steps))]
    fn legal_count(&self, state: &LiarsDiceState, player: u32) -> u32 {
        let choices = self.choices(state);
        match self.place(state) {
            Place::Chance => choices.high - choices.low,
            Place::Move(mover) if mover == player => choices.high - choices.low,
            Place::Move(_) | Place::End | Place::Joint(_) => 0,
        }
    }

    #[tactic(auto, using(spiel_api::proofs::TurnLaws::turn_steps))]
    fn legal_at(&self, state: &LiarsDiceState, _player: u32, index: u32) -> u32 {
        self.choices(state).low + index
    }

    fn weight_at(&self, _state: &LiarsDiceState, _index: u32) -> u64 {
        1
    }

    fn pay(&self, state: &LiarsDiceState, player: u32) -> i64 {
        let calls = self.calls(state);
        let bid = calls[calls.len() - 2];
        let maker = (calls.len() % 2) as u32;
        let is_true = bid / self.sides + 1 <= self.shown(state, bid) as u32;
        if (player == maker) == is_true { 1 } else { -1 }
    }

    fn history<'a>(&self, state: &'a LiarsDiceState) -> &'a [u32] {
        state.history.items()
    }

    fn info(
        &self,
        alloc: Global,
        state: &LiarsDiceState,
        player: u32,
        out: &mut Text,
    ) -> Result<(), NoMemory> {
        self.push_faces(alloc, self.dice_of(state, player), out)?;
        out.push(b":")?;
        write_numbers(self.calls(state), b' ', out)
    }

    fn action_name(
        &self,
        _alloc: Global,
        state: &LiarsDiceState,
        _player: u32,
        action: u32,
        out: &mut Text,
    ) -> Result<(), NoMemory> {
        if self.is_rolling(state) {
            push_roll(action, out)
        } else {
            self.push_call(action, out)
        }
    }

    #[tactic(auto, using(spiel_api::proofs::PlayLemmas::play_steps))]
    fn apply(
        &self,
        _alloc: Global,
        state: &mut LiarsDiceState,
        action: u32,
    ) -> Result<(), NoMemory> {
        state.history.push(action)?;
        Ok(())
    }

    fn undo(&self, state: &mut LiarsDiceState) {
        state.history.pop();
    }

    fn copy(&self, alloc: Global, state: &LiarsDiceState) -> Result<LiarsDiceState, NoMemory> {
        Ok(LiarsDiceState {
            history: state.history.copy(alloc)?,
        })
    }
}
