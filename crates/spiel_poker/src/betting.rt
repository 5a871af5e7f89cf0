//! A round of fold, call and raise between two players: who speaks next, and what each has paid.
ghost use Rattle.std.specs.Prelude.{◌≡◌, ◌<◌, ◌≤◌, ℕ, List, ◌∷◌, length, slice_index, nat_lt};
ghost use Rattle.spiel_api.specs.declared.place.Place.{Place};
ghost use Rattle.spiel_poker.specs.Betting.{Opening, words_for};
ghost use Rattle.spiel_poker.specs.Leduc.{place_in};
ghost use Rattle.spiel_poker.specs.Table.{IsTable, MaySpeak, seats};

use spiel_api::Place;

/// The word of a player who gives up.
pub const FOLD: u32 = 0;

/// The word of a player who pays the highest stake.
pub const CALL: u32 = 1;

/// How many raises a round may have.
const MOST_RAISES: u32 = 2;

/// What two players see of the round that is on.
#[derive(Clone, Copy, Debug)]
pub struct Table {
    /// Who speaks next, or who is left when the other has folded.
    pub speaker: u32,
    /// How many words the round still owes.
    pub owed: u32,
    /// How many raises were made in this round.
    pub raises: u32,
    /// The highest stake.
    pub highest: u32,
    /// What each player has paid.
    pub stakes: [u32; 2],
    /// Whether a player has folded.
    pub folded: bool,
}

impl Table {
    /// Who speaks next. With one player left the play is over, and with no word owed the place is
    /// that after the round.
    pub fn place_or(&self, over: Place) -> Place
        ensures { result ≡ place_in (seats self.now.folded self.now.speaker) self.now.owed over }
    {
        if self.folded {
            Place::End
        } else if self.owed == 0 {
            over
        } else {
            Place::Move(self.speaker)
        }
    }

    /// Whether the speaker has paid less than the highest stake.
    fn may_fold(&self) -> bool
        requires { self.now.speaker < 2 }
        ensures { result ≡ nat_lt (slice_index self.now.stakes self.now.speaker) self.now.highest }
    {
        self.stakes[self.speaker as usize] < self.highest
    }

    /// How many words the speaker may say.
    pub fn word_count(&self) -> u32
        requires { self.now.speaker < 2 }
        ensures { result ≡ length (words_for (nat_lt (slice_index self.now.stakes self.now.speaker) self.now.highest) (nat_lt self.now.raises 2)) }
    {
        match (self.may_fold(), self.raises < MOST_RAISES) {
            (true, true) => 3,
            (false, false) => 1,
            _ => 2,
        }
    }

    /// The speaker's word at an index below `word_count`.
    pub fn word_at(&self, index: u32) -> u32
        requires speaker { self.now.speaker < 2 }
        requires index { index < length (words_for (nat_lt (slice_index self.now.stakes self.now.speaker) self.now.highest) (nat_lt self.now.raises 2)) }
        ensures { result ≡ slice_index (words_for (nat_lt (slice_index self.now.stakes self.now.speaker) self.now.highest) (nat_lt self.now.raises 2)) index }
    {
        if self.may_fold() { index } else { index + 1 }
    }

    /// After one word more, in a round in which a raise is by `size`.
    pub fn after(self, word: u32, size: u32) -> Table
        requires speaks { MaySpeak self }
        requires size { size < 100 }
        ensures { (opening : Opening) (words : List ℕ) → opening.size ≡ size → IsTable self opening words → IsTable result opening (word ∷ words) }
    {
        match word {
            FOLD => self.after_fold(),
            CALL => self.after_call(),
            _ => self.after_raise(size),
        }
    }

    /// The speaker folds, and the other player is left.
    fn after_fold(self) -> Table
        requires { MaySpeak self }
        ensures { (opening : Opening) (words : List ℕ) → IsTable self opening words → IsTable result opening (0 ∷ words) }
    {
        Table {
            speaker: 1 - self.speaker,
            owed: self.owed - 1,
            folded: true,
            ..self
        }
    }

    /// The speaker pays the highest stake.
    fn after_call(self) -> Table
        requires { MaySpeak self }
        ensures { (opening : Opening) (words : List ℕ) → IsTable self opening words → IsTable result opening (1 ∷ words) }
    {
        let mut stakes = self.stakes;
        stakes[self.speaker as usize] = self.highest;
        Table {
            speaker: 1 - self.speaker,
            owed: self.owed - 1,
            stakes,
            ..self
        }
    }

    /// The speaker pays more than the highest stake, by `size`.
    fn after_raise(self, size: u32) -> Table
        requires speaks { MaySpeak self }
        requires size { size < 100 }
        ensures { (opening : Opening) (words : List ℕ) (word : ℕ) → 2 ≤ word → opening.size ≡ size → IsTable self opening words → IsTable result opening (word ∷ words) }
    {
        let highest = self.highest + size;
        let mut stakes = self.stakes;
        stakes[self.speaker as usize] = highest;
        Table {
            speaker: 1 - self.speaker,
            owed: 1,
            raises: self.raises + 1,
            highest,
            stakes,
            ..self
        }
    }
}
