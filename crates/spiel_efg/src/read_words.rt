ghost use Rattle.std.specs.Prelude.{◌≡◌, ◌||◌, ℕ, List, Option, MatchOption, ◌<◌, ◌^◌, true, length, Ok, Some, None, MatchResult, codes, IfOk, OnOk};
ghost use Rattle.std.specs.Char.{is_ascii_digit};
ghost use Rattle.std.specs.List.{list_all};
ghost use Rattle.std.specs.Option.{SomeIff};
ghost use Rattle.std.specs.Str.Parse.{digits_value};
ghost use Rattle.spiel_efg.specs.ReadingTokens.{IsComputed, begins, begins_at, behind_comma, is_word, left_at, name_at, next_begins, next_number, next_player, next_whole, next_word, number_at, player_at, player_number, right_at, text_at, whole_at, whole_number, word_at, fraction_read};
ghost use Rattle.spiel_efg.specs.ReadingLines.{form_at};
ghost use Rattle.spiel_frac.specs.Reading.{frac_of};

use crate::read_fault::EfgFault;
use crate::read_mentions::Begins;
use crate::read_tokens::Reader;
use spiel_frac::{Frac, Text, read_frac};
use std::alloc::Global;
use std::str;

// What a word says that a node begins with.
fn begins(word: &[u8]) -> Option<Begins>
    ensures { result ≡ begins word.now }
{
    if word == b"c".as_slice() {
        Some(Begins::Chance)
    } else if word == b"p".as_slice() {
        Some(Begins::Personal)
    } else if word == b"t".as_slice() {
        Some(Begins::Terminal)
    } else {
        None
    }
}

// Whether each byte is a digit.
fn all_digits(bytes: &[u8]) -> bool
    ensures { result ≡ list_all is_ascii_digit bytes.now }
{
    bytes.iter().all(|byte| byte.is_ascii_digit())
}

// The number that digits write, if there are any and it is below 2^32.
fn digits_number(digits: &[u8]) -> Option<u32>
    requires { list_all is_ascii_digit digits.now ≡ true }
    ensures { SomeIff result ((0 < length digits.now) × (digits_value 10 digits.now < 2 ^ 32)) (digits_value 10 digits.now) }
{
    let text = str::from_utf8(digits).unwrap();
    text.parse::<u32>().ok()
}

// The number of 32 bits that a word of digits writes.
fn whole_number(word: &[u8]) -> Option<u32>
    ensures { result ≡ whole_number word.now }
{
    if !all_digits(word) {
        return None;
    }
    digits_number(word)
}

// The player that has a number in a file, if there are so many.
fn player_number(players: u32, number: u32) -> Option<u32>
    ensures { result ≡ player_number players number }
{
    if number >= 1 && number <= players {
        Some(number - 1)
    } else {
        None
    }
}

// The number that a word is, if it is one.
fn fraction(word: &[u8]) -> Option<Frac>
    ensures { result ≡ fraction_read (frac_of word.now) }
{
    read_frac(word).ok()
}

// Whether there is a word, and it is this one.
fn is_word(wanted: &[u8], word: Option<&[u8]>) -> bool
    ensures { (found : Option (List ℕ)) → MatchOption word.entry (found ≡ None) (λ bytes. found ≡ Some bytes.now) → result ≡ is_word wanted.now found }
{
    match word {
        Some(word) => word == wanted,
        None => false,
    }
}

impl Reader<'_> {
    /// The number of 32 bits that the next token is.
    fn whole(&self) -> Option<u32>
        ensures { result ≡ next_whole self.now }
    {
        let word = self.word()?;
        whole_number(word)
    }

    /// The player that the next token is, of so many.
    fn player(&self, players: u32) -> Option<u32>
        ensures { result ≡ next_player players self.now }
    {
        let number = self.whole()?;
        player_number(players, number)
    }

    /// The number that the next token is.
    fn number(&self) -> Option<Frac>
        ensures { result ≡ next_number self.now }
    {
        let word = self.word()?;
        fraction(word)
    }

    /// What the next token says, if a node begins with it.
    fn begins(&self) -> Option<Begins>
        ensures { result ≡ next_begins self.now }
    {
        let word = self.word()?;
        begins(word)
    }

    /// Whether the next token is this word.
    fn is_next(&self, wanted: &[u8]) -> bool
        ensures { result ≡ is_word wanted.now (next_word self.now) }
    {
        is_word(wanted, self.word())
    }

    /// Reads a text.
    pub(crate) fn take_text(&mut self, alloc: Global) -> Result<Text, EfgFault>
        ensures { MatchResult result (λ text. text_at self.old ≡ Ok (text, self.new)) (IsComputed (text_at self.old)) }
    {
        let Some(text) = self.text(alloc)? else {
            return Err(self.fault());
        };
        self.skip();
        Ok(text)
    }

    /// Reads a number of 32 bits.
    pub(crate) fn take_whole(&mut self) -> Result<u32, EfgFault>
        ensures { MatchResult result (λ number. whole_at self.old ≡ Ok (number, self.new)) (IsComputed (whole_at self.old)) }
    {
        let Some(number) = self.whole() else {
            return Err(self.fault());
        };
        self.skip();
        Ok(number)
    }

    /// Reads a player, of so many.
    pub(crate) fn take_player(&mut self, players: u32) -> Result<u32, EfgFault>
        ensures { MatchResult result (λ player. player_at players self.old ≡ Ok (player, self.new)) (IsComputed (player_at players self.old)) }
    {
        let Some(player) = self.player(players) else {
            return Err(self.fault());
        };
        self.skip();
        Ok(player)
    }

    /// Reads a number.
    pub(crate) fn take_number(&mut self) -> Result<Frac, EfgFault>
        ensures { MatchResult result (λ number. number_at self.old ≡ Ok (number, self.new)) (IsComputed (number_at self.old)) }
    {
        let Some(number) = self.number() else {
            return Err(self.fault());
        };
        self.skip();
        Ok(number)
    }

    /// Reads a word that a node begins with.
    pub(crate) fn take_begins(&mut self) -> Result<Begins, EfgFault>
        ensures { MatchResult result (λ begins. begins_at self.old ≡ Ok (begins, self.new)) (IsComputed (begins_at self.old)) }
    {
        let Some(begins) = self.begins() else {
            return Err(self.fault());
        };
        self.skip();
        Ok(begins)
    }

    /// Reads this word.
    pub(crate) fn take_word(&mut self, wanted: &[u8]) -> Result<(), EfgFault>
        ensures { MatchResult result (λ done. word_at wanted.now self.old ≡ Ok (done, self.new)) (IsComputed (word_at wanted.now self.old)) }
    {
        if !self.is_next(wanted) {
            return Err(self.fault());
        }
        self.skip();
        Ok(())
    }

    /// Reads the word `R` or `D`.
    pub(crate) fn take_form(&mut self) -> Result<(), EfgFault>
        ensures { MatchResult result (λ done. form_at self.old ≡ Ok (done, self.new)) (IsComputed (form_at self.old)) }
    {
        if !self.is_next(b"R") && !self.is_next(b"D") {
            return Err(self.fault());
        }
        self.skip();
        Ok(())
    }

    /// Reads an opening brace.
    pub(crate) fn take_left(&mut self) -> Result<(), EfgFault>
        ensures { MatchResult result (λ done. left_at self.old ≡ Ok (done, self.new)) (IsComputed (left_at self.old)) }
    {
        if !self.is_left() {
            return Err(self.fault());
        }
        self.skip();
        Ok(())
    }

    /// Reads a closing brace.
    pub(crate) fn take_right(&mut self) -> Result<(), EfgFault>
        ensures { MatchResult result (λ done. right_at self.old ≡ Ok (done, self.new)) (IsComputed (right_at self.old)) }
    {
        if !self.is_right() {
            return Err(self.fault());
        }
        self.skip();
        Ok(())
    }

    /// Reads a name that may be left out, and is empty then.
    pub(crate) fn take_name(&mut self, alloc: Global) -> Result<Text, EfgFault>
        ensures { MatchResult result (λ name. name_at self.old ≡ Ok (name, self.new)) (IsComputed (name_at self.old)) }
    {
        match self.text(alloc)? {
            Some(text) => {
                self.skip();
                Ok(text)
            }
            None => Ok(Text::new(alloc)),
        }
    }

    /// Goes behind a comma, if one is next.
    pub(crate) fn skip_comma(&mut self)
        ensures { self.new ≡ behind_comma self.old }
    {
        if self.is_comma() {
            self.skip();
        }
    }
}
