ghost use Rattle.std.specs.Prelude.{◌≡◌, ◌<◌, ◌^◌, ◌||◌, ℕ, List, [], ◌∷◌, length, map, All, IsTrue, ◌↔◌, IfOk, Ok, None, Some, MatchOption, MatchResult, codes};
ghost use Rattle.spiel_string.specs.Tokens.{IsWithin};
ghost use Rattle.spiel_efg.specs.ReadingTokens.{IsComputed, begins, begins_at, behind, behind_comma, is_comma_in, is_left_in, is_right_in, is_word, left_at, mark_of, name_at, next_begins, next_number, next_player, next_text, next_whole, next_word, number_at, passed, player_at, rest_from, right_at, text_at, text_in, whole_at, whole_number, word_at, word_in};
ghost use Rattle.spiel_efg.specs.declared.read_fault.EfgFault.TheVariants.{Grammar};

use crate::read_fault::EfgFault;
use spiel_frac::{NoMemory, Text};
use spiel_string::{Token, token_bytes, unescape};
use std::alloc::Global;
use std::marker::Model;

/// Reads the tokens of a file, one after the other. Contracts see what is left to read.
#[derive(Drop)]
pub(crate) struct Reader<'a> {
    bytes: &'a [u8],
    tokens: &'a [Token],
    /// The number of tokens that were read.
    at: usize,
}

impl<'a> Model for Reader<'a> {
    ghost use Rattle.spiel_efg.specs.ReadingTokens.{IsReaderAt, Rest, rest_from};

    ghost Value = { Rest };

    ghost view = { λ reader. rest_from reader.bytes.now reader.tokens.now reader.at };

    ghost invariant = { λ reader. IsReaderAt reader.bytes.now reader.tokens.now reader.at };
}

// The bytes of the first of these tokens, if it is a word.
fn word_in<'a>(bytes: &'a [u8], tokens: &[Token]) -> Option<&'a [u8]>
    requires { All (IsWithin (length bytes.now)) tokens.now }
    ensures { MatchOption result (word_in (map (mark_of bytes.now) tokens.now) ≡ None)
        (λ found. word_in (map (mark_of bytes.now) tokens.now) ≡ Some found.now) }
{
    match tokens.split_first() {
        Some((Token::Word { from, to }, _)) => Some(&bytes[*from as usize..*to as usize]),
        _ => None,
    }
}

// What the first of these tokens says, if it is a text.
fn text_in(alloc: Global, bytes: &[u8], tokens: &[Token]) -> Result<Option<Text>, NoMemory>
    requires { All (IsWithin (length bytes.now)) tokens.now }
    ensures { IfOk result (λ text. text_in (map (mark_of bytes.now) tokens.now) ≡ text) }
{
    match tokens.split_first() {
        Some((Token::Quote { from, to }, _)) => {
            let mut text = Text::new(alloc);
            unescape(&bytes[*from as usize..*to as usize], &mut text)?;
            Ok(Some(text))
        }
        _ => Ok(None),
    }
}

// Whether the first of these tokens is an opening brace.
fn is_left_in(tokens: &[Token]) -> bool
    ensures { (bytes : List ℕ) → result ≡ is_left_in (map (mark_of bytes) tokens.now) }
{
    matches!(tokens.split_first(), Some((Token::Left, _)))
}

// Whether the first of these tokens is a closing brace.
fn is_right_in(tokens: &[Token]) -> bool
    ensures { (bytes : List ℕ) → result ≡ is_right_in (map (mark_of bytes) tokens.now) }
{
    matches!(tokens.split_first(), Some((Token::Right, _)))
}

// Whether the first of these tokens is a comma.
fn is_comma_in(tokens: &[Token]) -> bool
    ensures { (bytes : List ℕ) → result ≡ is_comma_in (map (mark_of bytes) tokens.now) }
{
    matches!(tokens.split_first(), Some((Token::Comma, _)))
}

impl<'a> Reader<'a> {
    /// A reader of tokens of these bytes, none of which was read.
    pub(crate) fn new(bytes: &'a [u8], tokens: &'a [Token]) -> Reader<'a>
        requires within { All (IsWithin (length bytes.now)) tokens.now }
        requires few { length tokens.now < 2 ^ 32 }
        ensures { result ≡ rest_from bytes.now tokens.now 0 }
    {
        Reader {
            bytes,
            tokens,
            at: 0,
        }
    }

    /// The number of the next token.
    pub(crate) fn place(&self) -> u32
        ensures { result ≡ self.now.before }
    {
        self.at as u32
    }

    /// Whether no token is left.
    pub(crate) fn is_done(&self) -> bool
        ensures { IsTrue result ↔ (self.now.marks ≡ []) }
    {
        self.at == self.tokens.len()
    }

    /// Goes behind the next token, if there is one.
    pub(crate) fn skip(&mut self)
        ensures { self.new ≡ behind self.old }
    {
        if self.at < self.tokens.len() {
            self.at += 1;
        }
    }

    /// The bytes of the next token, if it is a word.
    pub(crate) fn word(&self) -> Option<&'a [u8]>
        ensures { MatchOption result (next_word self.now ≡ None) (λ found. next_word self.now ≡ Some found.now) }
    {
        word_in(self.bytes, &self.tokens[self.at..])
    }

    /// What the next token says, if it is a text.
    pub(crate) fn text(&self, alloc: Global) -> Result<Option<Text>, NoMemory>
        ensures { IfOk result (λ text. next_text self.now ≡ text) }
    {
        text_in(alloc, self.bytes, &self.tokens[self.at..])
    }

    /// Whether the next token is an opening brace.
    pub(crate) fn is_left(&self) -> bool
        ensures { result ≡ is_left_in self.now.marks }
    {
        is_left_in(&self.tokens[self.at..])
    }

    /// Whether the next token is a closing brace.
    pub(crate) fn is_right(&self) -> bool
        ensures { result ≡ is_right_in self.now.marks }
    {
        is_right_in(&self.tokens[self.at..])
    }

    /// Whether the next token is a comma.
    pub(crate) fn is_comma(&self) -> bool
        ensures { result ≡ is_comma_in self.now.marks }
    {
        is_comma_in(&self.tokens[self.at..])
    }

    /// The fault that the next token can't follow.
    pub(crate) fn fault(&self) -> EfgFault
        ensures { result ≡ Grammar self.now.before }
    {
        EfgFault::Grammar {
            token: self.place(),
        }
    }
}
