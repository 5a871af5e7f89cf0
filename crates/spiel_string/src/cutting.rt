ghost use Rattle.std.specs.Prelude.{◌≡◌, ◌<◌, ◌≤◌, ◌+◌, ◌==◌, ◌&&◌, not, true, false, length, drop, [], ◌∷◌, ◌++◌, All, Ok, IfOk, IfErr, IfSome, IfNone};
ghost use Rattle.spiel_string.specs.Tokens.{IsTokenFault, IsWithin, Rise, begins_word, cut, file_tokens, first, first_is, is_of_word, is_token_word, most_file_bytes, text_from, tokens_from};
ghost use Rattle.spiel_string.specs.Cutting.{IsFaultOf, Steps, begins_space, is_of_space};
ghost use Rattle.spiel_string.specs.declared.token.Token.TheVariants.{Word, Quote};
ghost use Rattle.spiel_string.specs.declared.token.TokenFault.TheVariants.{NoMemory as NoMemoryForTokens};

use crate::quoting::is_behind;
use crate::token::{Kind, Token, TokenFault, kind_of};
use spiel_frac::List;
use std::alloc::Global;

fn is_of_space(kind: Kind) -> bool
    ensures { result ≡ is_of_space kind }
{
    matches!(kind, Kind::Space)
}

fn is_of_word(kind: Kind) -> bool
    ensures { result ≡ is_of_word kind }
{
    matches!(kind, Kind::WordByte)
}

// The place behind the white space at the front.
fn past_space(bytes: &[u8]) -> usize
    ensures within { result ≤ length bytes.now }
    ensures same { tokens_from 0 bytes.now ≡ tokens_from result (drop result bytes.now) }
    ensures other { begins_space (drop result bytes.now) ≡ false }
{
    for at in 0..bytes.len() {
        if !is_of_space(kind_of(bytes[at])) {
            return at;
        }
    }
    bytes.len()
}

// The place behind the word that begins at a place, or that place where none does.
fn word_end(bytes: &[u8], from: usize) -> usize
    requires { from ≤ length bytes.now }
    ensures later { from ≤ result }
    ensures within { result ≤ length bytes.now }
    ensures word { from < result → tokens_from from (drop from bytes.now) ≡ first (Word from result) (tokens_from result (drop result bytes.now)) }
    ensures none { from ≡ result → begins_word (drop from bytes.now) ≡ false }
{
    for to in from..bytes.len() {
        if !is_of_word(kind_of(bytes[to])) {
            return to;
        }
    }
    bytes.len()
}

// Whether a byte closes the text in which it stands.
fn closes(behind: bool, byte: u8) -> bool
    ensures { result ≡ (not behind && (byte == 34)) }
{
    !behind && byte == b'"'
}

// The place of the quote that closes a text, which was opened at a place.
fn text_end(bytes: &[u8], opened: usize) -> Option<usize>
    requires { opened < length bytes.now }
    ensures later { IfSome result (λ to. opened < to) }
    ensures within { IfSome result (λ to. to < length bytes.now) }
    ensures some { IfSome result (λ to. text_from opened (opened + 1) (drop (opened + 1) bytes.now) ≡ first (Quote (opened + 1) to) (tokens_from (to + 1) (drop (to + 1) bytes.now))) }
    ensures none { IfNone result (text_from opened (opened + 1) (drop (opened + 1) bytes.now) ≡ cut opened) }
{
    let mut behind = false;
    for at in opened + 1..bytes.len() {
        if closes(behind, bytes[at]) {
            return Some(at);
        }
        behind = is_behind(behind, bytes[at]);
    }
    None
}

// Adds a token, and gives the place behind it.
fn add(found: &mut List<Token>, token: Token, next: usize) -> Result<usize, TokenFault>
    ensures next { IfOk result (λ at. at ≡ next) }
    ensures ok { IfOk result (λ _. found.new ≡ found.old ++ token ∷ []) }
    ensures err { IfErr result (λ fault. fault ≡ NoMemoryForTokens) }
{
    found.push(token)?;
    Ok(next)
}

// Adds the word that begins at a place.
#[tactic(auto, unfolding(crate::specs::Tokens::most_file_bytes))]
fn add_word(found: &mut List<Token>, bytes: &[u8], at: usize) -> Result<usize, TokenFault>
    requires place { at < length bytes.now }
    requires short { length bytes.now ≤ most_file_bytes }
    requires word { begins_word (drop at bytes.now) ≡ true }
    ensures ok { IfOk result (Steps bytes.now at found.old found.new) }
    ensures err { IfErr result (λ fault. fault ≡ NoMemoryForTokens) }
{
    let to = word_end(bytes, at);
    let token = Token::Word {
        from: at as u32,
        to: to as u32,
    };
    add(found, token, to)
}

// Adds the text whose opening quote stands at a place.
#[tactic(auto, unfolding(crate::specs::Tokens::most_file_bytes))]
fn add_text(found: &mut List<Token>, bytes: &[u8], at: usize) -> Result<usize, TokenFault>
    requires place { at < length bytes.now }
    requires short { length bytes.now ≤ most_file_bytes }
    requires text { tokens_from at (drop at bytes.now) ≡ text_from at (at + 1) (drop (at + 1) bytes.now) }
    ensures ok { IfOk result (Steps bytes.now at found.old found.new) }
    ensures err { IfErr result (IsFaultOf (tokens_from at (drop at bytes.now))) }
{
    let Some(to) = text_end(bytes, at) else {
        return Err(TokenFault::Unclosed { at: at as u32 });
    };
    let token = Token::Quote {
        from: at as u32 + 1,
        to: to as u32,
    };
    add(found, token, to + 1)
}

// Adds the token that begins at a place, if one does, and gives the place from which to go on.
fn step(found: &mut List<Token>, bytes: &[u8], at: usize) -> Result<usize, TokenFault>
    requires place { at < length bytes.now }
    requires short { length bytes.now ≤ most_file_bytes }
    ensures ok { IfOk result (Steps bytes.now at found.old found.new) }
    ensures err { IfErr result (IsFaultOf (tokens_from at (drop at bytes.now))) }
{
    match kind_of(bytes[at]) {
        Kind::Space => Ok(at + 1),
        Kind::LeftBrace => add(found, Token::Left, at + 1),
        Kind::RightBrace => add(found, Token::Right, at + 1),
        Kind::CommaByte => add(found, Token::Comma, at + 1),
        Kind::QuoteMark => add_text(found, bytes, at),
        Kind::WordByte => add_word(found, bytes, at),
    }
}

/// The tokens of a Gambit file of at most 67,108,864 bytes, in their order, unless a text isn't closed. Readers
/// cut the bytes of each out with no test of their own.
pub fn tokens(alloc: Global, bytes: &[u8]) -> Result<List<Token>, TokenFault>
    requires { length bytes.now ≤ most_file_bytes }
    ensures ok { IfOk result (λ list. file_tokens bytes.now ≡ Ok list) }
    ensures err { IfErr result (IsTokenFault bytes.now) }

    // Each stands within the file, and behind the one before it.
    ensures within { IfOk result (All (IsWithin (length bytes.now))) }
    ensures rise { IfOk result (Rise 0 (length bytes.now)) }
{
    let mut found = List::new(alloc);
    let mut at = 0;
    while at < bytes.len() {
        at = step(&mut found, bytes, at)?;
    }
    Ok(found)
}

/// Whether the first token of a file is this word. It takes no memory, and what stands behind the token
/// doesn't matter: a text there may be unclosed.
pub fn begins_with(bytes: &[u8], word: &[u8]) -> bool
    requires { is_token_word word.now ≡ true }
    ensures { result ≡ first_is bytes.now word.now (tokens_from 0 bytes.now).tokens }
{
    let from = past_space(bytes);
    let to = word_end(bytes, from);
    &bytes[from..to] == word
}
