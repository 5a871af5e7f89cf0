ghost use Rattle.std.specs.Prelude.{◌≡◌, Some, length};
ghost use Rattle.spiel_string.specs.Faults.{token_fault_text};
ghost use Rattle.spiel_string.specs.Tokens.{IsWithin, kind, token_text};

use spiel_frac::NoMemory;
use std::error::Error;
use std::fmt;

/// A token of a Gambit file. Places count bytes from 0.
#[derive(Clone, Copy, Debug, PartialEq, Eq)]
pub enum Token {
    /// A word: the place of its first byte, and the place behind its last one.
    Word { from: u32, to: u32 },
    /// A quoted text: the place behind its opening quote, and the place of its closing one.
    Quote { from: u32, to: u32 },
    /// An opening brace.
    Left,
    /// A closing brace.
    Right,
    Comma,
}

/// Why a file has no tokens.
#[derive(Clone, Copy, Debug, PartialEq, Eq)]
pub enum TokenFault {
    /// A quoted text isn't closed; its opening quote stands at `at`.
    Unclosed { at: u32 },
    /// Memory ran out.
    NoMemory,
}

impl fmt::Display for TokenFault {
    ghost output = { λ fault. Some (token_fault_text fault) };

    fn fmt<W: fmt::Write>(&self, f: &mut fmt::Formatter<W>) -> fmt::Result {
        match self {
            TokenFault::Unclosed { at } => write!(f, "tokens: unclosed text at {at}"),
            TokenFault::NoMemory => write!(f, "no memory"),
        }
    }
}

impl Error for TokenFault {}

impl From<NoMemory> for TokenFault {
    ghost use Rattle.std.specs.Prelude.{◌≡◌};
    ghost use Rattle.spiel_string.specs.declared.token.TokenFault.TheVariants.{NoMemory as NoMemoryForTokens};

    ghost from_gives = { λ _ fault. fault ≡ NoMemoryForTokens };

    fn from(_error: NoMemory) -> TokenFault {
        TokenFault::NoMemory
    }
}

/// What a byte of a Gambit file is for, outside of quoted texts.
#[derive(Clone, Copy, Debug, PartialEq, Eq)]
pub enum Kind {
    Space,
    LeftBrace,
    RightBrace,
    CommaByte,
    QuoteMark,
    WordByte,
}

/// What a byte is for.
#[tactic(auto, unfolding(crate::specs::Tokens::kind))]
pub fn kind_of(byte: u8) -> Kind
    ensures { result ≡ kind byte }
{
    match byte {
        9..=13 | b' ' => Kind::Space,
        b'{' => Kind::LeftBrace,
        b'}' => Kind::RightBrace,
        b',' => Kind::CommaByte,
        b'"' => Kind::QuoteMark,
        _ => Kind::WordByte,
    }
}

/// The bytes of a token in its file: those of a word, those between the quotes of a text, or the mark.
pub fn token_bytes<'a>(bytes: &'a [u8], token: &Token) -> &'a [u8]
    requires { IsWithin (length bytes.now) token.now }
    ensures { result.now ≡ token_text bytes.now token.now }
{
    match token {
        Token::Word { from, to } => &bytes[*from as usize..*to as usize],
        Token::Quote { from, to } => &bytes[*from as usize..*to as usize],
        Token::Left => b"{",
        Token::Right => b"}",
        Token::Comma => b",",
    }
}
