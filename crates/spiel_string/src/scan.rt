//! The classes of the bytes of a game string, and the modes of its reader.
ghost use Rattle.std.specs.Prelude.{◌≡◌, ◌<◌, ◌^◌, ◌+◌};
ghost use Rattle.spiel_string.specs.Scan.{class};

/// What a byte of a game string is for.
#[derive(Clone, Copy)]
pub enum Class {
    Space,
    /// An opening bracket.
    Open,
    /// A closing bracket.
    Close,
    Comma,
    Equals,
    /// A lower-case letter.
    Lower,
    /// A digit or `_`, with which no name begins.
    NameRest,
    /// A byte that stands in words alone: a capital letter or one of `. ; / + : -`.
    WordRest,
    /// A byte that stands in no game string.
    Other,
}

/// How far the reading of a game string is.
#[derive(Clone, Copy)]
pub enum Mode {
    /// Before the outermost name.
    Start,
    /// In the outermost name.
    Outer,
    /// In the spaces after it.
    OuterAfter,
    /// After an opening bracket, which may be closed again.
    Opened,
    /// After a comma.
    KeyDue,
    /// In a key.
    Key,
    /// In the spaces after it.
    KeyAfter,
    /// After an equals sign.
    ValueDue,
    /// In a word that is a name so far.
    Name,
    /// In a word that is no name.
    Word,
    /// In the spaces after a name.
    NameAfter,
    /// After a value that no bracket can follow.
    After,
    /// After the last bracket.
    Done,
}

/// The class of a byte.
pub fn class_of(byte: u8) -> Class
    ensures { result ≡ class byte }
{
    match byte {
        b' ' => Class::Space,
        b'(' => Class::Open,
        b')' => Class::Close,
        b',' => Class::Comma,
        b'=' => Class::Equals,
        b'a'..=b'z' => Class::Lower,
        b'0'..=b'9' | b'_' => Class::NameRest,
        b'A'..=b'Z' | b'.' | b';' | b'/' | b'+' | b':' | b'-' => Class::WordRest,
        _ => Class::Other,
    }
}
