//! The tokens of a policy file in its usual form, taken one by one.
ghost use Rattle.std.specs.Prelude.{◌≡◌, ◌∷◌, ◌<◌, [], codes, decimal, length, IfSome, IsTrue};
ghost use Rattle.json.specs.Token.{begin_object, end_object, begin_array, end_array, key, number, string};

use json::{Reader, Token};
use spiel_frac::read_number;

/// Takes the bracket that opens an object, if it is next.
pub(crate) fn takes_object(reader: &mut Reader<'_>) -> bool
    ensures { IsTrue result → reader.old ≡ begin_object ∷ reader.new }
{
    matches!(reader.next(), Some(Token::BeginObject))
}

/// Takes the bracket that opens an array, if it is next.
pub(crate) fn takes_array(reader: &mut Reader<'_>) -> bool
    ensures { IsTrue result → reader.old ≡ begin_array ∷ reader.new }
{
    matches!(reader.next(), Some(Token::BeginArray))
}

/// Takes the bracket that closes an object, if it is next.
pub(crate) fn takes_end(reader: &mut Reader<'_>) -> bool
    ensures { IsTrue result → reader.old ≡ end_object ∷ reader.new }
{
    matches!(reader.next(), Some(Token::EndObject))
}

/// Takes a key, if one is next.
pub(crate) fn take_key<'a>(reader: &mut Reader<'a>) -> Option<&'a str>
    ensures { IfSome result (λ name. reader.old ≡ key name.now ∷ reader.new) }
{
    match reader.next() {
        Some(Token::Key(name)) => Some(name),
        _ => None,
    }
}

/// Takes the key of this name, if it is next.
fn takes_key(reader: &mut Reader<'_>, name: &str) -> bool
    ensures { IsTrue result → reader.old ≡ key name.now ∷ reader.new }
{
    match reader.next() {
        Some(Token::Key(key)) => key == name,
        _ => false,
    }
}

/// Takes a whole number of at most 32 bits, if one is next.
pub(crate) fn take_number(reader: &mut Reader<'_>) -> Option<u32>
    ensures { IfSome result (λ n. reader.old ≡ number (decimal n) ∷ reader.new) }
{
    match reader.next() {
        Some(Token::Number(text)) => read_number(text.as_bytes()),
        _ => None,
    }
}

/// Takes a text, if one is next.
fn take_text<'a>(reader: &mut Reader<'a>) -> Option<&'a str>
    ensures { IfSome result (λ text. reader.old ≡ string text.now ∷ reader.new) }
{
    match reader.next() {
        Some(Token::String(text)) => Some(text),
        _ => None,
    }
}

/// Takes the head of a policy file, up to its first entry.
pub(crate) fn takes_head(reader: &mut Reader<'_>) -> bool
    ensures { IsTrue result → reader.old ≡ begin_object ∷ key (codes "policy") ∷ number (decimal 1) ∷ key (codes "states") ∷ begin_array ∷ reader.new }
{
    takes_object(reader)
        && takes_key(reader, "policy")
        && take_number(reader) == Some(1)
        && takes_key(reader, "states")
        && takes_array(reader)
}

/// Takes what stands behind the last entry of a policy file, where nothing more follows.
pub(crate) fn takes_tail(reader: &mut Reader<'_>) -> bool
    ensures { IsTrue result → reader.old ≡ end_object ∷ [] }
{
    takes_end(reader) && reader.next().is_none()
}

/// Takes the player of an entry.
pub(crate) fn take_player(reader: &mut Reader<'_>) -> Option<u32>
    ensures { IfSome result (λ n. reader.old ≡ key (codes "player") ∷ number (decimal n) ∷ reader.new) }
{
    if !takes_key(reader, "player") {
        return None;
    }
    take_number(reader)
}

/// Takes what the player of an entry sees.
pub(crate) fn take_state<'a>(reader: &mut Reader<'a>) -> Option<&'a str>
    ensures { IfSome result (λ text. reader.old ≡ key (codes "state") ∷ string text.now ∷ reader.new) }
{
    if !takes_key(reader, "state") {
        return None;
    }
    take_text(reader)
}

/// Takes the key of the pairs, and the bracket that opens them.
pub(crate) fn takes_actions(reader: &mut Reader<'_>) -> bool
    ensures { IsTrue result → reader.old ≡ key (codes "actions") ∷ begin_array ∷ reader.new }
{
    takes_key(reader, "actions") && takes_array(reader)
}
