//! A text cut at the first of some byte: what stands before it, and what behind it.
ghost use Rattle.std.specs.Prelude.{◌≡◌, ◌<◌, ◌==◌, length, position, IfSome, MatchOption, None, Some};
ghost use Rattle.spiel_frac.specs.Cuts.{cut};

// Where the byte stands first.
fn place_of(bytes: &[u8], mark: u8) -> Option<usize>
    ensures { result ≡ position (λ byte. byte == mark) bytes.now }
{
    bytes.iter().position(|byte| *byte == mark)
}

/// What stands before the first of these bytes, and what behind it. There is nothing to cut at in a
/// text without such a byte.
pub fn cut(text: &[u8], mark: u8) -> Option<(&[u8], &[u8])>
    ensures sides { MatchOption result (cut mark text.now ≡ None) (λ sides. cut mark text.now ≡ Some (sides.0.now, sides.1.now)) }
    ensures shorter { IfSome result (λ sides. length sides.1.now < length text.now) }
{
    match place_of(text, mark) {
        Some(at) => Some((&text[..at], &text[at + 1..])),
        None => None,
    }
}
