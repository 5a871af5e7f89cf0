//! The lines of a saved file that are kept: neither empty nor comments.
ghost use Rattle.std.specs.Prelude.{◌≡◌, ◌∷◌, ◌+◌, ◌<◌, ◌≤◌, ◌==◌, ◌^◌, [], length, IfSome, MatchOption};
ghost use Rattle.spiel_save.specs.Lines.{is_kept, kept_from, lines_of};

use spiel_frac::cut;

// The first line without its line feed, and what follows it. There is none in an empty text.
fn first_line(bytes: &[u8]) -> Option<(&[u8], &[u8])>
    ensures lines { MatchOption result (bytes.now ≡ []) (λ parts. lines_of bytes.now ≡ parts.0.now ∷ lines_of parts.1.now) }
    ensures shorter { IfSome result (λ parts. length parts.1.now < length bytes.now) }
{
    if bytes.is_empty() {
        return None;
    }
    match cut(bytes, b'\n') {
        Some(parts) => Some(parts),
        None => Some((bytes, &[])),
    }
}

// Whether the line isn't passed over.
fn is_kept(line: &[u8]) -> bool
    ensures { result ≡ is_kept line.now }
{
    match line {
        [] => false,
        [byte, ..] => *byte != b'#',
    }
}

/// The first kept line of a text that so many lines stand above: its number in the whole file, the
/// line, and what follows it.
pub fn next_kept(bytes: &[u8], above: u32) -> Option<(u32, &[u8], &[u8])>
    requires { above + length bytes.now < 2 ^ 32 }
    ensures lines { MatchOption result (kept_from above bytes.now ≡ [])
        (λ parts. kept_from above bytes.now ≡ (parts.0, parts.1.now) ∷ kept_from parts.0 parts.2.now) }
    ensures within { IfSome result (λ parts. parts.0 + length parts.2.now ≤ above + length bytes.now) }
    ensures shorter { IfSome result (λ parts. length parts.2.now < length bytes.now) }
{
    let mut rest = bytes;
    let mut number = above;
    while let Some((line, behind)) = first_line(rest) {
        number += 1;
        if is_kept(line) {
            return Some((number, line, behind));
        }
        rest = behind;
    }
    None
}
