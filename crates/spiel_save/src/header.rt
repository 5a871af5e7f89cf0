//! The lines of a saved file above its numbers.
ghost use Rattle.std.specs.Prelude.{◌≡◌, ◌+◌, ◌<◌, ◌^◌, length, None, Some, IfSome, MatchOption};
ghost use Rattle.spiel_save.specs.Lines.{kept_from};
ghost use Rattle.spiel_save.specs.Saved.{body_of, is_header};

use crate::lines::next_kept;

// Whether these are the four lines around the game string.
fn is_header(meta: &[u8], version: &[u8], game: &[u8], state: &[u8]) -> bool
    ensures { result ≡ is_header meta.now version.now game.now state.now }
{
    meta == b"[Meta]".as_slice()
        && version == b"Version: 1".as_slice()
        && game == b"[Game]".as_slice()
        && state == b"[State]".as_slice()
}

/// The line of the game string, what stands below the header, and how many lines stand above that;
/// none where there is no header.
pub fn read_header(bytes: &[u8]) -> Option<(&[u8], &[u8], u32)>
    requires { length bytes.now < 2 ^ 32 }
    ensures body { MatchOption result (body_of (kept_from 0 bytes.now) ≡ None)
        (λ parts. body_of (kept_from 0 bytes.now) ≡ Some (parts.0.now, kept_from parts.2 parts.1.now)) }
    ensures within { IfSome result (λ parts. parts.2 + length parts.1.now < 2 ^ 32) }
{
    let (number, meta, rest) = next_kept(bytes, 0)?;
    let (number, version, rest) = next_kept(rest, number)?;
    let (number, title, rest) = next_kept(rest, number)?;
    let (number, game, rest) = next_kept(rest, number)?;
    let (number, state, rest) = next_kept(rest, number)?;
    if is_header(meta, version, title, state) {
        Some((game, rest, number))
    } else {
        None
    }
}
