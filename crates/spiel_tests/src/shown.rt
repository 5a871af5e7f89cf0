//! What a game shows, for the tests of this crate.

use spiel_api::{Game, walk};
use spiel_frac::Text;
use spiel_play::{block, facts};
use spiel_string::read_game;
use std::alloc::Global;

/// Numbers, and the lines of the state to which they lead.
pub(crate) type Row = (&'static [u32], &'static [u8]);

/// Whether the numbers lead to a state whose copy shows these lines.
fn shows<G: Game>(alloc: Global, game: &G, row: &Row) -> bool
    requires { G.is_game game.now }
{
    let (numbers, want) = *row;
    let Ok(state) = walk(alloc, game, numbers) else {
        return false;
    };
    let Ok(copy) = game.copy(alloc, &state) else {
        return false;
    };
    let mut out = Text::new(alloc);
    block(alloc, game, &copy, &mut out).is_ok() && out.bytes() == want
}

/// Whether the game shows all of these.
pub(crate) fn shows_all<G: Game>(alloc: Global, game: &G, rows: &[Row]) -> bool
    requires { G.is_game game.now }
{
    rows.iter().all(|row| shows(alloc, game, row))
}

/// Whether the game has these fact lines, behind a text that stood there before, where its string is
/// `t(b=2,a=1)`.
pub(crate) fn has_facts<G: Game>(alloc: Global, game: &G, want: &[u8]) -> bool
    requires { G.is_game game.now }
{
    let Ok(text) = read_game(alloc, b"t(b=2,a=1)") else {
        return false;
    };
    let mut out = Text::new(alloc);
    out.push(b"before\n").is_ok()
        && facts(alloc, game, &text, &mut out).is_ok()
        && out.bytes() == want
}
