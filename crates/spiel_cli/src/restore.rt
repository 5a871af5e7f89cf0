//! The verb `restore`: the state of a saved play.
ghost use Rattle.std.specs.Prelude.{◌≤◌, length, IfOk, None};
ghost use Rattle.spiel_io.specs.Plan.{Agrees, BeginsAtMost, Follows, decide, seeing};
ghost use Rattle.spiel_save.specs.Answer.{reading_saved};
ghost use Rattle.spiel_string.specs.View.{view};
ghost use Rattle.spiel_string.specs.WellFormed.{IsWellFormed};
ghost use Rattle.spiel_cli.specs.Files.{file_limit};
ghost use Rattle.spiel_cli.specs.Refusal.{kind_of};
ghost use Rattle.spiel_cli.specs.declared.refusal.Refusal.TheVariants.{SavedFile};
ghost use Rattle.spiel_cli.specs.Restore.{played_of, restore_plan, play_in_file, state_of, state_of_play};

use crate::files::read_file;
use crate::named::Load;
use crate::refusal::Refusal;
use spiel_api::{Game, walk};
use spiel_frac::Text;
use spiel_io::Shelf;
use spiel_play::{block, title};
use spiel_save::{Saved, read_saved};
use spiel_string::GameText;
use std::alloc::Global;

/// The game and the history of a saved file.
fn read_play(alloc: Global, bytes: &[u8]) -> Result<Saved, Refusal>
    requires { length bytes.now ≤ file_limit }
    ensures agrees { Agrees kind_of (decide SavedFile (reading_saved bytes.now)) None (seeing played_of result) }
    ensures well_formed { IfOk result (λ saved. IsWellFormed (view saved.game)) }
{
    read_saved(alloc, bytes).map_err(Refusal::SavedFile)
}

/// The name of a game, and the lines of its state for a history.
fn show_state<G: Game>(
    alloc: Global,
    game: G,
    text: &GameText,
    history: &[u32],
) -> Result<Text, Refusal>
    requires { G.is_game game }
    ensures { Agrees kind_of (state_of history.now (record { text = view text.now; rules = G.rules game })) None result }
{
    let state = walk(alloc, &game, history).map_err(Refusal::Walk)?;
    let mut out = Text::new(alloc);
    title(alloc, text, &mut out)?;
    block(alloc, &game, &state, &mut out)?;
    Ok(out)
}

/// The game of a saved play, and the lines of its state.
fn show_saved<G: Load, F: Shelf>(
    alloc: Global,
    shelf: &mut F,
    saved: &Saved,
) -> Result<Text, Refusal>
    requires { IsWellFormed (view saved.now.game) }
    ensures follows { Follows kind_of (state_of_play (played_of saved.now)) (F.state shelf.old) (F.state shelf.new) result }
    ensures begins { BeginsAtMost 0 1 (F.state shelf.old) (F.state shelf.new) }
{
    let game = G::load(alloc, shelf, &saved.game)?;
    show_state(alloc, game, &saved.game, saved.history.items())
}

/// What the bytes of a saved file show.
fn restore_bytes<G: Load, F: Shelf>(
    alloc: Global,
    shelf: &mut F,
    bytes: &[u8],
) -> Result<Text, Refusal>
    requires { length bytes.now ≤ file_limit }
    ensures follows { Follows kind_of (play_in_file bytes.now) (F.state shelf.old) (F.state shelf.new) result }
    ensures begins { BeginsAtMost 0 1 (F.state shelf.old) (F.state shelf.new) }
{
    let saved = read_play(alloc, bytes)?;
    show_saved::<G, F>(alloc, shelf, &saved)
}

/// `restore FILE`: the state of a saved play.
pub fn restore<G: Load, F: Shelf>(
    alloc: Global,
    shelf: &mut F,
    name: &[u8],
) -> Result<Text, Refusal>
    ensures follows { Follows kind_of (restore_plan name.now) (F.state shelf.old) (F.state shelf.new) result }
    ensures begins { BeginsAtMost 1 1 (F.state shelf.old) (F.state shelf.new) }
{
    let text = read_file(alloc, shelf, name)?;
    restore_bytes::<G, F>(alloc, shelf, text.bytes())
}
