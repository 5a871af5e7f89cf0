//! The verb `save`: the saved file of a play.
ghost use Rattle.std.specs.Prelude.{None};
ghost use Rattle.spiel_io.specs.Plan.{Agrees, BeginsAtMost, Follows};
ghost use Rattle.spiel_string.specs.View.{view};
ghost use Rattle.spiel_cli.specs.Named.{with_game};
ghost use Rattle.spiel_cli.specs.Refusal.{kind_of};
ghost use Rattle.spiel_cli.specs.Save.{file_of_play, save_plan};

use crate::lists::read_list;
use crate::named::{Load, read_game_string};
use crate::refusal::Refusal;
use spiel_api::{Game, walk};
use spiel_frac::Text;
use spiel_io::Shelf;
use spiel_save::write_saved;
use spiel_string::GameText;
use std::alloc::Global;

/// The saved file of a play.
fn save_play<G: Game>(
    alloc: Global,
    game: G,
    text: &GameText,
    history: &[u32],
) -> Result<Text, Refusal>
    requires { G.is_game game }
    ensures { Agrees kind_of (file_of_play history.now (record { text = view text.now; rules = G.rules game })) None result }
{
    let _ = walk(alloc, &game, history).map_err(Refusal::Walk)?;
    let mut out = Text::new(alloc);
    write_saved(alloc, text, history, &mut out)?;
    Ok(out)
}

/// The saved file of a history of the game that a word names.
fn save_history<G: Load, F: Shelf>(
    alloc: Global,
    shelf: &mut F,
    game: &[u8],
    history: &[u32],
) -> Result<Text, Refusal>
    ensures follows { Follows kind_of (with_game game.now (file_of_play history.now)) (F.state shelf.old) (F.state shelf.new) result }
    ensures begins { BeginsAtMost 0 1 (F.state shelf.old) (F.state shelf.new) }
{
    let text = read_game_string(alloc, game)?;
    let game = G::load(alloc, shelf, &text)?;
    save_play(alloc, game, &text, history)
}

/// `save GAME LIST`: the saved file of a play, which `restore` reads.
pub fn save<G: Load, F: Shelf>(
    alloc: Global,
    shelf: &mut F,
    game: &[u8],
    list: &[u8],
) -> Result<Text, Refusal>
    ensures follows { Follows kind_of (save_plan game.now list.now) (F.state shelf.old) (F.state shelf.new) result }
    ensures begins { BeginsAtMost 0 1 (F.state shelf.old) (F.state shelf.new) }
{
    let Some(history) = read_list(alloc, list)? else {
        return Err(Refusal::BadList);
    };
    save_history::<G, F>(alloc, shelf, game, history.items())
}
