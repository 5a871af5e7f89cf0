//! The verb `tidy`: a file of a game in its canonical form.
ghost use Rattle.std.specs.Prelude.{◌≡◌, ◌≤◌, length, IfOk, None};
ghost use Rattle.spiel_io.specs.Plan.{Agrees, BeginsAtMost, Follows, decide, seeing};
ghost use Rattle.spiel_efg.specs.Reading.{game_of_file};
ghost use Rattle.spiel_efg.specs.Writing.{efg_text};
ghost use Rattle.spiel_cli.specs.Files.{file_limit};
ghost use Rattle.spiel_cli.specs.Refusal.{kind_of};
ghost use Rattle.spiel_cli.specs.Tidy.{tidied, tidy_plan};
ghost use Rattle.spiel_cli.specs.declared.refusal.Refusal.TheVariants.{Efg as EfgRefusal};

use crate::files::read_file;
use crate::refusal::Refusal;
use spiel_efg::{Efg, read_efg, write_efg};
use spiel_frac::{NoMemory, Text};
use spiel_io::Shelf;
use std::alloc::Global;

/// The game in a file of these bytes.
#[tactic(auto, unfolding(spiel_string::specs::Tokens::most_file_bytes))]
fn read_game_file(alloc: Global, bytes: &[u8]) -> Result<Efg, Refusal>
    requires { length bytes.now ≤ file_limit }
    ensures { Agrees kind_of (decide EfgRefusal (game_of_file bytes.now)) None (seeing (λ game. game.parts) result) }
{
    read_efg(alloc, bytes).map_err(Refusal::Efg)
}

/// The canonical text of a game.
fn canonical_text(alloc: Global, game: &Efg) -> Result<Text, NoMemory>
    ensures { IfOk result (λ text. text ≡ efg_text game.now.parts) }
{
    let mut out = Text::new(alloc);
    write_efg(alloc, game, &mut out)?;
    Ok(out)
}

/// The canonical text of the game in a file of these bytes.
fn tidy_bytes(alloc: Global, bytes: &[u8]) -> Result<Text, Refusal>
    requires { length bytes.now ≤ file_limit }
    ensures { Agrees kind_of (tidied bytes.now) None result }
{
    let game = read_game_file(alloc, bytes)?;
    Ok(canonical_text(alloc, &game)?)
}

/// `tidy FILE`: the game in a file, in the canonical form of files.
pub fn tidy<F: Shelf>(alloc: Global, shelf: &mut F, name: &[u8]) -> Result<Text, Refusal>
    ensures follows { Follows kind_of (tidy_plan name.now) (F.state shelf.old) (F.state shelf.new) result }
    ensures begins { BeginsAtMost 1 0 (F.state shelf.old) (F.state shelf.new) }
{
    let text = read_file(alloc, shelf, name)?;
    tidy_bytes(alloc, text.bytes())
}
