//! Games by their strings.
ghost use Rattle.std.specs.Prelude.{IfOk};
ghost use Rattle.spiel_io.specs.Plan.{Follows, seeing};
ghost use Rattle.spiel_string.specs.View.{view};
ghost use Rattle.spiel_string.specs.WellFormed.{IsWellFormed};
ghost use Rattle.spiel_load.specs.Faults.{load_kind};
ghost use Rattle.spiel_load.specs.Given.{asked_by};
ghost use Rattle.spiel_load.specs.Named.{named_within};
ghost use Rattle.spiel_load.specs.Reads.{ReadsSide};

use crate::asked::Asked;
use crate::fault::LoadFault;
use crate::games::Base;
use crate::nesting::Named;
use spiel_io::Shelf;
use spiel_layers::Layer;
use spiel_string::GameText;
use std::alloc::Global;

/// Every game that a game string names: one of the table, under at most three transforms.
pub type Any = Layer<Layer<Layer<Base>>>;

/// The game that a game string names, or the first that is wrong with the string: for the type [`Any`]
/// under at most three transforms, and for another one under as many as it has room for. The checks go
/// from the outermost game inwards. For each game: no game has the name; it is one transform too many;
/// the game hasn't the first of these keys in byte order; the value of the first of these keys is out of
/// its range; the first of the keys that have to be given isn't; then the inner game of a transform, or
/// the file of a game that stands in one; and then whether the inner game can be transformed so.
///
/// A file is read in the side slot, at most once, and only where nothing before it is wrong. The main
/// slot is as it was. `File(Read)` comes only where the shelf's count of faults rose in this call.
pub fn load<G: Named, F: Shelf>(
    alloc: Global,
    shelf: &mut F,
    text: &GameText,
) -> Result<G, LoadFault>
    requires { IsWellFormed (view text.now) }
    ensures follows { Follows load_kind (named_within G.room (asked_by (view text.now))) (F.state shelf.old) (F.state shelf.new) (seeing G.rules result) }
    ensures playable { IfOk result G.is_game }
    ensures side { ReadsSide (F.state shelf.old) (F.state shelf.new) }
{
    G::load(Asked::by(alloc, text), shelf)
}
