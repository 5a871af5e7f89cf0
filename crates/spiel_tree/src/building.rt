//! Building the tree of a game, or why it has none.
ghost use Rattle.std.specs.Prelude.{◌≡◌, ◌<◌, ◌≤◌, ◌^◌, length, IfErr, IfOk, None};
ghost use Rattle.spiel_tree.specs.Faults.{IsFaultless, NamesRows};
ghost use Rattle.spiel_tree.specs.Flat.{IsBuilt, StepsWithin, rows_of};
ghost use Rattle.spiel_tree.specs.Trees.{IsComputed, IsFault, fault_told, tree_fault, tree_of};

use crate::faults::{Fault, first_fault};
use crate::flat::Rows;
use crate::history::history_of;
use crate::states::{first_rows, starts};
use crate::tree::{Tree, TreeFault};
use crate::walking::{Stop, walk_all};
use spiel_api::Game;
use spiel_frac::NoMemory;
use std::alloc::Global;

/// Tells a fault of rows by histories.
fn tell_fault(alloc: Global, rows: &Rows, fault: Fault) -> Result<TreeFault, NoMemory>
    requires built { IsBuilt rows.now }
    requires steps { StepsWithin (rows_of rows.now) }
    requires named { NamesRows (length (rows_of rows.now)) fault }
    ensures { IfOk result (λ told. told ≡ fault_told (rows_of rows.now) fault) }
{
    match fault {
        Fault::Simultaneous { row } => Ok(TreeFault::Simultaneous {
            history: history_of(alloc, rows, row)?,
        }),
        Fault::Recall {
            player,
            first,
            second,
        } => Ok(TreeFault::Recall {
            player,
            first: history_of(alloc, rows, first)?,
            second: history_of(alloc, rows, second)?,
        }),
        Fault::Actions {
            player,
            first,
            second,
        } => Ok(TreeFault::Actions {
            player,
            first: history_of(alloc, rows, first)?,
            second: history_of(alloc, rows, second)?,
        }),
    }
}

/// The tree of a game, or why it has none.
///
/// `TooMany` comes exactly where the game has more histories than the limit. Else the first history
/// in preorder decides at which players choose at once (`Simultaneous`), at which the mover made other
/// own choices before than at the first history of the same information state (`Recall`), or at which
/// the mover has other numbers than there (`Actions`). Where a history shows both, it is `Recall`. So
/// a game that has a tree has perfect recall (Kuhn 1953).
///
/// An own choice is what the player saw, and the number taken. What chance and other players did
/// doesn't count. The choices are compared along the two plays, with no memory, in at most as many
/// steps as the plays have numbers.
pub fn build<G: Game>(alloc: Global, game: &G, limit: u32) -> Result<Tree, TreeFault>
    requires game { G.is_game game.now }
    requires low { 1 ≤ limit }
    requires high { limit ≤ 1048576 }
    ensures tree { IfOk result (λ tree. tree ≡ tree_of (G.rules game.now)) }
    ensures few { IfOk result (λ tree. length tree.rows ≤ limit) }
    ensures faultless { IfOk result (λ tree. IsFaultless tree.rows) }
    ensures fault { IfErr result (λ fault. IsFault (G.rules game.now) limit fault) }
    ensures computed_ok { IfOk result (λ tree. tree_fault (G.rules game.now) limit ≡ None) }
    ensures computed_err { IfErr result (λ fault. IsComputed (tree_fault (G.rules game.now) limit) fault) }
{
    let rows = match walk_all(alloc, game, limit) {
        Ok(rows) => rows,
        Err(Stop::TooMany) => return Err(TreeFault::TooMany { limit }),
        Err(Stop::Long) => unreachable!(),
        Err(Stop::NoMemory) => return Err(TreeFault::NoMemory),
    };
    let Ok(starts) = starts(alloc, &rows) else {
        return Err(TreeFault::NoMemory);
    };
    let Ok(firsts) = first_rows(alloc, &rows, &starts) else {
        return Err(TreeFault::NoMemory);
    };
    match first_fault(&rows, &starts, &firsts) {
        None => Ok(Tree::new(game.unit(), game.players(), rows, starts, firsts)),
        Some(fault) => Err(tell_fault(alloc, &rows, fault).unwrap_or(TreeFault::NoMemory)),
    }
}
