//! Games with policies that are judged.
ghost use Rattle.std.specs.Prelude.{◌≡◌, IfOk, None};
ghost use Rattle.spiel_io.specs.Plan.{BeginsAtMost, Follows, seeing};
ghost use Rattle.spiel_policy.specs.Profiles.{Fits};
ghost use Rattle.spiel_string.specs.View.{view};
ghost use Rattle.spiel_tree.specs.Trees.{tree_fault, tree_of};
ghost use Rattle.spiel_cli.specs.Case.{case_of, case_plan, game_case, history_limit};
ghost use Rattle.spiel_cli.specs.Judgement.{IsOfGame};
ghost use Rattle.spiel_cli.specs.Policies.{files_in};
ghost use Rattle.spiel_cli.specs.Refusal.{kind_of};

use crate::named::{Load, read_game_string};
use crate::policies::choose_policy;
use crate::refusal::Refusal;
use spiel_api::Game;
use spiel_io::Shelf;
use spiel_policy::Policy;
use spiel_string::GameText;
use spiel_tree::{Tree, build};
use std::alloc::Global;

/// How many histories a game may have that is judged.
const HISTORY_LIMIT: u32 = 1_048_576;

/// A game and a policy for it: the game string, the tree of the game, and the policy.
#[derive(Drop)]
pub struct Case {
    pub text: GameText,
    pub tree: Tree,
    pub policy: Policy,
}

/// The tree of a game, and the policy that a word says.
fn game_policy<F: Shelf, G: Game>(
    alloc: Global,
    shelf: &mut F,
    game: G,
    text: GameText,
    policy: &[u8],
) -> Result<Case, Refusal>
    requires { G.is_game game }
    ensures follows { Follows kind_of (game_case policy.now (record { text = view text; rules = G.rules game })) (F.state shelf.old) (F.state shelf.new) (seeing case_of result) }
    ensures text { IfOk result (λ case. view case.text ≡ view text) }
    ensures judgeable { IfOk result (λ case. tree_fault (G.rules game) history_limit ≡ None) }
    ensures tree { IfOk result (λ case. case.tree ≡ tree_of (G.rules game)) }
    ensures fits { IfOk result (λ case. Fits case.tree case.policy) }
    ensures begins { BeginsAtMost (files_in policy.now) 0 (F.state shelf.old) (F.state shelf.new) }
{
    let tree = match build(alloc, &game, HISTORY_LIMIT) {
        Ok(tree) => tree,
        Err(fault) => return Err(Refusal::Tree(fault)),
    };
    let policy = choose_policy(alloc, shelf, &tree, policy)?;
    Ok(Case { text, tree, policy })
}

/// `GAME POLICY`: the game that a word names, and the policy that another says.
pub fn read_case<G: Load, F: Shelf>(
    alloc: Global,
    shelf: &mut F,
    game: &[u8],
    policy: &[u8],
) -> Result<Case, Refusal>
    ensures follows { Follows kind_of (case_plan game.now policy.now) (F.state shelf.old) (F.state shelf.new) (seeing case_of result) }
    ensures of_game { IfOk result (λ case. IsOfGame game.now (F.state shelf.old).files (case_of case)) }
    ensures fits { IfOk result (λ case. Fits case.tree case.policy) }
    ensures begins { BeginsAtMost (files_in policy.now) 1 (F.state shelf.old) (F.state shelf.new) }
{
    let text = read_game_string(alloc, game)?;
    let game = G::load(alloc, shelf, &text)?;
    game_policy(alloc, shelf, game, text, policy)
}
