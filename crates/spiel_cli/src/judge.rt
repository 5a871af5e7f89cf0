//! The verb `judge`: the report on a policy.
ghost use Rattle.std.specs.Prelude.{◌≡◌, IfOk, None};
ghost use Rattle.spiel_io.specs.Plan.{Agrees, BeginsAtMost, Follows};
ghost use Rattle.spiel_policy.specs.Profiles.{Fits};
ghost use Rattle.spiel_string.specs.View.{view};
ghost use Rattle.spiel_cli.specs.Judgement.{IsReport, IsRight};
ghost use Rattle.spiel_cli.specs.Policies.{files_in};
ghost use Rattle.spiel_cli.specs.Refusal.{kind_of};
ghost use Rattle.spiel_cli.specs.Reports.{case_report, judge_plan, report_text};

use crate::case::read_case;
use crate::named::Load;
use crate::refusal::Refusal;
use crate::reports::report;
use spiel_frac::Text;
use spiel_io::Shelf;
use spiel_policy::Policy;
use spiel_response::prepare;
use spiel_string::GameText;
use spiel_tree::Tree;
use std::alloc::Global;

/// The report on a policy over a tree.
fn tree_report(
    alloc: Global,
    text: &GameText,
    tree: &Tree,
    policy: &Policy,
    brief: bool,
) -> Result<Text, Refusal>
    requires { Fits tree.now policy.now }
    ensures agrees { Agrees kind_of (case_report brief (record { text = view text.now; judged = record { tree = tree.now; profile = policy.now } })) None result }
    ensures is { IfOk result (λ out. out ≡ report_text brief (record { text = view text.now; judged = record { tree = tree.now; profile = policy.now } })) }
    ensures right { IfOk result (λ _. IsRight (record { tree = tree.now; profile = policy.now })) }
{
    let mut work = prepare(alloc, tree, policy).map_err(Refusal::Judging)?;
    Ok(report(alloc, tree, &mut work, text, brief)?)
}

/// `judge GAME POLICY [--brief]`: the report on a policy.
pub fn judge<G: Load, F: Shelf>(
    alloc: Global,
    shelf: &mut F,
    game: &[u8],
    policy: &[u8],
    brief: bool,
) -> Result<Text, Refusal>
    ensures follows { Follows kind_of (judge_plan game.now policy.now brief) (F.state shelf.old) (F.state shelf.new) result }
    ensures report { IfOk result (IsReport game.now policy.now brief (F.state shelf.old).files) }
    ensures begins { BeginsAtMost (files_in policy.now) 1 (F.state shelf.old) (F.state shelf.new) }
{
    let case = read_case::<G, F>(alloc, shelf, game, policy)?;
    tree_report(alloc, &case.text, &case.tree, &case.policy, brief)
}
