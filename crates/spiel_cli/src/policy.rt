//! The verb `policy`: a policy as a file.
ghost use Rattle.std.specs.Prelude.{None};
ghost use Rattle.spiel_io.specs.Plan.{Agrees, BeginsAtMost, Follows};
ghost use Rattle.spiel_policy.specs.Profiles.{Fits};
ghost use Rattle.spiel_cli.specs.Case.{case_of};
ghost use Rattle.spiel_cli.specs.Policies.{files_in};
ghost use Rattle.spiel_cli.specs.Policy.{case_file, policy_plan};
ghost use Rattle.spiel_cli.specs.Refusal.{kind_of};

use crate::case::{Case, read_case};
use crate::named::Load;
use crate::refusal::Refusal;
use spiel_frac::Text;
use spiel_io::Shelf;
use spiel_policy::write_policy;
use std::alloc::Global;

/// The file of a case's policy.
fn file_of(alloc: Global, case: &Case) -> Result<Text, Refusal>
    requires { Fits case.now.tree case.now.policy }
    ensures { Agrees kind_of (case_file (case_of case.now)) None result }
{
    let mut out = Text::new(alloc);
    write_policy(alloc, &case.tree, &case.policy, &mut out)?;
    Ok(out)
}

/// `policy GAME POLICY`: the policy as a file.
pub fn policy<G: Load, F: Shelf>(
    alloc: Global,
    shelf: &mut F,
    game: &[u8],
    policy: &[u8],
) -> Result<Text, Refusal>
    ensures follows { Follows kind_of (policy_plan game.now policy.now) (F.state shelf.old) (F.state shelf.new) result }
    ensures begins { BeginsAtMost (files_in policy.now) 1 (F.state shelf.old) (F.state shelf.new) }
{
    let case = read_case::<G, F>(alloc, shelf, game, policy)?;
    file_of(alloc, &case)
}
