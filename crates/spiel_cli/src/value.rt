//! The verb `value`: what each player gets on average.
ghost use Rattle.std.specs.Prelude.{◌≡◌, ◌++◌, ◌<◌, IfOk, OnOk, None};
ghost use Rattle.spiel_frac.specs.Fraction.{lowest_terms};
ghost use Rattle.spiel_io.specs.Plan.{Agrees, BeginsAtMost, Follows};
ghost use Rattle.spiel_play.specs.Block.{ended, lines_text};
ghost use Rattle.spiel_policy.specs.Profiles.{Fits};
ghost use Rattle.spiel_response.specs.Values.{denominator_of, value_of};
ghost use Rattle.spiel_string.specs.View.{view};
ghost use Rattle.spiel_cli.specs.Refusal.{kind_of};
ghost use Rattle.spiel_cli.specs.Policies.{files_in};
ghost use Rattle.spiel_cli.specs.Value.{value_line, value_lines, case_values, value_plan, values_text};

use crate::case::read_case;
use crate::named::Load;
use crate::refusal::Refusal;
use spiel_frac::{Frac, NoMemory, Text, write_frac, write_number};
use spiel_io::Shelf;
use spiel_play::title;
use spiel_policy::Policy;
use spiel_response::{Work, prepare, value};
use spiel_string::GameText;
use spiel_tree::Tree;
use std::alloc::Global;

/// What a player gets on average, in lowest terms.
fn value_fraction(work: &Work, player: u32) -> Frac
    requires { player < work.now.judged.tree.players }
    ensures { result ≡ lowest_terms (value_of work.now.judged player) (denominator_of work.now.judged) }
{
    Frac::new(value(work, player), work.total()).unwrap()
}

/// Adds the line of a player's value.
fn push_value(alloc: Global, work: &Work, player: u32, out: &mut Text) -> Result<(), NoMemory>
    requires { player < work.now.judged.tree.players }
    ensures { OnOk result (out.new ≡ out.old ++ ended (value_line work.now.judged player)) }
{
    out.push(b"value ")?;
    write_number(player, out)?;
    out.push(b" ")?;
    write_frac(alloc, value_fraction(work, player), out)?;
    out.push(b"\n")
}

/// Adds the lines of the values of so many players.
pub fn push_values(alloc: Global, work: &Work, players: u32, out: &mut Text) -> Result<(), NoMemory>
    requires { players ≡ work.now.judged.tree.players }
    ensures { OnOk result (out.new ≡ out.old ++ lines_text (value_lines work.now.judged)) }
{
    for player in 0..players {
        push_value(alloc, work, player, out)?;
    }
    Ok(())
}

/// A line with the name of the game, and the lines of the values.
fn values_text(alloc: Global, text: &GameText, work: &Work, players: u32) -> Result<Text, NoMemory>
    requires { players ≡ work.now.judged.tree.players }
    ensures { IfOk result (λ lines. lines ≡ values_text (record { text = view text.now; judged = work.now.judged })) }
{
    let mut out = Text::new(alloc);
    title(alloc, text, &mut out)?;
    push_values(alloc, work, players, &mut out)?;
    Ok(out)
}

/// The values of a policy over a tree.
fn tree_values(
    alloc: Global,
    text: &GameText,
    tree: &Tree,
    policy: &Policy,
) -> Result<Text, Refusal>
    requires { Fits tree.now policy.now }
    ensures { Agrees kind_of (case_values (record { text = view text.now; judged = record { tree = tree.now; profile = policy.now } })) None result }
{
    let work = prepare(alloc, tree, policy).map_err(Refusal::Judging)?;
    let out = values_text(alloc, text, &work, tree.players())?;
    Ok(out)
}

/// `value GAME POLICY`: what each player gets on average if all play by the policy.
pub fn values<G: Load, F: Shelf>(
    alloc: Global,
    shelf: &mut F,
    game: &[u8],
    policy: &[u8],
) -> Result<Text, Refusal>
    ensures follows { Follows kind_of (value_plan game.now policy.now) (F.state shelf.old) (F.state shelf.new) result }
    ensures begins { BeginsAtMost (files_in policy.now) 1 (F.state shelf.old) (F.state shelf.new) }
{
    let case = read_case::<G, F>(alloc, shelf, game, policy)?;
    tree_values(alloc, &case.text, &case.tree, &case.policy)
}
