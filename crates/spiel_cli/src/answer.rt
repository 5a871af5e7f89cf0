//! Does what words say, up to the writing.
ghost use Rattle.std.specs.Prelude.{None, Some, IfOk, IfSome, map, string_bytes};
ghost use Rattle.spiel_io.specs.Plan.{BeginsAtMost, Follows};
ghost use Rattle.spiel_words.specs.Verbs.{command_of};
ghost use Rattle.spiel_cli.specs.Judgement.{IsReportBy};
ghost use Rattle.spiel_cli.specs.Outcome.{command_names, command_plan, names_in, plan_by, plan_of};
ghost use Rattle.spiel_cli.specs.Refusal.{kind_of};

use crate::judge::judge;
use crate::legal::legal;
use crate::named::Load;
use crate::policy::policy;
use crate::refusal::Refusal;
use crate::restore::restore;
use crate::save::save;
use crate::show::show;
use crate::tidy::tidy;
use crate::value::values;
use spiel_frac::Text;
use spiel_io::Shelf;
use spiel_words::{Command, read_words};
use std::alloc::Global;

/// Does what a command says, up to the writing.
fn answer_command<G: Load, F: Shelf>(
    alloc: Global,
    command: &Command,
    shelf: &mut F,
) -> Result<Text, Refusal>
    ensures follows { Follows kind_of (command_plan command.now) (F.state shelf.old) (F.state shelf.new) result }
    ensures report { IfOk result (IsReportBy command.now (F.state shelf.old).files) }
    ensures begins { BeginsAtMost (command_names command.now) 1 (F.state shelf.old) (F.state shelf.new) }
{
    match command {
        Command::Restore { file } => restore::<G, F>(alloc, shelf, file.bytes()),
        Command::Save { game, list } => save::<G, F>(alloc, shelf, game.bytes(), list.bytes()),
        Command::Legal { game, list } => legal::<G, F>(alloc, shelf, game.bytes(), list.bytes()),
        Command::Show { game } => show::<G, F>(alloc, shelf, game.bytes()),
        Command::Tidy { file } => tidy(alloc, shelf, file.bytes()),
        Command::Value { game, policy } => values::<G, F>(
            alloc,
            shelf,
            game.bytes(),
            policy.bytes(),
        ),
        Command::Policy {
            game,
            policy: profile,
        } => policy::<G, F>(alloc, shelf, game.bytes(), profile.bytes()),
        Command::Judge {
            game,
            policy,
            brief,
        } => judge::<G, F>(alloc, shelf, game.bytes(), policy.bytes(), *brief),
    }
}

/// Does what the words say, up to the writing.
pub fn answer<G: Load, F: Shelf>(
    alloc: Global,
    words: &[String],
    shelf: &mut F,
) -> Result<Text, Refusal>
    ensures follows { Follows kind_of (plan_of (map string_bytes words.now)) (F.state shelf.old) (F.state shelf.new) result }
    ensures report { IfSome (command_of (map string_bytes words.now)) (λ command. IfOk result (IsReportBy command (F.state shelf.old).files)) }
    ensures begins { BeginsAtMost (names_in (map string_bytes words.now)) 1 (F.state shelf.old) (F.state shelf.new) }
{
    let command = read_words(alloc, words).map_err(Refusal::Words)?;
    answer_command::<G, F>(alloc, &command, shelf)
}
