//! The `clap` command that reads the words of a shape.
ghost use Rattle.std.specs.Prelude.{◌≡◌, ◌<◌, ℕ, length, IfOk, map, false};
ghost use Rattle.clap.specs.Words.{app_of, rule_of};
ghost use Rattle.spiel_words.specs.Found.{shape_of, texts};
ghost use Rattle.spiel_words.specs.Rules.{app_for, bare, flag_rule, numbered, option_rule, place_rule, with_rules};

use crate::shape::Shape;
use clap::builder::ValueParser;
use clap::{Arg, ArgAction, Command};
use std::alloc::{AllocError, Global};

/// The `clap` command that reads the words of this shape.
pub fn clap_command<'a>(alloc: Global, shape: &Shape) -> Result<Command<'a>, AllocError>
    requires { length shape.now.places.now < 100 }
    ensures { IfOk result (λ command. app_of command ≡ app_for (shape_of shape.now)) }
{
    let command = bare_command(alloc);
    let command = with_places(alloc, command, shape.places)?;
    let command = with_flags(alloc, command, shape.flags)?;
    with_options(alloc, command, shape.options)
}

// Without a program's name before the words, and without `--help`.
fn bare_command<'a>(alloc: Global) -> Command<'a>
    ensures { app_of result ≡ bare }
{
    Command::new(alloc, "spiel")
        .no_binary_name(true)
        .disable_help_flag(true)
}

fn place_arg<'a>(alloc: Global, index: usize, name: &'a str) -> Arg<'a>
    ensures rule { rule_of result ≡ place_rule index name.entry.now }
    ensures local { result.global ≡ false }
{
    Arg::new(alloc, name)
        .index(index)
        .required(true)
        .action(ArgAction::Set)
}

fn flag_arg<'a>(alloc: Global, name: &'a str) -> Arg<'a>
    ensures rule { rule_of result ≡ flag_rule name.entry.now }
    ensures local { result.global ≡ false }
{
    Arg::new(alloc, name).long(name).action(ArgAction::SetTrue)
}

fn option_arg<'a>(alloc: Global, name: &'a str) -> Arg<'a>
    ensures rule { rule_of result ≡ option_rule name.entry.now }
    ensures local { result.global ≡ false }
{
    Arg::new(alloc, name)
        .long(name)
        .action(ArgAction::Set)
        .value_parser(ValueParser::NonEmptyString)
}

fn with_places<'a>(
    alloc: Global,
    command: Command<'a>,
    names: &[&'a str],
) -> Result<Command<'a>, AllocError>
    requires { length names.now < 100 }
    ensures { IfOk result (λ made. app_of made ≡ with_rules (app_of command.entry) (numbered place_rule 1 (texts names.now))) }
{
    let mut command = command;
    for (index, name) in names.iter().enumerate() {
        command = command.arg(place_arg(alloc, index + 1, *name))?;
    }
    Ok(command)
}

fn with_flags<'a>(
    alloc: Global,
    command: Command<'a>,
    names: &[&'a str],
) -> Result<Command<'a>, AllocError>
    ensures { IfOk result (λ made. app_of made ≡ with_rules (app_of command.entry) (map flag_rule (texts names.now))) }
{
    let mut command = command;
    for name in names {
        command = command.arg(flag_arg(alloc, *name))?;
    }
    Ok(command)
}

fn with_options<'a>(
    alloc: Global,
    command: Command<'a>,
    names: &[&'a str],
) -> Result<Command<'a>, AllocError>
    ensures { IfOk result (λ made. app_of made ≡ with_rules (app_of command.entry) (map option_rule (texts names.now))) }
{
    let mut command = command;
    for name in names {
        command = command.arg(option_arg(alloc, *name))?;
    }
    Ok(command)
}
