//! The command line as clap is told of it, and what its words ask.

ghost use Rattle.std.specs.Prelude.{IfOk};
ghost use Rattle.ol_bench.specs.Commands.{IsWithinBounds};

use crate::arguments::{Form, Row, Value};
use crate::verbs::{Usage, Verb, asked_of};
use clap::error::ErrorKind;
use clap::{Arg, ArgAction, ArgMatches, Command, Error};
use ol_bench::Asked;
use std::alloc::{AllocError, Global};

// What the help of the program has after the commands.
const PROGRAM: &str =
    "`ol-bench COMMAND --help` has the options with their ranges and defaults, the limits, the exit
statuses and an example.";

// The argument, written as its row says.
fn formed<'a>(arg: Arg<'a>, row: Row) -> Arg<'a> {
    match row.form {
        Form::Bare => arg,
        Form::Long => arg.long(row.id),
        Form::Short(letter) => arg.short(letter),
    }
}

// The argument, which takes what its row says.
fn valued<'a>(arg: Arg<'a>, value: Value) -> Arg<'a> {
    match value {
        Value::Nothing => arg.action(ArgAction::SetTrue),
        Value::Text => arg.action(ArgAction::Set),
        Value::Texts { most } => arg.action(ArgAction::Append).num_args(1..=most),
        Value::Number { least, most } => arg
            .action(ArgAction::Set)
            .value_parser(clap::value_parser!(u32).range(least as i64..=most as i64)),
        Value::Word(words) => arg.action(ArgAction::Set).value_parser(words.all()),
    }
}

// The argument, with this name of its value in the help.
fn shown<'a>(arg: Arg<'a>, name: Option<&'static str>) -> Arg<'a> {
    match name {
        Some(name) => arg.value_name(name),
        None => arg,
    }
}

// The argument, with its value if it isn't given.
fn defaulted<'a>(arg: Arg<'a>, default: Option<&'static str>) -> Arg<'a> {
    match default {
        Some(value) => arg.default_value(value),
        None => arg,
    }
}

// The argument of a row.
fn argument<'a>(alloc: Global, row: Row) -> Result<Arg<'a>, AllocError> {
    let arg = Arg::new(alloc, row.id)
        .help(row.help)
        .required(row.need.is_always());
    let valued = valued(formed(arg, row), row.value);
    defaulted(shown(valued, row.shown), row.default)
        .required_unless_present_any(row.need.others())?
        .conflicts_with_all(row.need.conflicts())
}

// The command with the argument of a row behind those that it has.
fn with_row<'a>(alloc: Global, command: Command<'a>, row: Row) -> Result<Command<'a>, AllocError> {
    let argument = argument(alloc, row)?;
    command.arg(argument)
}

// The command of a verb: its arguments, one after another.
fn command_of<'a>(alloc: Global, usage: Usage) -> Result<Command<'a>, AllocError> {
    let mut command: Command<'a> = Command::new(alloc, usage.word)
        .about(usage.about)
        .after_help(usage.below);
    for row in usage.rows {
        command = with_row(alloc, command, *row)?;
    }
    Ok(command)
}

// The program's command with that of a verb after those that it has.
fn with_verb<'a>(
    alloc: Global,
    program: Command<'a>,
    verb: Verb,
) -> Result<Command<'a>, AllocError> {
    let command = command_of(alloc, verb.usage())?;
    program.subcommand(command)
}

// The program's command, without those of verbs.
fn program<'a>(alloc: Global) -> Result<Command<'a>, AllocError> {
    Command::new(alloc, "ol-bench")
        .about("Tools for teachers of reduction and authors of runtimes, beside `ol`")
        .after_help(PROGRAM)
        .subcommand_required(true)
        .bin_name("ol-bench")
}

// The command line: a command for each verb.
fn command<'a>(alloc: Global) -> Result<Command<'a>, AllocError> {
    let mut command: Command<'a> = program(alloc)?;
    for verb in Verb::all() {
        command = with_verb(alloc, command, *verb)?;
    }
    Ok(command)
}

// The command that clap found, and what it found of the command's arguments.
fn chosen<'m, 'a>(matches: &'m ArgMatches<'a>) -> Option<(Verb, &'m ArgMatches<'a>)> {
    let (name, found) = matches.subcommand()?;
    let verb = Verb::named(name)?;
    Some((verb, found))
}

// The error of words without a command. Clap finds it before anything else.
fn no_command(alloc: Global) -> Result<Error, AllocError> {
    program(alloc)?.error(ErrorKind::MissingSubcommand, "there is no command")
}

/// What the words ask, with numbers that are within their bounds. An error is what clap says of the
/// words, or the help that they ask for.
pub(crate) fn asked_by(alloc: Global, words: &Vec<String>) -> Result<Asked, Error>
    ensures { IfOk result IsWithinBounds }
{
    let matches = command(alloc)?.try_get_matches_from(words.as_slice())?;
    let Some((verb, found)) = chosen(&matches) else {
        return Err(no_command(alloc)?);
    };
    asked_of(alloc, verb, found)
}
