//! The command line as clap is told of it.

ghost use Rattle.std.specs.Prelude.{◌≡◌, false, true, if◌then◌else◌, IfOk, IfErr};
ghost use Rattle.clap.specs.Words.{app_of, kind_of, rule_of, subcommand_of, subcommand_rows_of, takes};
ghost use Rattle.clap.specs.declared.builder.command.Command.TheViews.{out-Command};
ghost use Rattle.ol_words.specs.Command.{app, flag_rule, name_rule, option_rule, quiet_app, setting_rule, sub_app};
ghost use Rattle.ol_words.specs.Texts.{texts_of};

use crate::settings::Setting;
use crate::verbs::Verb;
use clap::error::ErrorKind;
use clap::{Arg, ArgAction, ArgMatches, Command, Error};
use std::alloc::{AllocError, Global};

/// What clap finds in the words of a command line. Words that clap takes fail only for want of
/// memory.
pub(crate) fn matches_of<'a>(alloc: Global, words: &'a Vec<String>) -> Result<ArgMatches<'a>, Error>
    ensures rows { IfOk result (λ m.
        subcommand_rows_of m ≡ subcommand_of app (texts_of words.now.items)) }
    ensures taken { IfErr result (λ e.
        takes app (texts_of words.now.items) ≡ true → kind_of e ≡ ErrorKind.OutOfMemory) }
{
    let command = command(alloc)?;
    command.try_get_matches_from(words.as_slice())
}

// An option that takes one value.
fn option<'a>(alloc: Global, name: &'a str) -> Arg<'a>
    ensures rule { rule_of result ≡ option_rule name.entry.now }
    ensures own { result.global ≡ false }
{
    Arg::new(alloc, name).long(name).action(ArgAction::Set)
}

// An option without a value.
fn flag<'a>(alloc: Global, name: &'a str) -> Arg<'a>
    ensures rule { rule_of result ≡ flag_rule name.entry.now }
    ensures own { result.global ≡ false }
{
    Arg::new(alloc, name).long(name).action(ArgAction::SetTrue)
}

// The option of a setting.
fn option_or_flag<'a>(alloc: Global, setting: Setting) -> Arg<'a>
    ensures rule { rule_of result ≡ setting_rule setting }
    ensures own { result.global ≡ false }
{
    let name: &'a str = setting.option();
    if setting.is_flag() {
        flag(alloc, name)
    } else {
        option(alloc, name)
    }
}

// A positional, as the name of a file.
fn positional<'a>(alloc: Global, name: &'a str) -> Arg<'a>
    ensures rule { rule_of result ≡ name_rule name.entry.now }
    ensures own { result.global ≡ false }
{
    Arg::new(alloc, name).action(ArgAction::Set)
}

// The subcommand of a verb: its settings, and then its names.
fn subcommand<'a>(alloc: Global, verb: Verb) -> Result<Command<'a>, AllocError>
    ensures app { IfOk result (λ c. app_of c ≡ sub_app verb) }
    ensures local { IfOk result (λ c. (out-Command c).has_globals ≡ false) }
{
    let word: &'a str = verb.word();
    let mut command: Command<'a> = Command::new(alloc, word);
    for setting in verb.settings() {
        command = command.arg(option_or_flag(alloc, *setting))?;
    }
    for name in verb.names() {
        let name: &'a str = name;
        command = command.arg(positional(alloc, name))?;
    }
    Ok(command)
}

// The command line: a subcommand for each verb.
fn command<'a>(alloc: Global) -> Result<Command<'a>, AllocError>
    ensures app { IfOk result (λ c. app_of c ≡ app) }
{
    let mut command = quiet_command(alloc);
    for verb in Verb::all() {
        let subcommand = subcommand(alloc, *verb)?;
        command = command.subcommand(subcommand)?;
    }
    Ok(command)
}

// The command above, without help and version.
fn quiet_command<'a>(alloc: Global) -> Command<'a>
    ensures app { app_of result ≡ quiet_app }
{
    Command::new(alloc, "ol")
        .disable_help_flag(true)
        .disable_version_flag(true)
        .disable_help_subcommand(true)
}
