//! The job of a list of arguments.

ghost use Rattle.std.specs.Prelude.{◌≡◌, ◌≤◌, ◌==◌, IfOk, Err, Some, None, length, option_map, take};
ghost use Rattle.clap.specs.Words.{first_value, found_of};
ghost use Rattle.ol_words.specs.Texts.{texts_of};
ghost use Rattle.ol_words.specs.Jobs.{job_of, numbers};
ghost use Rattle.ol_words.specs.Views.{first_texts, texts};
ghost use Rattle.ol_words.specs.Once.{agreed_verb};
ghost use Rattle.ol_words.specs.Found.{flag_by, job_found, names_by, number_by};

use crate::command::matches_of;
use crate::jobs::{Job, UsageFault};
use crate::lines::line_of;
use crate::numbers::setting_by;
use crate::settings::Setting;
use crate::verbs::Verb;
use clap::ArgMatches;
use std::alloc::{AllocError, Global};

/// The job of the arguments of a command line: the name of the program, which is ignored, followed
/// by a command, followed by the options and the names of the command in any order.
///
/// A command is the name of a variant of `Job` in lower case. The fields of the variant that have
/// the type `Word`, which are the names of files, and the field `k` are the names of the command,
/// in the order of the fields. At most one of two names is `-`. The other fields are the options of
/// the command. An option whose field is a `bool` takes no value. `from_term` is written
/// `--from-term`.
///
/// An option is written in full, as `--name value` or `--name=value`, at most once. A number is 1
/// to 8 ASCII digits, within the range that `Job` gives. The defaults are translation 2, 4 workers,
/// fuel 200,000, 4,096 heads, 100,000 edges, 1,000 steps and `--after 0`. The argument `--` ends
/// the options; an argument before it that begins with `-`, except `-` itself, is neither a name
/// nor a value.
///
/// `Refused`: exactly if the arguments have no job by these rules. `NoMemory`: no memory was found.
pub fn job(alloc: Global, words: &Vec<String>) -> Result<Job, UsageFault>
    // The job is that of the words.
    ensures job { IfOk result (λ job. job_of (texts_of words.now.items) ≡ Some job) }

    // A refusal comes only where the words have no job.
    ensures refused { result ≡ Err UsageFault.Refused → job_of (texts_of words.now.items) ≡ None }
{
    let Some(verb) = agreed_verb(alloc, words)? else {
        return Err(UsageFault::Refused);
    };
    // clap takes all words that come to it, so it fails here only for want of memory.
    let matches = matches_of(alloc, words)?;
    let Some((_, found)) = matches.subcommand() else {
        return Err(UsageFault::Refused);
    };
    job_by(alloc, verb, found)
}

// The verb of words that give each of its options once at most and as many names as it has, or None
// where they don't.
fn agreed_verb(alloc: Global, words: &Vec<String>) -> Result<Option<Verb>, AllocError>
    ensures { IfOk result (λ verb. verb ≡ agreed_verb (texts_of words.now.items)) }
{
    let [_, word, rest @ ..] = words.as_slice() else {
        return Ok(None);
    };
    let Some(verb) = Verb::named(word.as_str()) else {
        return Ok(None);
    };
    let Some(line) = line_of(alloc, verb.settings(), rest)? else {
        return Ok(None);
    };
    if !line.is_told_once(verb.settings(), verb.names().len()) {
        return Ok(None);
    }
    Ok(Some(verb))
}

// The job by what was given after a verb.
fn job_by(alloc: Global, verb: Verb, found: &ArgMatches) -> Result<Job, UsageFault>
    ensures job { IfOk result (λ job. job_found verb found.now ≡ Some job) }
    ensures refused { result ≡ Err UsageFault.Refused → job_found verb found.now ≡ None }
{
    let Some(numbers) = numbers_of(verb.settings(), found) else {
        return Err(UsageFault::Refused);
    };
    let Some(names) = names_of(verb.names(), found) else {
        return Err(UsageFault::Refused);
    };
    match verb.asks(alloc, numbers, names)? {
        Some(job) => Ok(job),
        None => Err(UsageFault::Refused),
    }
}

// The numbers of settings by what was given to their options, followed by zeros, or None if a
// number is outside its limits.
fn numbers_of(settings: &[Setting], found: &ArgMatches) -> Option<[u32; 5]>
    requires few { length settings.now ≤ 5 }
    ensures { option_map (λ ns. take (length settings.now) ns) result
        ≡ numbers (number_by (first_value (found_of found.now))) settings.now }
{
    let mut numbers = [0; 5];
    for place in 0..settings.len() {
        numbers[place] = number_of(found, settings[place])?;
    }
    Some(numbers)
}

// The number of a setting by what was given to its option.
fn number_of(found: &ArgMatches, setting: Setting) -> Option<u32>
    ensures { result ≡ number_by (first_value (found_of found.now)) setting }
{
    let value = found.get_str(setting.option());
    if setting.is_flag() {
        Some(u32::from(is_true(value)))
    } else {
        setting_by(value, setting.limits())
    }
}

// The names that were given, followed by empty texts, or None if a name is missing.
fn names_of<'a>(ids: &[&str], found: &'a ArgMatches) -> Option<(&'a str, &'a str)>
    requires few { length ids.now ≤ 2 }
    ensures { option_map (first_texts (length ids.now)) result
        ≡ names_by (first_value (found_of found.now)) (texts ids.now) }
{
    let mut names = [""; 2];
    for place in 0..ids.len() {
        names[place] = found.get_str(ids[place])?;
    }
    let [first, second] = names;
    Some((first, second))
}

// Whether clap has given a flag the value `true`.
fn is_true(value: Option<&str>) -> bool
    ensures { result ≡ (flag_by (option_map (λ v. v.now) value.entry) == 1) }
{
    match value {
        None => false,
        Some(text) => text == "true",
    }
}
