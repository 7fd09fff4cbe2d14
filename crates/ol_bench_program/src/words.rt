//! What clap found of the arguments of a command, as the types of what is asked.

ghost use Rattle.std.specs.Prelude.{◌≤◌, length, IfOk};
ghost use Rattle.ol_bench.specs.Commands.{IsTwoWithin, IsWithinBounds, most_students};

use crate::arguments::{MOST_LINES, MOST_MOVES, MOST_STUDENTS};
use clap::{ArgMatches, Error};
use ol_bench::{Asked, Given, OnOne, OnTwo};
use ol_counts::{Bounds, Columns};
use ol_decoding::Wanted;
use ol_derivations::Bounds as Following;
use ol_limits::{
    Fuel, Heads, MOST_EDGES, MOST_FUEL, MOST_HEADS, MOST_JOURNAL_BYTES, MOST_NODES, MOST_STEPS,
};
use ol_orders::Order;
use ol_steps::Shown;
use ol_strategies::Order as Reduction;
use ol_subjects::{Layout, Subject};
use ol_term::Translation;
use std::alloc::Global;

/// The number of an option, between these ends. An option that has no number has the lower end.
pub(crate) fn number_of(found: &ArgMatches, id: &str, least: u32, most: u32) -> u32
    requires ends { least ≤ most }
    ensures least { least ≤ result }
    ensures most { result ≤ most }
{
    match found.get_one::<u32>(id) {
        None => least,
        Some(number) => {
            if number < least {
                least
            } else if number > most {
                most
            } else {
                number
            }
        }
    }
}

pub(crate) fn translation_of(found: &ArgMatches) -> Translation {
    if number_of(found, "translation", 1, 2) == 1 {
        Translation::One
    } else {
        Translation::Two
    }
}

pub(crate) fn subject_of(found: &ArgMatches) -> Subject {
    if found.get_flag("net") {
        Subject::Net
    } else {
        Subject::Term(translation_of(found))
    }
}

/// The greatest number of interactions of a run.
pub(crate) fn fuel_of(found: &ArgMatches) -> Fuel {
    Fuel::of(number_of(found, "fuel", 0, MOST_FUEL))
}

/// The greatest number of places that are read.
pub(crate) fn heads_of(found: &ArgMatches) -> Heads {
    Heads::of(number_of(found, "heads", 1, MOST_HEADS))
}

/// How the answer is written.
pub(crate) fn layout_of(found: &ArgMatches) -> Layout {
    if found.get_flag("json") {
        Layout::Object
    } else {
        Layout::Lines
    }
}

/// How far each way of reducing is followed.
pub(crate) fn bounds_of(found: &ArgMatches, fuel: Fuel, heads: Heads) -> Bounds {
    Bounds {
        fuel,
        heads,
        steps: number_of(found, "most", 0, MOST_STEPS),
        moves: number_of(found, "moves", 0, MOST_MOVES),
    }
}

/// Which ways of reducing have a column.
pub(crate) fn columns_of(found: &ArgMatches) -> Columns {
    Columns {
        run: !found.get_flag("no-run"),
        demand: !found.get_flag("no-demand"),
        leftmost: !found.get_flag("no-leftmost"),
        applicative: found.get_flag("applicative"),
        need: found.get_flag("need"),
        families: found.get_flag("families"),
    }
}

fn word_of(alloc: Global, found: &ArgMatches, id: &str) -> Result<String, Error> {
    match found.get_str(id) {
        Some(text) => Ok(String::from_str(alloc, text)?),
        None => Ok(String::new(alloc)),
    }
}

// The file of this name.
fn file_of(alloc: Global, found: &ArgMatches, id: &str) -> Result<Given, Error> {
    let name = word_of(alloc, found, id)?;
    Ok(Given::Name(name))
}

// The term behind `-e`, if there is one.
fn term_of(alloc: Global, found: &ArgMatches) -> Result<Option<Given>, Error> {
    match found.get_str("term") {
        Some(text) => {
            let text = String::from_str(alloc, text)?;
            Ok(Some(Given::Text(text)))
        }
        None => Ok(None),
    }
}

// The order of reduction.
fn reduction_of(found: &ArgMatches) -> Reduction {
    match found.get_str("order") {
        Some("head") => Reduction::Head,
        Some("weak-head") => Reduction::WeakHead,
        Some("applicative") => Reduction::Applicative,
        Some("value") => Reduction::Value,
        _ => Reduction::Leftmost,
    }
}

/// How steps are shown.
pub(crate) fn shown_of(found: &ArgMatches) -> Shown {
    Shown {
        order: reduction_of(found),
        marked: found.get_flag("mark"),
        named: !found.get_flag("letters"),
        folded: found.get_flag("fold"),
    }
}

pub(crate) fn order_of(found: &ArgMatches) -> Order {
    match found.get_str("order") {
        Some("demand") => Order::Demand,
        Some("rounds") => Order::Rounds,
        _ => Order::Least,
    }
}

/// The command `where`: with a byte or without.
pub(crate) fn place_of(found: &ArgMatches) -> OnOne {
    match found.get_one::<u32>("byte") {
        None => OnOne::Stop,
        Some(_) => OnOne::Where {
            byte: number_of(found, "byte", 0, MOST_JOURNAL_BYTES),
        },
    }
}

/// What a command on one file asks: the file of the name, or the term after `-e`.
pub(crate) fn asked_of_one(
    alloc: Global,
    command: OnOne,
    found: &ArgMatches,
) -> Result<Asked, Error>
    ensures { IfOk result IsWithinBounds }
{
    let file = match term_of(alloc, found)? {
        Some(term) => term,
        None => file_of(alloc, found, "name")?,
    };
    Ok(Asked::One { file, command })
}

/// What a command on two files asks: the files of the names, or the term after `-e` and the file of
/// the first name.
pub(crate) fn asked_of_two(
    alloc: Global,
    command: OnTwo,
    found: &ArgMatches,
) -> Result<Asked, Error>
    requires within { IsTwoWithin command }
    ensures { IfOk result IsWithinBounds }
{
    let term = term_of(alloc, found)?;
    let name = file_of(alloc, found, "name")?;
    let (file, other) = match term {
        Some(term) => (term, name),
        None => (name, file_of(alloc, found, "other")?),
    };
    Ok(Asked::Two {
        file,
        other,
        command,
    })
}

// The files of these names.
fn files_of(alloc: Global, found: &ArgMatches, id: &str) -> Result<Vec<Given>, Error>
    ensures { IfOk result (λ files. length files.items ≤ most_students) }
{
    let mut files: Vec<Given> = Vec::new(alloc);
    let Some(names) = found.get_strs(id) else {
        return Ok(files);
    };
    // clap takes no more words.
    for k in 0..names.len().min(MOST_STUDENTS) {
        let name = String::from_str(alloc, names[k])?;
        files.push(Given::Name(name))?;
    }
    Ok(files)
}

/// The command `grade`.
pub(crate) fn grading_of(alloc: Global, found: &ArgMatches) -> Result<Asked, Error>
    ensures { IfOk result IsWithinBounds }
{
    let inputs = file_of(alloc, found, "on")?;
    let solution = file_of(alloc, found, "name")?;
    let students = files_of(alloc, found, "student")?;
    let bounds = Following {
        translation: translation_of(found),
        fuel: fuel_of(found),
        heads: heads_of(found),
    };
    Ok(Asked::Grade {
        inputs,
        solution,
        students,
        bounds,
    })
}

// The number that a word of digits tells. 0 stands for any other word, and for a number beyond
// 2^32.
fn argument_of(word: &str) -> u32 {
    match word.parse::<u32>() {
        Ok(number) => number,
        Err(_) => 0,
    }
}

// The path that a word tells. Where it tells none, it has an argument number 0, and no place has
// that one.
fn path_of(alloc: Global, word: &str) -> Result<Vec<u32>, Error> {
    let mut path: Vec<u32> = Vec::new(alloc);
    if word == "root" {
        return Ok(path);
    }
    for part in word.split('.') {
        path.push(argument_of(part))?;
    }
    Ok(path)
}

/// The command `walk`: on the file of the name, or the term behind `-e`.
pub(crate) fn walk_of(alloc: Global, found: &ArgMatches) -> Result<Asked, Error>
    ensures { IfOk result IsWithinBounds }
{
    let file = match term_of(alloc, found)? {
        Some(term) => term,
        None => file_of(alloc, found, "name")?,
    };
    let path = match found.get_str("frame") {
        Some(word) => path_of(alloc, word)?,
        None => Vec::new(alloc),
    };
    let question = match found.get_one::<u32>("asked") {
        Some(_) => Some(number_of(found, "asked", 0, MOST_NODES)),
        None => None,
    };
    let wanted = Wanted {
        translation: translation_of(found),
        heads: heads_of(found),
        edges: number_of(found, "edges", 1, MOST_EDGES) as u64,
        path,
        question,
        lines: number_of(found, "lines", 0, MOST_LINES),
    };
    Ok(Asked::Walk { file, wanted })
}
