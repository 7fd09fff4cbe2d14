//! The commands of the command line, with the settings and the names of each, and what each asks
//! for.

ghost use Rattle.std.specs.Prelude.{◌≡◌, ◌≤◌, ◌&&◌, IfOk, length};
ghost use Rattle.ol_words.specs.Asked.{asks, is_input, numbered, all_verbs, verb_named, verb_row};
ghost use Rattle.ol_words.specs.Command.{ids_of};
ghost use Rattle.ol_words.specs.Views.{first_texts, firsts, texts};

use crate::jobs::{Job, Word};
use crate::numbers::{Limits, number_within};
use crate::settings::Setting;
use ol_term::Translation;
use std::alloc::{AllocError, Global};

static RUN_SETTINGS: [Setting; 4] = [
    Setting::Translation,
    Setting::Workers,
    Setting::Fuel,
    Setting::Heads,
];

static WALK_SETTINGS: [Setting; 3] = [Setting::Translation, Setting::Edges, Setting::Heads];

static VIEW_SETTINGS: [Setting; 2] = [Setting::Translation, Setting::After];

static TRACE_SETTINGS: [Setting; 3] = [Setting::Translation, Setting::Workers, Setting::Fuel];

static CHECK_SETTINGS: [Setting; 1] = [Setting::Translation];

static GEN_SETTINGS: [Setting; 2] = [Setting::Translation, Setting::Run];

static DEMAND_SETTINGS: [Setting; 3] = [Setting::Translation, Setting::Fuel, Setting::Heads];

static CERTIFY_SETTINGS: [Setting; 5] = [
    Setting::Translation,
    Setting::Steps,
    Setting::Workers,
    Setting::Fuel,
    Setting::Heads,
];

static NET_SETTINGS: [Setting; 4] = [
    Setting::Translation,
    Setting::FromTerm,
    Setting::Workers,
    Setting::Fuel,
];

static FILE_NAMES: [&str; 1] = ["name"];

static CHECK_NAMES: [&str; 2] = ["term", "journal"];

static GEN_NAMES: [&str; 1] = ["number"];

static EQUAL_NAMES: [&str; 2] = ["first", "second"];

/// The commands, in the order of the usage.
#[derive(Clone, Copy)]
pub enum Verb {
    Run,
    Walk,
    View,
    Trace,
    Check,
    Gen,
    Demand,
    Certify,
    Net,
    Equal,
}

static VERBS: [Verb; 10] = [
    Verb::Run,
    Verb::Walk,
    Verb::View,
    Verb::Trace,
    Verb::Check,
    Verb::Gen,
    Verb::Demand,
    Verb::Certify,
    Verb::Net,
    Verb::Equal,
];

impl Verb {
    /// All verbs, in their order.
    pub(crate) fn all() -> &'static [Verb]
        ensures { result.now ≡ all_verbs }
    {
        VERBS.as_slice()
    }

    /// The verb that is written so, if there is one.
    pub(crate) fn named(word: &str) -> Option<Verb>
        ensures { result ≡ verb_named word.now }
    {
        for verb in Verb::all() {
            if verb.word() == word {
                return Some(*verb);
            }
        }
        None
    }

    /// How the verb is written.
    pub(crate) fn word(self) -> &'static str
        ensures { result.now ≡ (verb_row self).word }
    {
        match self {
            Verb::Run => "run",
            Verb::Walk => "walk",
            Verb::View => "view",
            Verb::Trace => "trace",
            Verb::Check => "check",
            Verb::Gen => "gen",
            Verb::Demand => "demand",
            Verb::Certify => "certify",
            Verb::Net => "net",
            Verb::Equal => "equal",
        }
    }

    /// The settings of the verb, in the order of their numbers.
    pub(crate) fn settings(self) -> &'static [Setting]
        ensures settings { result.now ≡ (verb_row self).settings }
        ensures few { length result.now ≤ 5 }
    {
        match self {
            Verb::Run | Verb::Equal => RUN_SETTINGS.as_slice(),
            Verb::Walk => WALK_SETTINGS.as_slice(),
            Verb::View => VIEW_SETTINGS.as_slice(),
            Verb::Trace => TRACE_SETTINGS.as_slice(),
            Verb::Check => CHECK_SETTINGS.as_slice(),
            Verb::Gen => GEN_SETTINGS.as_slice(),
            Verb::Demand => DEMAND_SETTINGS.as_slice(),
            Verb::Certify => CERTIFY_SETTINGS.as_slice(),
            Verb::Net => NET_SETTINGS.as_slice(),
        }
    }

    /// What the names of the verb are called, in their order.
    pub(crate) fn names(self) -> &'static [&'static str]
        ensures names { texts result.now ≡ ids_of self }
        ensures few { length result.now ≤ 2 }
    {
        match self {
            Verb::Run
            | Verb::Walk
            | Verb::View
            | Verb::Trace
            | Verb::Demand
            | Verb::Certify
            | Verb::Net => FILE_NAMES.as_slice(),
            Verb::Check => CHECK_NAMES.as_slice(),
            Verb::Gen => GEN_NAMES.as_slice(),
            Verb::Equal => EQUAL_NAMES.as_slice(),
        }
    }

    /// What the verb asks for by the numbers of its settings and by its names, both in their order.
    /// Elements that the verb has no setting or name for aren't read. `None`: the number of `gen`
    /// isn't 0 to 10, or both names are that of standard input.
    pub(crate) fn asks(
        self,
        alloc: Global,
        numbers: [u32; 5],
        names: (&str, &str),
    ) -> Result<Option<Job>, AllocError>
        ensures { IfOk result (λ job. job ≡ asks self
            (firsts (length (verb_row self).settings) numbers)
            (first_texts (length (ids_of self)) names.entry)) }
    {
        let job = match (self, numbers, names) {
            (Verb::Run, [t, workers, fuel, heads, _], (name, _)) => Job::Run {
                translation: numbered(t),
                workers,
                fuel,
                heads,
                name: Word::of(alloc, name)?,
            },
            (Verb::Walk, [t, edges, heads, ..], (name, _)) => Job::Walk {
                translation: numbered(t),
                edges: u64::from(edges),
                heads,
                name: Word::of(alloc, name)?,
            },
            (Verb::View, [t, after, ..], (name, _)) => Job::View {
                translation: numbered(t),
                after,
                name: Word::of(alloc, name)?,
            },
            (Verb::Trace, [t, workers, fuel, ..], (name, _)) => Job::Trace {
                translation: numbered(t),
                workers,
                fuel,
                name: Word::of(alloc, name)?,
            },
            (Verb::Check, [t, ..], (term, journal)) => {
                if are_input(term, journal) {
                    return Ok(None);
                }
                Job::Check {
                    translation: numbered(t),
                    term: Word::of(alloc, term)?,
                    journal: Word::of(alloc, journal)?,
                }
            }
            (Verb::Gen, [t, run, ..], (number, _)) => {
                let Some(k) = number_within(number.as_bytes(), Limits::new(0, 10, 0)) else {
                    return Ok(None);
                };
                Job::Gen {
                    translation: numbered(t),
                    run: run == 1,
                    k,
                }
            }
            (Verb::Demand, [t, fuel, heads, ..], (name, _)) => Job::Demand {
                translation: numbered(t),
                fuel,
                heads,
                name: Word::of(alloc, name)?,
            },
            (Verb::Certify, [t, steps, workers, fuel, heads], (name, _)) => Job::Certify {
                translation: numbered(t),
                steps,
                workers,
                fuel,
                heads,
                name: Word::of(alloc, name)?,
            },
            (Verb::Net, [t, from_term, workers, fuel, _], (name, _)) => Job::Net {
                translation: numbered(t),
                from_term: from_term == 1,
                workers,
                fuel,
                name: Word::of(alloc, name)?,
            },
            (Verb::Equal, [t, workers, fuel, heads, _], (first, second)) => {
                if are_input(first, second) {
                    return Ok(None);
                }
                Job::Equal {
                    translation: numbered(t),
                    workers,
                    fuel,
                    heads,
                    first: Word::of(alloc, first)?,
                    second: Word::of(alloc, second)?,
                }
            }
        };
        Ok(Some(job))
    }
}

// The translation of a number: 1 or 2.
fn numbered(number: u32) -> Translation
    ensures { result ≡ numbered number }
{
    if number == 1 {
        Translation::One
    } else {
        Translation::Two
    }
}

// Both names are that of standard input.
fn are_input(first: &str, second: &str) -> bool
    ensures { result ≡ (is_input first.now && is_input second.now) }
{
    first == "-" && second == "-"
}
