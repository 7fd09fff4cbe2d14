//! What is asked: a command, with its numbers, and the files that it reads.
//!
//! A command is a variant of `OnOne` or of `OnTwo`, with an arm in `content` or in `contents`,
//! which tell what stands in its files, and one in `answer`.

ghost use Rattle.std.specs.Prelude.{◌≡◌, ◌≤◌, length, IfOk};
ghost use Rattle.ol_bench.specs.Inputs.{most_of};
ghost use Rattle.ol_bench.specs.Traces.{IsJudgedIn};
ghost use Rattle.ol_bench.specs.Commands.{IsTwoWithin, IsAnswerToOne, IsAnswerToTwo, IsExplainedIn, content_of, contents_of, as_check};

use ol_counts::{Bounds, Columns, counted, wave_table};
use ol_decoding::{Wanted, show, tree};
use ol_derivations::{Bounds as Following, derivation};
use ol_explain::{after, after_with_weights, explained, explained_object, judged, judged_object};
use ol_limits::{Fuel, Heads, MOST_JOURNAL_BYTES, NoMemory};
use ol_orders::{Order, journal, same, story};
use ol_places::{free_names, stop, whereabouts};
use ol_steps::{Shown, steps};
use ol_subjects::{Answer, Layout, Subject, most_bytes};
use ol_term::Translation;
use std::alloc::Global;

/// Where the bytes of a file come from.
#[derive(Debug, Drop)]
pub enum Given {
    /// From the file of this name. To the source of a process `-` is standard input.
    Name(String),
    /// From the command line, on which the text itself stands.
    Text(String),
}

/// What stands in a file. By it goes how many bytes a file may have.
#[derive(Clone, Copy, Debug, PartialEq, Eq)]
pub enum Content {
    /// A term or a net.
    Subject(Subject),
    /// A trace, or any text in which a place is asked.
    Journal,
}

/// The most bytes of a file.
pub fn most_of(content: Content) -> usize
    ensures { result ≡ most_of content }
{
    match content {
        Content::Subject(subject) => most_bytes(subject),
        Content::Journal => MOST_JOURNAL_BYTES as usize,
    }
}

// A term by the second translation, where the translation plays no part.
pub const TERM: Subject = Subject::Term(Translation::Two);

/// A command on one file.
#[derive(Clone, Copy)]
pub enum OnOne {
    /// Where a byte of a file stands, any file. `byte` is its place, counted from 0: any number,
    /// also one past the end.
    Where {
        byte: u32,
    },
    /// Where a text stops being a term, and what is wanted there.
    Stop,
    /// What is said of a derivation: terms, one a line, each by the one before it.
    Derivation,
    /// Reduction of a term in an order, by at most `most` steps: any number.
    Steps {
        how: Shown,
        most: u32,
    },
    /// What the ways of reducing cost that have a column, each within its bound; of steps and of
    /// moves any number.
    Counts {
        subject: Subject,
        bounds: Bounds,
        columns: Columns,
        layout: Layout,
    },
    /// The trace of a run in this order: of at most `fuel` interactions, and on demand of at
    /// most `heads` subterms.
    Journal {
        subject: Subject,
        order: Order,
        fuel: Fuel,
        heads: Heads,
    },
    /// The free names of a text, with line and column.
    Free,
    /// How many pairs each wave of a run has, of at most `fuel` interactions.
    Waves {
        subject: Subject,
        fuel: Fuel,
    },
    /// Each step of the run that takes the least pair, of at most `fuel` interactions.
    Story {
        subject: Subject,
        fuel: Fuel,
    },
    /// The normal form of a term, and which values it encodes. `demand` finds it by at most `fuel`
    /// interactions, and asks for at most `heads` subterms.
    Show {
        translation: Translation,
        fuel: Fuel,
        heads: Heads,
    },
    /// The Böhm tree of a term down to a depth, any number. `demand` finds the head of each part by
    /// at most `fuel` interactions, and by 8,000,000 for all parts. A part that is less deep is
    /// asked if it is among the first `heads` places, where parts that are too deep are places too.
    Tree {
        translation: Translation,
        depth: u32,
        fuel: Fuel,
        heads: Heads,
    },
}

impl OnOne {
    /// What stands in the file.
    pub fn content(self) -> Content
        ensures { result ≡ content_of self }
    {
        match self {
            OnOne::Where { .. } => Content::Journal,
            OnOne::Stop => Content::Subject(TERM),
            OnOne::Derivation => Content::Subject(TERM),
            OnOne::Steps { .. } => Content::Subject(TERM),
            OnOne::Counts { subject, .. } => Content::Subject(subject),
            OnOne::Journal { subject, .. } => Content::Subject(subject),
            OnOne::Free => Content::Subject(TERM),
            OnOne::Waves { subject, .. } => Content::Subject(subject),
            OnOne::Story { subject, .. } => Content::Subject(subject),
            OnOne::Show { translation, .. } => Content::Subject(Subject::Term(translation)),
            OnOne::Tree { translation, .. } => Content::Subject(Subject::Term(translation)),
        }
    }

    /// The answer to the bytes of the file.
    pub fn answer(self, alloc: Global, bytes: &[u8]) -> Result<Answer, NoMemory>
        requires short { length bytes.now ≤ most_of (content_of self) }
        ensures { IfOk result (λ a. IsAnswerToOne self bytes.now a.text.items a.end) }
    {
        match self {
            OnOne::Where { byte } => whereabouts(alloc, bytes, byte as usize),
            OnOne::Stop => stop(alloc, bytes),
            OnOne::Derivation => derivation(alloc, bytes),
            OnOne::Steps { how, most } => steps(alloc, bytes, how, most),
            OnOne::Counts {
                subject,
                bounds,
                columns,
                layout,
            } => counted(alloc, bytes, subject, bounds, columns, layout),
            OnOne::Journal {
                subject,
                order,
                fuel,
                heads,
            } => journal(alloc, bytes, subject, order, fuel, heads),
            OnOne::Free => free_names(alloc, bytes),
            OnOne::Waves { subject, fuel } => wave_table(alloc, bytes, subject, fuel),
            OnOne::Story { subject, fuel } => story(alloc, bytes, subject, fuel),
            OnOne::Show {
                translation,
                fuel,
                heads,
            } => show(alloc, bytes, translation, fuel, heads),
            OnOne::Tree {
                translation,
                depth,
                fuel,
                heads,
            } => tree(alloc, bytes, translation, depth, fuel, heads),
        }
    }
}

// What a journal is found to be.
fn found(
    alloc: Global,
    bytes: &[u8],
    journal: &[u8],
    subject: Subject,
    layout: Layout,
) -> Result<Answer, NoMemory>
    requires short { length bytes.now ≤ most_of (Content.Subject subject) }
    ensures { IfOk result (λ a.
        IsJudgedIn layout bytes.now journal.now a.text.items subject a.end) }
{
    match layout {
        Layout::Lines => {
            let answer = judged(alloc, bytes, journal, subject)?;
            Ok(answer)
        }
        Layout::Object => {
            let answer = judged_object(alloc, bytes, journal, subject)?;
            Ok(answer)
        }
    }
}

// What a journal is found to be, and why.
fn found_with_why(
    alloc: Global,
    bytes: &[u8],
    journal: &[u8],
    subject: Subject,
    layout: Layout,
) -> Result<Answer, NoMemory>
    requires short { length bytes.now ≤ most_of (Content.Subject subject) }
    ensures { IfOk result (λ a.
        IsExplainedIn layout bytes.now journal.now a.text.items subject a.end) }
{
    match layout {
        Layout::Lines => {
            let answer = explained(alloc, bytes, journal, subject)?;
            Ok(answer)
        }
        Layout::Object => {
            let answer = explained_object(alloc, bytes, journal, subject)?;
            Ok(answer)
        }
    }
}

/// A command on two files.
#[derive(Clone, Copy, Debug)]
pub enum OnTwo {
    /// The net after the first `lines` lines of a trace, from 1, its first line, which tells its
    /// form, to 8,000,001; and what each link weighs, where `weights` says so. The first file has
    /// the term or the net, the second one the trace.
    After {
        subject: Subject,
        lines: u32,
        weights: bool,
    },
    /// What a trace is found to be. The first file has the term or the net, the second one the
    /// trace.
    Check {
        subject: Subject,
        layout: Layout,
    },
    /// What a trace is found to be, and why. The first file has the term or the net, the second
    /// one the trace.
    Explain {
        subject: Subject,
        layout: Layout,
    },
    /// Whether two nets are one up to the numbers of their nodes.
    Same,
}

impl OnTwo {
    /// What stands in the first file, and in the second one.
    pub fn contents(self) -> (Content, Content)
        ensures { result ≡ contents_of self }
    {
        match self {
            OnTwo::After { subject, .. } => (Content::Subject(subject), Content::Journal),
            OnTwo::Check { subject, .. } => (Content::Subject(subject), Content::Journal),
            OnTwo::Explain { subject, .. } => (Content::Subject(subject), Content::Journal),
            OnTwo::Same => (
                Content::Subject(Subject::Net),
                Content::Subject(Subject::Net),
            ),
        }
    }

    /// The subject and the layout, if the command is `check`.
    pub fn as_check(self) -> Option<(Subject, Layout)>
        ensures { result ≡ as_check self }
    {
        match self {
            OnTwo::After { .. } => None,
            OnTwo::Check { subject, layout } => Some((subject, layout)),
            OnTwo::Explain { .. } => None,
            OnTwo::Same => None,
        }
    }

    /// The answer to the bytes of the first file, and to those of the second one.
    pub fn answer(self, alloc: Global, bytes: &[u8], more: &[u8]) -> Result<Answer, NoMemory>
        requires short { length bytes.now ≤ most_of (contents_of self).0 }
        requires short_more { length more.now ≤ most_of (contents_of self).1 }
        requires within { IsTwoWithin self }
        ensures { IfOk result (λ a. IsAnswerToTwo self bytes.now more.now a.text.items a.end) }
    {
        match self {
            OnTwo::After {
                subject,
                lines,
                weights: true,
            } => {
                let answer = after_with_weights(alloc, bytes, more, subject, lines)?;
                Ok(answer)
            }
            OnTwo::After {
                subject,
                lines,
                weights: false,
            } => {
                let answer = after(alloc, bytes, more, subject, lines)?;
                Ok(answer)
            }
            OnTwo::Check { subject, layout } => {
                let answer = found(alloc, bytes, more, subject, layout)?;
                Ok(answer)
            }
            OnTwo::Explain { subject, layout } => {
                let answer = found_with_why(alloc, bytes, more, subject, layout)?;
                Ok(answer)
            }
            OnTwo::Same => {
                let answer = same(alloc, bytes, more)?;
                Ok(answer)
            }
        }
    }
}

/// What is asked: a command, and where the bytes of its files come from. They are read in the order
/// in which they stand here.
#[derive(Drop)]
pub enum Asked {
    One {
        file: Given,
        command: OnOne,
    },
    Two {
        file: Given,
        other: Given,
        command: OnTwo,
    },
    /// The questions that a place of a term is asked, crossing by crossing.
    Walk {
        file: Given,
        wanted: Wanted,
    },
    /// What is said of students' functions, each compared with a solution on the same inputs: of at
    /// most 1,000 students. Each of them is named as his file. If his file can't be read, or has
    /// more than 1,048,576 bytes, this is what is said of him, and the others are still compared.
    Grade {
        inputs: Given,
        solution: Given,
        students: Vec<Given>,
        bounds: Following,
    },
}
