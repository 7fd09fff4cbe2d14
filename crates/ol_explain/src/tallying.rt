//! What a trace is found to be against the net of a file, by its value and not as a text, and how
//! often each rule stands in its run.

ghost use Rattle.std.specs.Prelude.{◌≤◌, length, IfOk};
ghost use Rattle.ol_subjects.specs.Subjects.{most_bytes};
ghost use Rattle.ol_explain.specs.Tallies.{IsChecked, IsTally, IsTallied};
ghost use Rattle.ol_limits.specs.Limits.{most_nodes};

use crate::following::{Stop, follow};
use ol_limits::{MOST_FUEL, NoMemory};
use ol_net::Net;
use ol_rules::{Counts, counts};
use ol_subjects::{NetRead, Subject, read_subject};
use ol_view::{Check, check};
use std::alloc::Global;

/// What comes of a file with a term or a net, and of a trace against it.
#[derive(Clone, Copy, Debug, PartialEq, Eq)]
pub enum Finding {
    /// `ol` refuses the file with the term or the net.
    Refused,
    /// What the trace is found to be.
    Found(Check),
}

/// What comes of the two files, and how often each rule stands in the trace. `None`: the file with
/// the term or the net is refused, or a line of the trace is a bad one.
#[derive(Drop)]
pub struct Tally {
    pub finding: Finding,
    pub counts: Option<Counts>,
}

// How often each rule stands in the journal, where it has no bad line.
fn count_rules(alloc: Global, net: &Net, journal: &[u8]) -> Result<Option<Counts>, NoMemory>
    requires few { length net.now.nodes ≤ most_nodes }
    ensures { IfOk result (IsTally net.now journal.now) }
{
    let followed = follow(alloc, net, journal, MOST_FUEL)?;
    match followed.stop {
        Stop::Good => {
            if followed.at < journal.len() {
                return Ok(None);
            }
            let told = counts(&followed.replay.run.journal);
            Ok(Some(told))
        }
        Stop::NoHeader => Ok(None),
        Stop::NoLine { .. } => Ok(None),
        Stop::Otherwise { .. } => Ok(None),
    }
}

/// What a trace is found to be against the net of a file, as `ol check` finds it of a term.
///
/// The file has at most 1,048,576 bytes with a term, and 33,554,432 with a net. `NoMemory`: no
/// memory was found.
pub fn checked(
    alloc: Global,
    bytes: &[u8],
    journal: &[u8],
    subject: Subject,
) -> Result<Finding, NoMemory>
    requires short { length bytes.now ≤ most_bytes subject }
    ensures { IfOk result (IsChecked bytes.now journal.now subject) }
{
    match read_subject(alloc, bytes, subject)? {
        NetRead::Refused(_) => Ok(Finding::Refused),
        NetRead::Net(net) => {
            let found = check(alloc, &net, journal)?;
            Ok(Finding::Found(found))
        }
    }
}

/// What a trace is found to be, as `checked` tells it, and how often each rule stands in it, where
/// it has no bad line: whether or not a pair is left.
///
/// The file has at most 1,048,576 bytes with a term, and 33,554,432 with a net. `NoMemory`: no
/// memory was found.
pub fn tallied(
    alloc: Global,
    bytes: &[u8],
    journal: &[u8],
    subject: Subject,
) -> Result<Tally, NoMemory>
    requires short { length bytes.now ≤ most_bytes subject }
    ensures { IfOk result (λ t. IsTallied bytes.now journal.now subject t.finding t.counts) }
{
    match read_subject(alloc, bytes, subject)? {
        NetRead::Refused(_) => Ok(Tally {
            finding: Finding::Refused,
            counts: None,
        }),
        NetRead::Net(net) => {
            let found = check(alloc, &net, journal)?;
            let counts = count_rules(alloc, &net, journal)?;
            Ok(Tally {
                finding: Finding::Found(found),
                counts,
            })
        }
    }
}
