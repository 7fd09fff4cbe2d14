//! The command `explain`: what a trace is found to be, which pairs are left after a run, what is
//! wanted in bad text, and of a line that isn't one of a run why.

ghost use Rattle.std.specs.Prelude.{◌≡◌, ◌≤◌, ◌<◌, length, IfOk, IfSome};
ghost use Rattle.ol_view.specs.LineReading.{TellsOf};
ghost use Rattle.ol_explain.specs.Found.{IsToldBy};
ghost use Rattle.ol_explain.specs.Reasons.{AreJoined, IsOffBy};
ghost use Rattle.ol_orders.specs.Replays.{IsReplay};
ghost use Rattle.ol_explain.specs.Explained.{IsExplained};
ghost use Rattle.ol_explain.specs.Explanations.{IsExplanation};
ghost use Rattle.ol_subjects.specs.Subjects.{most_bytes};
ghost use Rattle.ol_limits.specs.Limits.{most_fuel, most_nodes};

use crate::causes::{cause_of, put_cause};
use crate::following::{Stop, follow};
use crate::judging::complete;
use crate::left::run_and_left;
use crate::naming::{put, put_number};
use crate::others::put_other;
use crate::wanting::{bad_header, bad_line, past_the_end};
use ol_diamond::Rewritten;
use ol_limits::{MOST_FUEL, NoMemory};
use ol_net::Net;
use ol_orders::Replay;
use ol_subjects::{Answer, End, NetRead, Subject, read_subject};
use ol_view::{Check, Line, check};
use std::alloc::Global;

/// An answer whose first line tells what a trace is found to be.
#[derive(Drop)]
pub struct Explanation {
    pub answer: Answer,
    pub found: Check,
}

// The answer of a line that isn't the next one of a run.
fn off(
    alloc: Global,
    net: &Net,
    replay: &Replay,
    line: Line,
    made: Option<Rewritten>,
) -> Result<Answer, NoMemory>
    requires few { length net.now.nodes ≤ most_nodes }
    requires entries { length replay.now.run.journal < most_fuel }
    requires replay { IsReplay net.now replay.now }
    requires joined { AreJoined replay.now line made }
    requires wrong { IfSome made (λ of. TellsOf line.told of.rule of.wave → ⊥) }
    ensures text { IfOk result (λ a. IsOffBy net.now replay.now line made a.text.items) }
    ensures end { IfOk result (λ a. a.end ≡ End.NotARun) }
{
    let cause = cause_of(alloc, net, replay, line, made)?;
    let mut text = String::new(alloc);
    put(&mut text, "not a run at line ")?;
    put_number(&mut text, replay.run.journal.len() + 2)?;
    put(&mut text, "\n")?;
    put_cause(&mut text, line.first, line.second, cause)?;
    put(&mut text, "\n")?;
    let text = text.into_bytes();
    let end = End::NotARun;
    Ok(Answer { text, end })
}

// What is said where all lines are good.
fn ended(
    alloc: Global,
    net: &Net,
    journal: &[u8],
    replay: &mut Replay,
) -> Result<Explanation, NoMemory>
    requires few { length net.now.nodes ≤ most_nodes }
    requires told { IsToldBy net.now journal.now replay.old }
    requires replay { IsReplay net.now replay.old }
    ensures { IfOk result (λ it.
        IsExplanation net.now journal.now it.answer.text.items it.answer.end it.found) }
{
    net.is_net();
    let found = check(alloc, net, journal)?;
    match found {
        Check::Complete => {
            let answer = complete(alloc)?;
            Ok(Explanation { answer, found })
        }
        Check::Run { k } => {
            let answer = run_and_left(alloc, net, k, replay)?;
            Ok(Explanation { answer, found })
        }
        Check::BadText { .. } => unreachable!(),
        Check::NotARun { .. } => unreachable!(),
    }
}

/// What a trace is found to be against a net, with an answer that says why: its first line is that
/// of what is found.
pub fn of_net(alloc: Global, net: &Net, journal: &[u8]) -> Result<Explanation, NoMemory>
    requires few { length net.now.nodes ≤ most_nodes }
    ensures { IfOk result (λ it.
        IsExplanation net.now journal.now it.answer.text.items it.answer.end it.found) }
{
    net.is_net();
    let mut followed = follow(alloc, net, journal, MOST_FUEL)?;
    match followed.stop {
        Stop::NoHeader => {
            let answer = bad_header(alloc, journal)?;
            let found = Check::BadText { line: 1 };
            Ok(Explanation { answer, found })
        }
        Stop::Good => {
            if followed.at < journal.len() {
                let answer = past_the_end(alloc, followed.at)?;
                let line = MOST_FUEL + 2;
                let found = Check::BadText { line };
                return Ok(Explanation { answer, found });
            }
            let explanation = ended(alloc, net, journal, &mut followed.replay)?;
            Ok(explanation)
        }
        Stop::NoLine { form } => {
            let bad = followed.replay.run.journal.len() + 2;
            let answer = bad_line(alloc, form, journal, followed.at, bad)?;
            let found = Check::BadText { line: bad };
            Ok(Explanation { answer, found })
        }
        Stop::Otherwise { line, made } => {
            let number = followed.replay.run.journal.len() + 2;
            let answer = off(alloc, net, &followed.replay, line, made)?;
            let found = Check::NotARun { line: number };
            Ok(Explanation { answer, found })
        }
    }
}

/// What a trace is found to be against the net of a file: the line of `ol check`; and below it,
/// of a run that isn't complete, the pairs that are left, of bad text, what is wanted at which
/// byte, and of a line that isn't the next one of a run, why it isn't.
///
/// - `Yes`: `complete`.
/// - `Run`: `run` with the number of entries, and the lines with which the trace could go on: of
///   each active pair its rule, its wave and its two names. There are at most 20 of them, in the
///   order of their first names, and a last line tells how many more there are.
/// - `BadText`: the number of the first bad line, which is none of the grammar; the byte from which
///   on no text is, and what is wanted there; where only its names aren't in order, that a greater
///   one is; and where it comes behind as many lines as a trace may have, the byte at which it
///   begins, and that `the end, after 8000000 entries` is wanted.
/// - `NotARun`: the number of the first bad line, which is one of the grammar, and its cause: a
///   name of a node that isn't created yet, that is gone, with the line by which it went, or that
///   never was one; what one of the two nodes is linked to, where that is a node of the other
///   one's ticket at another place, and the causes that this may have;
///   what the first node faces, where it isn't the second one; that the two have no rule; which
///   rule is the pair's, where the line tells another; or which wave, with the line that created
///   the link of the two, and what the link weighs. Where the trace of a term is one of a run of
///   the other translation, complete or not, a further line says so. If wires were crossed at an
///   earlier line, it can look as if copies were numbered otherwise.
/// - `Refused`: `ol` refuses the file with the term or the net, by this line.
///
/// The file has at most 1,048,576 bytes with a term, and 33,554,432 with a net. `NoMemory`: no
/// memory was found.
pub fn explained(
    alloc: Global,
    bytes: &[u8],
    journal: &[u8],
    subject: Subject,
) -> Result<Answer, NoMemory>
    requires short { length bytes.now ≤ most_bytes subject }
    ensures { IfOk result (λ a. IsExplained bytes.now journal.now a.text.items subject a.end) }
{
    match read_subject(alloc, bytes, subject)? {
        NetRead::Refused(text) => {
            let end = End::Refused;
            Ok(Answer { text, end })
        }
        NetRead::Net(net) => {
            let mut explanation = of_net(alloc, &net, journal)?;
            put_other(alloc, &mut explanation.answer, bytes, journal, subject)?;
            Ok(explanation.answer)
        }
    }
}
