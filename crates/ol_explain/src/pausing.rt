//! The command `after`: the net after the first lines of a trace.

ghost use Rattle.std.specs.Prelude.{◌≡◌, ◌+◌, ◌≤◌, length, IfOk};
ghost use Rattle.ol_view.specs.Laws.{IsTable};
ghost use Rattle.ol_explain.specs.Afters.{IsAfter, IsAfterOf, IsAfterWithWeights, IsPausedAnswer, shown_text};
ghost use Rattle.ol_explain.specs.Besides.{IsShown, beside_words};
ghost use Rattle.ol_orders.specs.Replays.{IsReplay, names_of};
ghost use Rattle.ol_subjects.specs.Subjects.{most_bytes};
ghost use Rattle.ol_limits.specs.Limits.{most_fuel, most_nodes};

use crate::following::{Stop, follow};
use crate::judging::line_of;
use crate::naming::{Beside, named_net};
use crate::weighing::words_beside;
use ol_limits::NoMemory;
use ol_net::Net;
use ol_orders::Replay;
use ol_subjects::{Answer, End, NetRead, Subject, put, put_number, read_subject};
use std::alloc::Global;

// The last net of a run, behind the number of its steps, and what stands beside its links.
fn last_net(alloc: Global, replay: &Replay, beside: &Beside) -> Result<Vec<u8>, NoMemory>
    ensures { IfOk result (λ text. text.items ≡ shown_text (names_of replay.now)
        (beside_words beside.now replay.now) (length replay.now.run.journal) replay.now.net) }
{
    let net = named_net(alloc, replay, beside)?;
    let mut text = Vec::new(alloc);
    put(&mut text, b"step ")?;
    put_number(alloc, &mut text, replay.run.journal.len() as u64)?;
    put(&mut text, b"\n")?;
    put(&mut text, &net)?;
    Ok(text)
}

// The last net of a run from the net, with weights or without.
fn shown(alloc: Global, net: &Net, replay: &Replay, weights: bool) -> Result<Answer, NoMemory>
    requires few { length net.now.nodes ≤ most_nodes }
    requires entries { length replay.now.run.journal ≤ most_fuel }
    requires replay { IsReplay net.now replay.now }
    ensures text { IfOk result (λ a. IsShown weights net.now replay.now a.text.items) }
    ensures end { IfOk result (λ a. a.end ≡ End.Yes) }
    ensures tabled { IsTable replay.now.net }
{
    net.is_net();
    replay.net.is_tabled();
    let beside = words_beside(alloc, net, replay, weights)?;
    let text = last_net(alloc, replay, &beside)?;
    let end = End::Yes;
    Ok(Answer { text, end })
}

// The net after so many lines.
fn of_net(
    alloc: Global,
    net: &Net,
    journal: &[u8],
    lines: u32,
    weights: bool,
) -> Result<Answer, NoMemory>
    requires few { length net.now.nodes ≤ most_nodes }
    requires lines { (1 ≤ lines) × (lines ≤ most_fuel + 1) }
    ensures { IfOk result (λ a.
        IsAfterOf weights net.now journal.now lines a.text.items a.end) }
{
    let followed = follow(alloc, net, journal, lines - 1)?;
    match followed.stop {
        Stop::NoHeader => {
            let answer = line_of(alloc, "bad text at line ", 1, End::Nothing)?;
            Ok(answer)
        }
        Stop::Good => {
            let has = followed.replay.run.journal.len() + 1;
            if has == lines {
                let answer = shown(alloc, net, &followed.replay, weights)?;
                return Ok(answer);
            }
            let answer = line_of(alloc, "the last line is line ", has, End::Nothing)?;
            Ok(answer)
        }
        Stop::NoLine { .. } => {
            let line = followed.replay.run.journal.len() + 2;
            let answer = line_of(alloc, "bad text at line ", line, End::Nothing)?;
            Ok(answer)
        }
        Stop::Otherwise { .. } => {
            let bad = followed.replay.run.journal.len() + 2;
            let answer = line_of(alloc, "not a run at line ", bad, End::Nothing)?;
            Ok(answer)
        }
    }
}

// The net after so many lines, of a file with a term or a net.
fn paused(
    alloc: Global,
    bytes: &[u8],
    journal: &[u8],
    subject: Subject,
    lines: u32,
    weights: bool,
) -> Result<Answer, NoMemory>
    requires short { length bytes.now ≤ most_bytes subject }
    requires lines { (1 ≤ lines) × (lines ≤ most_fuel + 1) }
    ensures { IfOk result (λ a. IsPausedAnswer weights bytes.now journal.now lines
        a.text.items subject a.end) }
{
    let read = read_subject(alloc, bytes, subject)?;
    match read {
        NetRead::Refused(text) => {
            let end = End::Refused;
            Ok(Answer { text, end })
        }
        NetRead::Net(net) => {
            let answer = of_net(alloc, &net, journal, lines, weights)?;
            Ok(answer)
        }
    }
}

/// The net after the first lines of a trace, as `ol view` shows a net, under the trace's names:
/// a number for a start node, and `ticket.place` for one that was created. Lines are numbered as
/// `ol check` numbers them, from 1: so line 1 is followed by the first net. There are at most
/// 8,000,001 lines, and the later ones aren't read.
///
/// - `Yes`: the net.
/// - `Nothing`: one of these lines is no line of a trace, or isn't one of a run, as `ol check`
///   says; or the trace has fewer lines.
/// - `Refused`: `ol` refuses the file, by this line.
///
/// The file has at most 1,048,576 bytes with a term, and 33,554,432 with a net. `NoMemory`: no
/// memory was found.
pub fn after(
    alloc: Global,
    bytes: &[u8],
    journal: &[u8],
    subject: Subject,
    lines: u32,
) -> Result<Answer, NoMemory>
    requires short { length bytes.now ≤ most_bytes subject }
    requires lines { (1 ≤ lines) × (lines ≤ most_fuel + 1) }
    ensures { IfOk result (λ a.
        IsAfter bytes.now journal.now lines a.text.items subject a.end) }
{
    paused(alloc, bytes, journal, subject, lines, false)
}

/// The same net, and beside each port's partner a colon and what the link of the two weighs
/// (docs/runtimes/FORMATS.md, "Waves"): `2 app 0 3.1:0 f0:2 1.3.0:2`. This is a text of its
/// own, which nothing reads as a net; without the colons and the weights it is that of `after`.
pub fn after_with_weights(
    alloc: Global,
    bytes: &[u8],
    journal: &[u8],
    subject: Subject,
    lines: u32,
) -> Result<Answer, NoMemory>
    requires short { length bytes.now ≤ most_bytes subject }
    requires lines { (1 ≤ lines) × (lines ≤ most_fuel + 1) }
    ensures { IfOk result (λ a.
        IsAfterWithWeights bytes.now journal.now lines a.text.items subject a.end) }
{
    paused(alloc, bytes, journal, subject, lines, true)
}
