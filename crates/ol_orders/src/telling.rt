//! The command `story`: each step of the run that always takes the least pair.

ghost use Rattle.std.specs.Prelude.{◌≡◌, ◌+◌, ◌*◌, ◌≤◌, [], length, IfOk};
ghost use Rattle.ol_orders.specs.Replays.{IsReplay};
ghost use Rattle.ol_subjects.specs.Subjects.{most_bytes};
ghost use Rattle.ol_orders.specs.Stories.{IsStory, IsStoryOfNet, IsStoryAnswer};
ghost use Rattle.ol_limits.specs.Limits.{most_nodes};

use crate::pairs::put_left;
use crate::replaying::Replay;
use crate::turns::put_turn;
use ol_diamond::{WaveList, waves};
use ol_limits::{Fuel, NoMemory};
use ol_net::Net;
use ol_rules::{Ended, Journal, Numbers, UnderWay, run};
use ol_subjects::{Answer, End, NetRead, Subject, put, read_subject};
use std::alloc::Global;

// A run before its first pair, whose last net is this one.
fn begin(alloc: Global, net: &Net) -> Result<Replay, NoMemory>
    ensures replay { IfOk result (IsReplay net.now) }
    ensures journal { IfOk result (λ r. r.run.journal ≡ []) }
    ensures net { IfOk result (λ r. r.net ≡ net.now) }
{
    net.is_net();
    let numbers = Numbers::new(alloc, net)?;
    let run = UnderWay::new(alloc, net);
    let net = net.copy()?;
    Ok(Replay { net, run, numbers })
}

// The story of a journal with its waves.
fn told(alloc: Global, net: &Net, journal: &Journal, waves: &WaveList) -> Result<Vec<u8>, NoMemory>
    requires count { length waves.now ≡ length journal.now }
    requires few { length net.now.nodes + 4 * length journal.now ≤ 2000000000 }
    ensures { IfOk result (λ text. IsStory net.now journal.now waves.now text.items) }
{
    let mut replay = begin(alloc, net)?;
    let mut text = Vec::new(alloc);
    put(&mut text, b"ol trace 2\n")?;
    put_left(alloc, &mut text, &replay)?;
    for k in 0..journal.len() {
        let Some(entry) = journal.get(k) else {
            unreachable!()
        };
        let Some(wave) = waves.get(k) else {
            unreachable!()
        };
        put_turn(alloc, &mut text, &mut replay, entry, wave)?;
    }
    Ok(text)
}

// The answer for a net.
fn of_net(alloc: Global, net: &Net, fuel: Fuel) -> Result<Answer, NoMemory>
    requires few { length net.now.nodes ≤ most_nodes }
    ensures { IfOk result (λ a. IsStoryOfNet net.now fuel.most a.text.items a.end) }
{
    let mut last = net.copy()?;
    let ran = run(alloc, &mut last, fuel.most)?;
    let waves = waves(alloc, net, &ran.journal)?;
    let text = told(alloc, net, &ran.journal, &waves)?;
    match ran.ended {
        Ended::Done => {
            let end = End::Yes;
            Ok(Answer { text, end })
        }
        Ended::Spent => {
            let end = End::No;
            Ok(Answer { text, end })
        }
    }
}

/// The run that always takes the active pair whose smaller name is least, step by step: at most
/// `fuel` steps. The first line is that of a trace. Each step begins with its line in the trace, as
/// `journal` writes it. Indented lines tell more: the two nodes with their kinds and indexes, then
/// each node that is created, by its number, its name, its kind and its index, then the active
/// pairs that are left, by their names, in the order of the smaller ones. The pairs of the net at
/// the start stand below the first line. So the lines that aren't indented are the trace.
///
/// - `Yes`: no pair is left.
/// - `No`: the fuel was used up, and a pair is left.
/// - `Refused`: `ol` refuses the file, by this line.
///
/// The file has at most 1,048,576 bytes with a term, and 33,554,432 with a net. `NoMemory`: no
/// memory was found.
pub fn story(alloc: Global, bytes: &[u8], subject: Subject, fuel: Fuel) -> Result<Answer, NoMemory>
    requires short { length bytes.now ≤ most_bytes subject }
    ensures { IfOk result (λ a. IsStoryAnswer bytes.now fuel.most a.text.items subject a.end) }
{
    match read_subject(alloc, bytes, subject)? {
        NetRead::Net(net) => {
            let answer = of_net(alloc, &net, fuel)?;
            Ok(answer)
        }
        NetRead::Refused(text) => {
            let end = End::Refused;
            Ok(Answer { text, end })
        }
    }
}
