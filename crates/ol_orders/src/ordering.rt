//! The command `journal`: the trace of a run in one of three orders.

ghost use Rattle.std.specs.Prelude.{◌≡◌, ℕ, ◌+◌, ◌*◌, ◌≤◌, List, length, IfOk};
ghost use Rattle.ol_net.specs.Nets.{NamedNet};
ghost use Rattle.ol_rules.specs.declared.journal.NodeName.{NodeName};
ghost use Rattle.ol_rules.specs.Runs.{IsRun};
ghost use Rattle.ol_view.specs.Checks.{start_net_of_graph};
ghost use Rattle.ol_view.specs.declared.forms.Form.TheVariants.{Two};
ghost use Rattle.ol_view.specs.Forms.{header_of};
ghost use Rattle.ol_subjects.specs.Subjects.{most_bytes};
ghost use Rattle.ol_orders.specs.Orders.{Traces, IsJournalOf, IsJournal};
ghost use Rattle.ol_limits.specs.Limits.{most_nodes};

use crate::playing::play;
use ol_demand::{Demanded, demand};
use ol_limits::{Fuel, Heads, NoMemory};
use ol_net::Net;
use ol_rules::{Ended, Journal, run};
use ol_subjects::{Answer, End, NetRead, Subject, put, read_subject};
use ol_view::trace_text_2;
use std::alloc::Global;

/// In which order pairs are rewritten.
#[derive(Clone, Copy, Debug, PartialEq, Eq)]
pub enum Order {
    /// The pair whose smaller name is least comes first.
    Least,
    /// Only the pairs come that the reading of the net meets, in the order in which it meets them.
    Demand,
    /// All pairs come that are active, each once, by the order of their smaller names; then all
    /// that are active now; and so on.
    Rounds,
}

// The text of a journal with its rules and waves.
fn traced(alloc: Global, net: &Net, journal: &Journal) -> Result<Vec<u8>, NoMemory>
    requires few { length net.now.nodes + 4 * length journal.now ≤ 2000000000 }
    requires run { (M : NamedNet NodeName) × IsRun (start_net_of_graph net.now) 0 journal.now M }
    ensures { IfOk result (λ text. Traces net.now journal.now text.items) }
{
    let text = trace_text_2(alloc, net, journal)?;
    Ok(text)
}

// The run of one thread.
fn least(alloc: Global, net: &Net, fuel: Fuel) -> Result<Answer, NoMemory>
    requires few { length net.now.nodes ≤ most_nodes }
    ensures { IfOk result (λ a.
        (heads : ℕ) → IsJournalOf net.now fuel.most heads a.text.items Order.Least a.end) }
{
    let mut last = net.copy()?;
    let ran = run(alloc, &mut last, fuel.most)?;
    let text = traced(alloc, net, &ran.journal)?;
    match ran.ended {
        Ended::Done => {
            let end = End::Yes;
            Ok(Answer { text, end })
        }
        Ended::Spent => {
            let end = End::No;
            Ok(Answer { text, end })
        }
    }
}

// The run in rounds.
fn in_rounds(alloc: Global, net: &Net, fuel: Fuel) -> Result<Answer, NoMemory>
    requires few { length net.now.nodes ≤ most_nodes }
    ensures { IfOk result (λ a.
        (heads : ℕ) → IsJournalOf net.now fuel.most heads a.text.items Order.Rounds a.end) }
{
    let ran = play(alloc, net, fuel)?;
    let text = traced(alloc, net, &ran.journal)?;
    match ran.ended {
        Ended::Done => {
            let end = End::Yes;
            Ok(Answer { text, end })
        }
        Ended::Spent => {
            let end = End::No;
            Ok(Answer { text, end })
        }
    }
}

// The text of the journal of no entry.
fn no_entry(alloc: Global) -> Result<Answer, NoMemory>
    ensures text { IfOk result (λ a. a.text.items ≡ header_of Two) }
    ensures yes { IfOk result (λ a. a.end ≡ End.Yes) }
{
    let mut text = Vec::new(alloc);
    put(&mut text, b"ol trace 2\n")?;
    let end = End::Yes;
    Ok(Answer { text, end })
}

// The run that reads the net on demand.
fn on_demand(alloc: Global, net: &Net, fuel: Fuel, heads: Heads) -> Result<Answer, NoMemory>
    requires few { length net.now.nodes ≤ most_nodes }
    ensures { IfOk result (λ a.
        IsJournalOf net.now fuel.most heads.most a.text.items Order.Demand a.end) }
{
    if net.free_ports() == 0 {
        let answer = no_entry(alloc)?;
        return Ok(answer);
    }
    let mut last = net.copy()?;
    let demanded = demand(alloc, &mut last, fuel.most, heads.most)?;
    match demanded {
        Demanded::Spent { journal } => {
            let text = traced(alloc, net, &journal)?;
            let end = End::No;
            Ok(Answer { text, end })
        }
        Demanded::Done { journal, .. } => {
            let text = traced(alloc, net, &journal)?;
            let end = End::Yes;
            Ok(Answer { text, end })
        }
    }
}

// The journal of a net.
fn of_net(
    alloc: Global,
    net: &Net,
    order: Order,
    fuel: Fuel,
    heads: Heads,
) -> Result<Answer, NoMemory>
    requires few { length net.now.nodes ≤ most_nodes }
    ensures { IfOk result (λ a. IsJournalOf net.now fuel.most heads.most a.text.items order a.end) }
{
    match order {
        Order::Least => {
            let answer = least(alloc, net, fuel)?;
            Ok(answer)
        }
        Order::Demand => {
            let answer = on_demand(alloc, net, fuel, heads)?;
            Ok(answer)
        }
        Order::Rounds => {
            let answer = in_rounds(alloc, net, fuel)?;
            Ok(answer)
        }
    }
}

/// The trace of a run in this order, of at most `fuel` interactions, with its rules and waves.
/// The run on demand asks for the first `heads` subterms; where the net has no free port, it asks
/// for nothing, and its trace has no entry. In the other two orders nothing depends on `heads`.
///
/// - `Yes`: the order has come to its end.
/// - `No`: it goes on beyond the fuel.
/// - `Refused`: `ol` refuses the file, by this line.
///
/// The file has at most 1,048,576 bytes with a term, and 33,554,432 with a net. `NoMemory`: no
/// memory was found.
pub fn journal(
    alloc: Global,
    bytes: &[u8],
    subject: Subject,
    order: Order,
    fuel: Fuel,
    heads: Heads,
) -> Result<Answer, NoMemory>
    requires short { length bytes.now ≤ most_bytes subject }
    ensures { IfOk result (λ a.
        IsJournal bytes.now order fuel.most heads.most a.text.items subject a.end) }
{
    match read_subject(alloc, bytes, subject)? {
        NetRead::Refused(text) => {
            let end = End::Refused;
            Ok(Answer { text, end })
        }
        NetRead::Net(net) => {
            let answer = of_net(alloc, &net, order, fuel, heads)?;
            Ok(answer)
        }
    }
}
