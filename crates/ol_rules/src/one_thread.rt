//! Reductions by one thread: each interaction is the lead.

ghost use Rattle.std.specs.Prelude.{◌≡◌, ◌+◌, ◌*◌, ◌<◌, ◌≤◌, ◌↔◌, [], length, OnOk, OnErr, IfOk};
ghost use Rattle.ol_net.specs.Nets.{IsNet};
ghost use Rattle.ol_net.specs.Numbered.{net_of};
ghost use Rattle.ol_rules.specs.Runs.{RanOut, RunsTo, StopsWithin};
ghost use Rattle.ol_net.specs.Pairs.{IsComplete};
ghost use Rattle.ol_rules.specs.Running.{AllWait, AllWaitBut, OthersWait, IsLeast, FindsLead, FindsPartner};
ghost use Rattle.ol_rules.specs.UnderWay.{AtMostOneStep, Advances};

use crate::awaiting::{await_active, await_beside};
use crate::facing::node_at;
use crate::journal::Journal;
use crate::under_way::UnderWay;
use ol_limits::NoMemory;
use ol_net::{Facing, Net, NodeId, Port};
use std::alloc::Global;
use std::collections::BTreeSet;

/// How a reduction ended.
#[derive(Clone, Copy, Debug, PartialEq, Eq)]
pub enum Ended {
    /// In a normal form: no active pair is left.
    Done,
    /// The fuel is used up, and an active pair is left.
    Spent,
}

/// A reduction: its trace, and how it ended.
#[derive(Drop)]
pub struct Ran {
    pub ended: Ended,
    pub journal: Journal,
}

/// A run on its way. Each node of an active pair is among the `waiting` ones.
#[derive(Drop)]
struct Running {
    under_way: UnderWay,
    waiting: BTreeSet<u32>,
}

/// Reduces a net by at most `fuel` interactions, each of the lead, which is the active pair whose
/// smaller node number is least. Created nodes get the next numbers, in the order of their
/// creation. After `NoMemory` the net is the result of some number of these interactions, at most
/// `fuel`.
pub fn run(alloc: Global, net: &mut Net, fuel: u32) -> Result<Ran, NoMemory>
    requires { length net.old.nodes + 4 * fuel ≤ 2000000000 }
    ensures runs { IfOk result (λ ran. RunsTo net.old fuel ran.journal net.new) }
    ensures done { IfOk result (λ ran. (ran.ended ≡ Ended.Done) ↔ IsComplete (net_of net.new)) }
    ensures spent { IfOk result (λ r. (r.ended ≡ Ended.Spent) ↔ RanOut fuel r.journal net.new) }
    ensures no_memory { OnErr result (StopsWithin net.old fuel net.new) }
{
    let mut running = begin(alloc, net)?;
    while let Some((lead, partner)) = next_lead(&mut running.waiting, net) {
        if running.under_way.journal.len() == fuel {
            return Ok(running.end(Ended::Spent));
        }
        running.advance(net, lead, partner)?;
    }
    Ok(running.end(Ended::Done))
}

fn begin(alloc: Global, net: &Net) -> Result<Running, NoMemory>
    ensures start { IfOk result (λ running. running.under_way.names.start ≡ length net.now.nodes) }
    ensures born { IfOk result (λ running. running.under_way.names.born.items ≡ []) }
    ensures journal { IfOk result (λ running. running.under_way.journal ≡ []) }
    ensures waits { IfOk result (λ running. AllWait net.now running.waiting) }
    ensures is_net { IsNet (net_of net.now) }
{
    net.is_net();
    let mut waiting = BTreeSet::new(alloc);
    await_active(&mut waiting, net, 0, net.born())?;
    Ok(Running {
        under_way: UnderWay::new(alloc, net),
        waiting,
    })
}

/// Takes the lead out of those that wait, and those before it that are in no active pair: the
/// lead's smaller number, and the other one.
fn next_lead(waiting: &mut BTreeSet<u32>, net: &Net) -> Option<(NodeId, NodeId)>
    requires { AllWait net.now waiting.old }
    ensures lead { FindsLead net.now result }
    ensures others { AllWaitBut net.now result waiting.new }
{
    while let Some(n) = waiting.pop_first() {
        if let Some(partner) = active_partner(net, NodeId(n)) {
            return Some((NodeId(n), partner));
        }
    }
    None
}

/// The other node of a node's active pair.
fn active_partner(net: &Net, at: NodeId) -> Option<NodeId>
    ensures { FindsPartner net.now at.0 result }
{
    net.is_net();
    let Facing::Active(_) = net.facing(at) else {
        return None;
    };
    node_at(net, Port::Of { node: at, slot: 0 })
}

impl Running {
    /// Rewrites the lead, and writes it down.
    fn advance(&mut self, net: &mut Net, lead: NodeId, partner: NodeId) -> Result<(), NoMemory>
        requires few { length net.old.nodes ≤ 2000000000 }
        requires lead { IsLeast net.old lead.0 partner.0 }
        requires waits { OthersWait net.old lead.0 self.old.waiting }
        requires journal { length self.old.under_way.journal < 4294967295 }
        ensures ok { OnOk result
            (Advances self.old.under_way self.new.under_way net.old net.new lead.0 partner.0) }
        ensures waits { OnOk result (AllWait net.new self.new.waiting) }
        ensures err { OnErr result (AtMostOneStep net.old net.new lead.0) }
    {
        net.is_net();
        await_beside(&mut self.waiting, net, lead)?;
        await_beside(&mut self.waiting, net, partner)?;
        let from = net.born();
        self.under_way.rewrite_pair(net, lead, partner)?;
        await_active(&mut self.waiting, net, from, net.born())
    }

    fn end(self, ended: Ended) -> Ran
        ensures ended { result.ended ≡ ended }
        ensures journal { result.journal ≡ self.under_way.journal }
    {
        Ran {
            ended,
            journal: self.under_way.journal,
        }
    }
}
