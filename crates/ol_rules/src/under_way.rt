//! A reduction in progress: the names of its node numbers, its trace, and a single interaction.

ghost use Rattle.std.specs.Prelude.{◌≡◌, ◌+◌, ◌<◌, ◌≤◌, [], length, IfOk, OnOk, OnErr};
ghost use Rattle.ol_net.specs.declared.parts.Rule.{Rule};
ghost use Rattle.ol_net.specs.Numbered.{net_of};
ghost use Rattle.ol_net.specs.Pairs.{IsInActive};
ghost use Rattle.ol_rules.specs.Steps.{StepsAt};
ghost use Rattle.ol_rules.specs.UnderWay.{IsPair, Advances, AtMostOneStep, IsInterrupted};

use crate::journal::{Entry, Journal};
use crate::names::Names;
use crate::steps::{StepFault, step};
use ol_limits::NoMemory;
use ol_net::{Net, NodeId, Rule};
use std::alloc::Global;

/// A reduction in progress, without its net: the names of the net's node numbers, and the trace so
/// far.
#[derive(Drop)]
pub struct UnderWay {
    pub names: Names,
    pub journal: Journal,
}

// Rewrites the active pair of a node, which has one, so that only memory can be lacking.
fn rewrite(net: &mut Net, at: NodeId) -> Result<Rule, NoMemory>
    requires few { length net.old.nodes ≤ 2000000000 }
    requires active { (r : Rule) × IsInActive (net_of net.old) at.0 r }
    ensures steps { IfOk result (λ rule. StepsAt net.old net.new at.0 rule) }
    ensures refused { OnErr result (net.new ≡ net.old) }
{
    let _facing = net.facing(at);
    match step(net, at) {
        Ok(rule) => Ok(rule),
        Err(StepFault::NoMemory) => Err(NoMemory),
        Err(StepFault::NotActive) => unreachable!(),
    }
}

impl UnderWay {
    /// The reduction before its first interaction. Takes no memory.
    pub fn new(alloc: Global, net: &Net) -> UnderWay
        ensures start { result.names.start ≡ length net.now.nodes }
        ensures born { result.names.born.items ≡ [] }
        ensures journal { result.journal ≡ [] }
    {
        UnderWay {
            names: Names::new(alloc, net),
            journal: Journal::new(alloc),
        }
    }

    /// Rewrites the active pair of these two nodes, and appends it to the trace, `x` before `y`.
    /// `NoMemory`: no memory was found; the net is unchanged or is the result of the interaction,
    /// and the trace is unchanged.
    pub fn rewrite_pair(&mut self, net: &mut Net, x: NodeId, y: NodeId) -> Result<(), NoMemory>
        requires few { length net.old.nodes ≤ 2000000000 }
        requires pair { (r : Rule) × IsPair (net_of net.old) x.0 y.0 r }
        requires journal { length self.old.journal < 4294967295 }
        ensures ok { OnOk result (Advances self.old self.new net.old net.new x.0 y.0) }
        ensures err { OnErr result (AtMostOneStep net.old net.new x.0) }
        ensures left { OnErr result (IsInterrupted self.old self.new) }
    {
        net.is_net();
        let first = self.names.name_of(x);
        let second = self.names.name_of(y);
        let from = net.born();
        let rule = rewrite(net, x)?;
        net.is_net();
        let to = net.born();
        self.names.push(self.journal.len(), to - from)?;
        self.journal.push(Entry {
            rule,
            first,
            second,
        })
    }
}
