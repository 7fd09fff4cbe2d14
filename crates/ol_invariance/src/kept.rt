//! Interactions and reductions whose contracts state the invariance of paths.

ghost use Rattle.std.specs.Prelude.{◌≡◌, ◌≢◌, ℕ, ◌≤◌, ◌+◌, ◌*◌, ◌↔◌, length, OnErr, IfOk, Err, MatchOption};
ghost use Rattle.ol_context.specs.Paths.{HaveSamePaths};
ghost use Rattle.ol_net.specs.Graph.{facing_at};
ghost use Rattle.ol_net.specs.Numbered.{net_of};
ghost use Rattle.ol_net.specs.declared.parts.Facing.TheVariants.{Active};
ghost use Rattle.ol_net.specs.declared.parts.Rule.{Rule};
ghost use Rattle.ol_rules.specs.Runs.{RanOut, RunsTo, StopsWithin};
ghost use Rattle.ol_net.specs.Pairs.{IsComplete};
ghost use Rattle.ol_rules.specs.Steps.{IsUnpaired, StepsAt};
ghost use Rattle.ol_rules.specs.declared.one_thread.Ended.TheVariants as ended;
ghost use Rattle.ol_rules.specs.declared.steps.StepFault.TheVariants.{NotActive};

use ol_limits::NoMemory;
use ol_net::{Net, NodeId, Rule};
use ol_rules::{Ran, StepFault, run, step};
use std::alloc::Global;

/// Rewrites an active pair as `ol_rules::step` does. The nets before and after the call have the
/// same paths between free ports, also after an error.
pub fn step_kept(net: &mut Net, at: NodeId) -> Result<Rule, StepFault>
    requires few { length net.old.nodes ≤ 2000000000 }
    ensures steps { IfOk result (λ rule. StepsAt net.old net.new at.0 rule) }
    ensures active { IfOk result (λ rule. facing_at net.old at ≡ Active rule) }
    ensures not_active { result ≡ Err NotActive ↔ IsUnpaired net.old at }
    ensures refused { OnErr result (net.new ≡ net.old) }
    ensures paths { HaveSamePaths (net_of net.old) (net_of net.new) }
{
    net.is_net();
    step(net, at)
}

/// Reduces a net as `ol_rules::run` does. The nets before and after the call have the same paths
/// between free ports, also after `NoMemory`.
pub fn run_kept(alloc: Global, net: &mut Net, fuel: u32) -> Result<Ran, NoMemory>
    requires few { length net.old.nodes + 4 * fuel ≤ 2000000000 }
    ensures runs { IfOk result (λ ran. RunsTo net.old fuel ran.journal net.new) }
    ensures done { IfOk result (λ ran. (ran.ended ≡ ended.Done) ↔ IsComplete (net_of net.new)) }
    ensures spent { IfOk result (λ r. (r.ended ≡ ended.Spent) ↔ RanOut fuel r.journal net.new) }
    ensures no_memory { OnErr result (StopsWithin net.old fuel net.new) }
    ensures paths { HaveSamePaths (net_of net.old) (net_of net.new) }
{
    net.is_net();
    let ran = run(alloc, net, fuel);
    net.is_net();
    ran
}
