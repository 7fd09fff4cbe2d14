//! Runs in rounds: the active pairs of a net are rewritten, then those that are active now, and so
//! on.

ghost use Rattle.std.specs.Prelude.{◌≡◌, ℕ, ◌+◌, ◌*◌, ◌<◌, ◌≤◌, true, false, [], length, IfOk, OnOk, IfSome, IfNone};
ghost use Rattle.ol_net.specs.declared.parts.Rule.{Rule};
ghost use Rattle.ol_net.specs.Nets.{NamedNet};
ghost use Rattle.ol_rules.specs.declared.journal.NodeName.{NodeName};
ghost use Rattle.ol_rules.specs.Running.{AllWait};
ghost use Rattle.ol_rules.specs.Runs.{IsRun};
ghost use Rattle.ol_view.specs.Checks.{start_net_of_graph};
ghost use Rattle.ol_orders.specs.Replays.{ReplaysPair};
ghost use Rattle.ol_orders.specs.Played.{IsPair, ArePairs, StillWait, NewWait, Plays, IsCut, IsPlayed};
ghost use Rattle.ol_limits.specs.Limits.{most_nodes};

use crate::replaying::Replay;
use ol_limits::{Fuel, NoMemory};
use ol_net::{Facing, Net, NodeId, Port};
use ol_rules::{Ended, Ran, await_active, await_beside};
use std::alloc::Global;
use std::collections::BTreeSet;

// The other node of a node's active pair, where it has the greater number.
fn greater(net: &Net, at: NodeId) -> Option<NodeId>
    ensures some { IfSome result (λ y. (rule : Rule) × IsPair net.now at.0 y.0 rule) }
    ensures none { IfNone result ((y : ℕ) (rule : Rule) → IsPair net.now at.0 y rule → ⊥) }
{
    net.is_net();
    let Facing::Active(_) = net.facing(at) else {
        return None;
    };
    match net.partner(Port::Of { node: at, slot: 0 }) {
        Some(Port::Of { node, slot }) => {
            if slot == 0 && at.0 < node.0 {
                Some(node)
            } else {
                None
            }
        }
        Some(Port::Free(_)) => None,
        None => None,
    }
}

// Takes out all that waits: the active pairs of the net, the smaller number first, in the order of
// the smaller numbers.
fn take_pairs(
    alloc: Global,
    waiting: &mut BTreeSet<u32>,
    net: &Net,
) -> Result<Vec<(u32, u32)>, NoMemory>
    requires waits { AllWait net.now waiting.old }
    ensures pairs { IfOk result (λ pairs. ArePairs net.now pairs.items) }
{
    net.is_net();
    let mut pairs = Vec::new(alloc);
    while let Some(n) = waiting.pop_first() {
        if let Some(other) = greater(net, NodeId(n)) {
            pairs.push((n, other.0))?;
        }
    }
    Ok(pairs)
}

// Rewrites an active pair. Those wait that may be in an active pair now and were in none.
fn play_pair(
    replay: &mut Replay,
    waiting: &mut BTreeSet<u32>,
    x: NodeId,
    y: NodeId,
) -> Result<(), NoMemory>
    requires few { length replay.old.net.nodes ≤ 2000000000 }
    requires journal { length replay.old.run.journal < 4294967295 }
    requires pair { (rule : Rule) × IsPair replay.old.net x.0 y.0 rule }
    ensures advances { OnOk result (ReplaysPair replay.old replay.new x.0 y.0) }
    ensures kept { OnOk result (StillWait waiting.old waiting.new) }
    ensures waits { OnOk result (NewWait replay.old.net replay.new.net x.0 y.0 waiting.new) }
{
    replay.net.is_net();
    await_beside(waiting, &replay.net, x)?;
    await_beside(waiting, &replay.net, y)?;
    let from = replay.net.born();
    if !replay.rewrite(x, y)? {
        unreachable!()
    }
    await_active(waiting, &replay.net, from, replay.net.born())?;
    Ok(())
}

// Rewrites the active pairs of the net in order, each once, as far as the fuel goes. `false`: it was
// used up before one of them.
fn play_round(
    replay: &mut Replay,
    waiting: &mut BTreeSet<u32>,
    pairs: &[(u32, u32)],
    fuel: Fuel,
) -> Result<bool, NoMemory>
    requires pairs { ArePairs replay.old.net pairs.now }
    requires few { length replay.old.net.nodes + 4 * fuel.most
        ≤ 2000000000 + 4 * length replay.old.run.journal }
    requires within { length replay.old.run.journal ≤ fuel.most }
    ensures all { IfOk result (λ all. all ≡ true → Plays replay.old pairs.now [] replay.new) }
    ensures waits { IfOk result (λ all. all ≡ true → AllWait replay.new.net waiting.new) }
    ensures cut { IfOk result (λ all. all ≡ false →
        IsCut fuel.most replay.old pairs.now replay.new) }
    ensures within { IfOk result (λ all. length replay.new.run.journal ≤ fuel.most) }
{
    replay.net.is_net();
    for pair in pairs {
        if replay.run.journal.len() == fuel.most {
            return Ok(false);
        }
        play_pair(replay, waiting, NodeId(pair.0), NodeId(pair.1))?;
    }
    Ok(true)
}

/// The run in rounds from a net, of at most `fuel` interactions: a round rewrites, once each, the
/// pairs that are active when it begins, in the order of their smaller names. The net stays as it
/// is. A round looks only at nodes that were created in the one before or beside its pairs; the
/// first one looks at all. `NoMemory`: no memory was found.
pub fn play(alloc: Global, net: &Net, fuel: Fuel) -> Result<Ran, NoMemory>
    requires few { length net.now.nodes ≤ most_nodes }
    ensures played { IfOk result (λ ran. IsPlayed net.now fuel.most ran.journal ran.ended) }
    ensures within { IfOk result (λ ran. length ran.journal ≤ fuel.most) }
    ensures run { IfOk result (λ ran. (M : NamedNet NodeName)
        × IsRun (start_net_of_graph net.now) 0 ran.journal M) }
{
    let mut replay = Replay::new(alloc, net)?;
    let mut waiting = BTreeSet::new(alloc);
    await_active(&mut waiting, &replay.net, 0, replay.net.born())?;
    let mut pairs = take_pairs(alloc, &mut waiting, &replay.net)?;
    while !pairs.is_empty() {
        if !play_round(&mut replay, &mut waiting, pairs.as_slice(), fuel)? {
            let ended = Ended::Spent;
            let run = replay.run;
            return Ok(Ran {
                ended,
                journal: run.journal,
            });
        }
        pairs = take_pairs(alloc, &mut waiting, &replay.net)?;
    }
    let ended = Ended::Done;
    let run = replay.run;
    Ok(Ran {
        ended,
        journal: run.journal,
    })
}
