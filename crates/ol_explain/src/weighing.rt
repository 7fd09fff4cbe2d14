//! What the links of a run's last net weigh.

ghost use Rattle.std.specs.Prelude.{◌≡◌, ◌≤◌, length, IfOk};
ghost use Rattle.ol_net.specs.Nets.{NamedNet};
ghost use Rattle.ol_rules.specs.declared.journal.NodeName.{NodeName};
ghost use Rattle.ol_rules.specs.Runs.{IsRun};
ghost use Rattle.ol_view.specs.Checks.{start_net_of_graph};
ghost use Rattle.ol_orders.specs.Replays.{IsReplay};
ghost use Rattle.ol_explain.specs.Besides.{IsWeighed, IsBeside};
ghost use Rattle.ol_limits.specs.Limits.{most_fuel, most_nodes};

use crate::naming::Beside;
use ol_diamond::Weighing;
use ol_limits::NoMemory;
use ol_net::Net;
use ol_orders::Replay;
use ol_rules::Journal;
use std::alloc::Global;

// The weights after a run of this journal from the net.
fn weigh(alloc: Global, net: &Net, journal: &Journal) -> Result<Weighing, NoMemory>
    requires few { length net.now.nodes ≤ most_nodes }
    requires entries { length journal.now ≤ most_fuel }
    requires run { (M : NamedNet NodeName) × IsRun (start_net_of_graph net.now) 0 journal.now M }
    ensures { IfOk result (IsWeighed net.now journal.now) }
{
    net.is_net();
    let mut weighing = Weighing::new(alloc, net)?;
    for k in 0..journal.len() {
        let Some(entry) = journal.get(k) else {
            unreachable!()
        };
        let made = weighing.rewrite(entry.first, entry.second)?;
        let Some(_) = made else { unreachable!() };
    }
    Ok(weighing)
}

/// What is written beside the partners of ports in the last net of a run from the net: the weights
/// of the links, if they are asked for. `NoMemory`: no memory was found.
pub fn words_beside(
    alloc: Global,
    net: &Net,
    replay: &Replay,
    weights: bool,
) -> Result<Beside, NoMemory>
    requires few { length net.now.nodes ≤ most_nodes }
    requires entries { length replay.now.run.journal ≤ most_fuel }
    requires replay { IsReplay net.now replay.now }
    ensures { IfOk result (IsBeside weights net.now replay.now.run.journal) }
{
    if weights {
        let weighing = weigh(alloc, net, &replay.run.journal)?;
        return Ok(Beside::Weights(weighing));
    }
    Ok(Beside::Nothing)
}
