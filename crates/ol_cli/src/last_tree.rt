//! The tree that is read back from the net that the workers leave.
ghost use Rattle.std.specs.Prelude.{◌≡◌, ◌<◌, ◌-◌, length, count_by, is_some, IfOk, IfSome};
ghost use Rattle.ol_readback.specs.Texts.{AreNamed};
ghost use Rattle.ol_wire.specs.Sizes.{IsSmallNet};
ghost use Rattle.ol_cli.specs.Inside.{ReadsOrRunsOut};
ghost use Rattle.ol_cli.specs.Ready.{HoldsOfTerms};

use crate::numbers::RunNumbers;
use ol_io::Gate;
use ol_limits::NoMemory;
use ol_net::Net;
use ol_readback::{ReadTree, read_back};
use ol_reduce::{Counted, reduce_counted};
use std::alloc::Global;
use std::sync::Wait;
use std::thread::Threads;

/// The tree that is read back from the net that the workers leave, by paths of at most twice as
/// many crossings as that net has nodes; `None` where the fuel was used up. This holds for each
/// term that has the net `net`. The free names of the tree are those of the free ports of `net`.
pub fn last_tree<R: Threads + Wait + Sync, G: Gate + Sync>(
    rt: &R,
    alloc: Global,
    net: &Net,
    numbers: RunNumbers,
    gate: &G,
) -> Result<Option<ReadTree>, NoMemory>
    requires root { 0 < net.now.free }
    requires whole { count_by is_some net.now.nodes ≡ length net.now.nodes }
    requires small { IsSmallNet net.now }
    ensures reads { IfOk result (λ tree. HoldsOfTerms net.now (λ translation t names.
        ReadsOrRunsOut translation t names numbers.fuel.most numbers.heads.most tree)) }
    ensures names { IfOk result (λ tree. IfSome tree (AreNamed (net.now.free - 1))) }
{
    net.is_net();
    let reduced = reduce_counted(rt, alloc, net, numbers.workers, numbers.fuel, gate)?;
    match reduced {
        Counted::Spent { .. } => Ok(None),
        Counted::Done { net: last, .. } => {
            last.is_net();
            let tree = read_back(alloc, &last, numbers.heads.most, 2 * last.nodes() as u64)?;
            Ok(Some(tree))
        }
    }
}
