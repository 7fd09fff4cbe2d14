//! A net reduced by any number of workers, without the trace.
ghost use Rattle.std.specs.Prelude.{◌≡◌, length, is_some, count_by, IfOk, ◌↔◌};
ghost use Rattle.ol_wire.specs.Sizes.{IsSmallNet};
ghost use Rattle.ol_reduce.specs.Counted.{IsDoneCounted, ReducesCounted};
ghost use Rattle.ol_reduce.specs.Reduced.{EndsWithin};

use crate::answers::End;
use crate::freezing::freeze_counted;
use crate::reducing::reduce_words;
use ol_io::Gate;
use ol_limits::{Fuel, NoMemory, Workers};
use ol_net::Net;
use ol_rules::Counts;
use ol_wire::Words;
use std::alloc::Global;
use std::sync::Wait;
use std::thread::Threads;

/// The result of a parallel reduction, without the trace.
///
/// - `Done`: a normal form. `net` is the final net, whose nodes are numbered in the ascending order
///   of their names, and `counts` are the counts of the trace of the words, which leads to this
///   net.
/// - `Spent`: the fuel is used up, and an active pair is left.
///
/// `words` are the closed words of the table.
#[derive(Drop)]
pub enum Counted {
    Done {
        net: Net,
        counts: Counts,
        words: Words,
    },
    Spent {
        words: Words,
    },
}

/// Reduces a net as `reduce` does, within the same limits, without building the trace: `Done` has
/// the counts of the trace instead. If the fuel is used up, no block of the words is read.
///
/// `NoMemory`: no memory was found for the words, the pool or the workers, or, if no active pair is
/// left, for the pairs of the tickets or the final net.
pub fn reduce_counted<R: Threads + Wait + Sync, G: Gate + Sync>(
    rt: &R,
    alloc: Global,
    net: &Net,
    workers: Workers,
    fuel: Fuel,
    gate: &G,
) -> Result<Counted, NoMemory>
    requires whole { count_by is_some net.now.nodes ≡ length net.now.nodes }
    requires small { IsSmallNet net.now }
    ensures reduced { IfOk result (λ r. ReducesCounted net.now fuel.most workers.count r) }
    ensures done { IfOk result (λ r. IsDoneCounted r ↔ EndsWithin net.now fuel.most) }
{
    let (words, end) = reduce_words(rt, alloc, net, workers, fuel, gate)?;
    match end {
        End::Quiet => {
            let (last, counts) = freeze_counted(alloc, &words)?;
            Ok(Counted::Done {
                net: last,
                counts,
                words,
            })
        }
        End::Spent => Ok(Counted::Spent { words }),
    }
}
