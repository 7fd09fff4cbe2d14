//! A net reduced by any number of workers.
ghost use Rattle.std.specs.Prelude.{◌≡◌, ◌<◌, ◌≤◌, length, is_some, count_by, IfOk, ◌↔◌};
ghost use Rattle.ol_limits.specs.Limits.{most_fuel};
ghost use Rattle.ol_wire.specs.Closed.{journal_drawn};
ghost use Rattle.ol_wire.specs.Sizes.{IsSmallNet};
ghost use Rattle.ol_reduce.specs.OnceFrozen.{IsDoneOnceFrozen};
ghost use Rattle.ol_reduce.specs.Reduced.{EndsWithin, IsDoneAnswer, IsSpent, Reduces};

use crate::answers::End;
use crate::freezing::freeze_with_journal;
use crate::gathering::run_workers;
use crate::reduced::Reduced;
use ol_diamond::one_thread_agrees;
use ol_io::Gate;
use ol_limits::{Fuel, NoMemory, Workers};
use ol_net::Net;
use ol_wire::Words;
use std::alloc::Global;
use std::sync::Wait;
use std::thread::Threads;

/// Reduces a net with `workers` worker threads, which rewrite its active pairs in any order, by at
/// most `fuel` interactions.
///
/// - `net`: a net none of whose numbers belongs to a removed node: at most 1,000,000 nodes, at most
///   1,000,000 free ports, no index above 1,000,000.
/// - `workers`: 1 to 64. If fewer threads can be started, a thread runs several workers in turn.
/// - `fuel`: at most 8,000,000.
///
/// `Done` is returned exactly if the reduction by one thread has at most `fuel` interactions; the
/// trace has as many entries as that reduction and leads to `net`. `Spent` is returned exactly if
/// the reduction by one thread has more interactions; the trace then has `fuel` entries, and an
/// active pair is left. In both cases `words` are the closed words of a table that was made from
/// this net, with this fuel and `workers` seats, and `journal` is their trace. `NoMemory`: no
/// memory was found for the words, the pool, the workers, the trace or the final net.
pub fn reduce<R: Threads + Wait + Sync, G: Gate + Sync>(
    rt: &R,
    alloc: Global,
    net: &Net,
    workers: u32,
    fuel: u32,
    gate: &G,
) -> Result<Reduced, NoMemory>
    requires whole { count_by is_some net.now.nodes ≡ length net.now.nodes }
    requires small { IsSmallNet net.now }
    requires fuel { fuel ≤ most_fuel }
    requires workers { (0 < workers) × (workers ≤ 64) }
    ensures reduced { IfOk result (λ r. Reduces net.now fuel workers r) }
    ensures done { IfOk result (λ r. IsDoneAnswer r ↔ EndsWithin net.now fuel) }
{
    let workers = Workers { count: workers };
    let fuel = Fuel { most: fuel };
    let (words, end) = reduce_words(rt, alloc, net, workers, fuel, gate)?;
    match end {
        End::Quiet => {
            let (last, journal) = freeze_with_journal(alloc, &words)?;
            Ok(Reduced::Done {
                net: last,
                journal,
                words,
            })
        }
        End::Spent => {
            let journal = words.whole_journal(alloc)?;
            Ok(Reduced::Spent { journal, words })
        }
    }
}

/// The closed words of the net that the workers have rewritten, and how their work ended: with
/// `Quiet` exactly where the one-thread run has at most `fuel` steps.
///
/// `NoMemory`: there was no memory for the words, the pool or the workers.
pub(crate) fn reduce_words<R: Threads + Wait + Sync, G: Gate + Sync>(
    rt: &R,
    alloc: Global,
    net: &Net,
    workers: Workers,
    fuel: Fuel,
    gate: &G,
) -> Result<(Words, End), NoMemory>
    requires whole { count_by is_some net.now.nodes ≡ length net.now.nodes }
    requires small { IsSmallNet net.now }
    ensures quiet { IfOk result (λ r. r.1 ≡ End.Quiet →
        IsDoneOnceFrozen net.now fuel.most workers.count r.0) }
    ensures spent { IfOk result (λ r. r.1 ≡ End.Spent →
        IsSpent net.now fuel.most workers.count (journal_drawn r.0) r.0) }
    ensures ends { IfOk result (λ r. (r.1 ≡ End.Quiet) ↔ EndsWithin net.now fuel.most) }
{
    one_thread_agrees();
    net.is_net();
    let (words, end) = run_workers(rt, alloc, net, workers, fuel, gate)?;
    words.runs();
    words.over();
    words.settled();
    Ok((words, end))
}
