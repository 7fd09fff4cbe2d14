//! The command `trace`: workers reduce the net of a term, and the trace of their run is printed.
ghost use Rattle.std.specs.Prelude.{◌≡◌, ◌+◌, true, length, count_by, is_some, IfOk};
ghost use Rattle.ol_wire.specs.Sizes.{IsSmallNet};
ghost use Rattle.ol_words.specs.declared.jobs.Job.TheVariants as jobs;
ghost use Rattle.ol_cli.specs.Called.{ReadsAtMost, OfFilesRead, seen_of};
ghost use Rattle.ol_cli.specs.Trace.{Traces, TraceHands};
ghost use Rattle.ol_cli.specs.Inside.{ComesOf};
ghost use Rattle.ol_cli.specs.Ready.{HoldsOfTerms};

use crate::answer::Answer;
use crate::ready::{Ready, read_term};
use crate::status::Status;
use ol_io::{Gate, Source};
use ol_limits::{Fuel, NoMemory, Workers};
use ol_net::Net;
use ol_reduce::{Reduced, reduce};
use ol_term::Translation;
use ol_view::trace_text_2;
use std::alloc::Global;
use std::sync::Wait;
use std::thread::Threads;

/// The answer of `trace` to the term file of this name. The closed words of the workers' table are
/// returned where their run is complete or used up its fuel.
pub fn answer_trace<R: Threads + Wait + Sync, S: Source, G: Gate + Sync>(
    rt: &R,
    alloc: Global,
    translation: Translation,
    workers: Workers,
    fuel: Fuel,
    name: &str,
    src: &mut S,
    gate: &G,
) -> Result<Answer, NoMemory>
    requires known { S.knows src.old name.now ≡ true }
    ensures comes { OfFilesRead S.Source src.old src.new (λ files.
        IfOk result (ComesOf (jobs.Trace translation workers.count fuel.most name.now)
        (seen_of S.Source files src.old src.new))) }
    ensures source { ReadsAtMost S.Source 1 src.old src.new }
{
    let ready = read_term(alloc, translation, name, src)?;
    match ready {
        Ready::Refused(answer) => Ok(answer),
        Ready::Net { net, file: _ } => trace_net(rt, alloc, &net, workers, fuel, gate),
    }
}

// The workers reduce the net, and the trace of their run is printed. This holds for each term that
// has this net.
fn trace_net<R: Threads + Wait + Sync, G: Gate + Sync>(
    rt: &R,
    alloc: Global,
    net: &Net,
    workers: Workers,
    fuel: Fuel,
    gate: &G,
) -> Result<Answer, NoMemory>
    requires whole { count_by is_some net.now.nodes ≡ length net.now.nodes }
    requires small { IsSmallNet net.now }
    ensures answer { IfOk result (λ a. HoldsOfTerms net.now (λ translation t names.
        Traces translation t names fuel.most a.status a.text.items)) }
    ensures closed { IfOk result (λ a. HoldsOfTerms net.now (λ translation t names.
        TraceHands translation t names workers.count fuel.most a.status a.text.items a.closed)) }
{
    net.is_net();
    let reduced = reduce(rt, alloc, net, workers.count, fuel.most, gate)?;
    match reduced {
        Reduced::Spent { journal, words } => {
            words.once();
            let text = trace_text_2(alloc, net, &journal)?;
            let status = Status::Spent;
            let closed = Some(words);
            Ok(Answer {
                text,
                status,
                closed,
            })
        }
        Reduced::Done {
            net: _,
            journal,
            words,
        } => {
            words.once();
            let text = trace_text_2(alloc, net, &journal)?;
            let status = Status::Done;
            let closed = Some(words);
            Ok(Answer {
                text,
                status,
                closed,
            })
        }
    }
}
