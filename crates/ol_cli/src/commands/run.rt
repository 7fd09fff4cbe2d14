//! The command `run`: workers reduce the net of a term, and the result is read back.
ghost use Rattle.std.specs.Prelude.{◌≡◌, ◌+◌, ◌*◌, true, IfOk};
ghost use Rattle.ol_term.specs.Trees.{tree_of};
ghost use Rattle.ol_cli.specs.Called.{ReadsAtMost, OfFilesRead, seen_of};
ghost use Rattle.ol_cli.specs.Inside.{AnswersTerm, ComesOf, HandsOfTerm, run_on, run_by};
ghost use Rattle.ol_cli.specs.Ready.{IsNetOf};

use crate::answer::Answer;
use crate::numbers::RunNumbers;
use crate::ready::{Ready, read_term};
use crate::status::Status;
use crate::texts::{answer_lines, spent_line};
use ol_io::{Gate, Source};
use ol_limits::NoMemory;
use ol_net::Net;
use ol_readback::{read_back, tree_text};
use ol_reduce::{Counted, reduce_counted};
use ol_term::TermFile;
use std::alloc::Global;
use std::sync::Wait;
use std::thread::Threads;

/// The answer of `run` to the term file of this name. The closed words of the workers' table are
/// returned where their run is complete or used up its fuel.
pub fn answer_run<R: Threads + Wait + Sync, S: Source, G: Gate + Sync>(
    rt: &R,
    alloc: Global,
    numbers: RunNumbers,
    name: &str,
    src: &mut S,
    gate: &G,
) -> Result<Answer, NoMemory>
    requires known { S.knows src.old name.now ≡ true }
    ensures comes { OfFilesRead S.Source src.old src.new (λ files.
        IfOk result (ComesOf (run_on numbers name.now)
        (seen_of S.Source files src.old src.new))) }
    ensures source { ReadsAtMost S.Source 1 src.old src.new }
{
    let ready = read_term(alloc, numbers.translation, name, src)?;
    match ready {
        Ready::Refused(answer) => Ok(answer),
        Ready::Net { net, file } => run_net(rt, alloc, &net, &file, numbers, gate),
    }
}

/// The workers reduce the net, and the last net is read back, by paths of at most twice as many
/// crossings as that net has nodes.
pub fn run_net<R: Threads + Wait + Sync, G: Gate + Sync>(
    rt: &R,
    alloc: Global,
    net: &Net,
    file: &TermFile,
    numbers: RunNumbers,
    gate: &G,
) -> Result<Answer, NoMemory>
    requires net { IsNetOf numbers.translation (tree_of file.now.term) file.now.names net.now }
    ensures answer { IfOk result (λ a.
        AnswersTerm (run_by numbers) file.now a.status a.text.items) }
    ensures closed { IfOk result (λ a.
        HandsOfTerm (run_by numbers) file.now a.status a.text.items a.closed) }
{
    net.is_net();
    let reduced = reduce_counted(rt, alloc, net, numbers.workers, numbers.fuel, gate)?;
    match reduced {
        Counted::Spent { words } => {
            words.once();
            let text = spent_line(alloc, numbers.fuel.most)?;
            let status = Status::Spent;
            let closed = Some(words);
            Ok(Answer {
                text,
                status,
                closed,
            })
        }
        Counted::Done {
            net: last,
            counts,
            words,
        } => {
            words.once();
            last.is_net();
            let tree = read_back(alloc, &last, numbers.heads.most, 2 * last.nodes() as u64)?;
            let term = tree_text(alloc, &tree, &file.names)?;
            let text = answer_lines(alloc, &term, counts, last.stuck())?;
            let status = Status::Done;
            let closed = Some(words);
            Ok(Answer {
                text,
                status,
                closed,
            })
        }
    }
}
