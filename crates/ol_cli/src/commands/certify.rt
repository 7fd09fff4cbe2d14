//! The command `certify`: the leftmost reduction of a term against the reduction of its net.
ghost use Rattle.std.specs.Prelude.{◌≡◌, ◌+◌, true, IfOk, None};
ghost use Rattle.ol_term.specs.Trees.{tree_of};
ghost use Rattle.ol_cli.specs.Called.{ReadsAtMost, OfFilesRead, seen_of};
ghost use Rattle.ol_cli.specs.Inside.{AnswersTerm, ComesOf, certify_on, certify_by};
ghost use Rattle.ol_cli.specs.Ready.{IsNetOf, IsReducible};

use crate::answer::Answer;
use crate::last_tree::last_tree;
use crate::numbers::RunNumbers;
use crate::ready::{Ready, read_term};
use crate::status::Status;
use crate::texts::spent_line;
use crate::verdicts::verdict_lines;
use ol_beta::certify;
use ol_io::{Gate, Source};
use ol_limits::NoMemory;
use ol_net::Net;
use ol_term::TermFile;
use std::alloc::Global;
use std::sync::Wait;
use std::thread::Threads;

/// The answer of `certify` to the term file of this name, by at most `steps` leftmost steps.
pub fn answer_certify<R: Threads + Wait + Sync, S: Source, G: Gate + Sync>(
    rt: &R,
    alloc: Global,
    numbers: RunNumbers,
    steps: u32,
    name: &str,
    src: &mut S,
    gate: &G,
) -> Result<Answer, NoMemory>
    requires known { S.knows src.old name.now ≡ true }
    ensures comes { OfFilesRead S.Source src.old src.new (λ files.
        IfOk result (ComesOf (certify_on numbers steps name.now)
        (seen_of S.Source files src.old src.new))) }
    ensures source { ReadsAtMost S.Source 1 src.old src.new }
{
    let ready = read_term(alloc, numbers.translation, name, src)?;
    match ready {
        Ready::Refused(answer) => Ok(answer),
        Ready::Net { net, file } => certify_net(rt, alloc, &net, &file, numbers, steps, gate),
    }
}

// The net is rewritten by the workers and read back, and leftmost reduction of the term, by at most
// `steps` steps, is compared with what was read.
fn certify_net<R: Threads + Wait + Sync, G: Gate + Sync>(
    rt: &R,
    alloc: Global,
    net: &Net,
    file: &TermFile,
    numbers: RunNumbers,
    steps: u32,
    gate: &G,
) -> Result<Answer, NoMemory>
    requires net { IsNetOf numbers.translation (tree_of file.now.term) file.now.names net.now }
    requires term { IsReducible (tree_of file.now.term) file.now.names }
    ensures answer { IfOk result (λ a.
        AnswersTerm (certify_by numbers steps) file.now a.status a.text.items) }
    ensures closed { IfOk result (λ a. a.closed ≡ None) }
{
    match last_tree(rt, alloc, net, numbers, gate)? {
        None => {
            let text = spent_line(alloc, numbers.fuel.most)?;
            Ok(Answer::text_alone(text, Status::Spent))
        }
        Some(tree) => {
            let verdict = certify(alloc, &file.term, &tree, steps)?;
            let text = verdict_lines(alloc, verdict, steps)?;
            Ok(Answer::text_alone(text, Status::Done))
        }
    }
}
