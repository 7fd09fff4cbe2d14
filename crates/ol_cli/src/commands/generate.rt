//! The command `gen`: makes a term, and prints it or prints what `run` prints of it.
ghost use Rattle.std.specs.Prelude.{◌≡◌, ◌≤◌, length, IfOk};
ghost use Rattle.ol_words.specs.declared.jobs.Job.TheVariants as jobs;
ghost use Rattle.ol_cli.specs.Cases.{FileAnswer};
ghost use Rattle.ol_cli.specs.Answers.{Seen};
ghost use Rattle.ol_cli.specs.Generate.{plain_run};
ghost use Rattle.ol_cli.specs.TermFiles.{FileHands};
ghost use Rattle.ol_cli.specs.Handed.{WhereEnded};
ghost use Rattle.ol_cli.specs.Inside.{ComesOf};
ghost use Rattle.ol_limits.specs.Limits.{most_term_bytes};

use crate::answer::Answer;
use crate::commands::run::run_net;
use crate::numbers::RunNumbers;
use crate::ready::{Ready, make_ready};
use crate::status::Status;
use ol_io::Gate;
use ol_limits::NoMemory;
use ol_term::{Translation, make};
use std::alloc::Global;
use std::sync::Wait;
use std::thread::Threads;

/// The answer of `gen`: the text of a term that is doubled k times; or, if `run`, the answer of the
/// command `run` to this text, without options except the translation. It reads nothing.
pub fn answer_gen<R: Threads + Wait + Sync, G: Gate + Sync>(
    rt: &R,
    alloc: Global,
    translation: Translation,
    run: bool,
    k: u32,
    gate: &G,
) -> Result<Answer, NoMemory>
    requires few { k ≤ 10 }
    ensures comes { IfOk result (λ a. (s : Seen) → s.faults' ≡ s.faults
        → ComesOf (jobs.Gen translation run k) s a) }
{
    // With so small a k nothing but memory can be wanting.
    let Ok(text) = make(alloc, k) else {
        return Err(NoMemory);
    };
    if run {
        let answer = run_made(rt, alloc, &text, translation, gate)?;
        return Ok(answer);
    }
    Ok(Answer::text_alone(text, Status::Done))
}

// The answer of `run`, without options but the translation, to a text that is made.
fn run_made<R: Threads + Wait + Sync, G: Gate + Sync>(
    rt: &R,
    alloc: Global,
    bytes: &[u8],
    translation: Translation,
    gate: &G,
) -> Result<Answer, NoMemory>
    requires short { length bytes.now ≤ most_term_bytes }
    ensures answer { IfOk result (λ a.
        FileAnswer (plain_run translation) bytes.now a.status a.text.items) }
    ensures closed { IfOk result (λ a. WhereEnded a.status a.closed
        (FileHands (plain_run translation) bytes.now a.status a.text.items a.closed)) }
{
    let ready = make_ready(alloc, bytes, translation)?;
    match ready {
        Ready::Refused(answer) => Ok(answer),
        Ready::Net { net, file } => {
            let answer = run_net(rt, alloc, &net, &file, RunNumbers::plain(translation), gate)?;
            Ok(answer)
        }
    }
}
