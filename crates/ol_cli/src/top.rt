//! The top call.
ghost use Rattle.std.specs.Prelude.{◌≤◌, ◌+◌, ◌≡◌, true, IfOk};
ghost use Rattle.ol_words.specs.declared.jobs.Job.{Job};
ghost use Rattle.ol_cli.specs.Jobs.{AskFor, EachName, IsKnownTo, IsWithinLimits, count_of_files, files_of};
ghost use Rattle.ol_cli.specs.Inside.{ComesOf, ComesOfWords, Writes};
ghost use Rattle.ol_cli.specs.Answers.{Ends, HasCause, RefusesFirst};
ghost use Rattle.ol_cli.specs.Called.{ReadsAtMost, OfFilesRead, WhereNoneFailed, seen_of};
ghost use Rattle.ol_cli.specs.NormalForms.{AreFewest, CountsSay, FirstLine, IsFoundWithin, PlainDemandSays, PlainEqualSays, PlainLineSays};
ghost use Rattle.ol_cli.specs.Handed.{Hands};

use crate::answer::Answer;
use crate::commands::certify::answer_certify;
use crate::commands::check::answer_check;
use crate::commands::demand::answer_demand;
use crate::commands::equal::answer_equal;
use crate::commands::generate::answer_gen;
use crate::commands::net::{answer_net, answer_net_of_term};
use crate::commands::run::answer_run;
use crate::commands::trace::answer_trace;
use crate::commands::view::answer_view;
use crate::commands::walk::answer_walk;
use crate::numbers::RunNumbers;
use crate::status::Status;
use crate::texts::line;
use ol_io::{Gate, Sink, Source, Written, write_all};
use ol_limits::{Fuel, Heads, NoMemory, Workers};
use ol_wire::Words;
use ol_words::{Job, UsageFault, job};
use std::alloc::Global;
use std::sync::Wait;
use std::thread::Threads;

/// How a call of `ol` ended.
///
/// - `status`: whether the job was done, and why not.
/// - `closed`: the closed words of the table on which the workers rewrote. They are present exactly
///   if the job was `run`, `trace` or `gen --run` and `status` is `Done` or `Spent`.
#[derive(Drop)]
pub struct Outcome {
    pub status: Status,
    pub closed: Option<Words>,
}

/// Does what the words ask for and writes a text to the sink. The words are a command line, the
/// program's name first; docs/use/COMMANDS.md describes the commands, their options and texts.
///
/// - `run NAME`: N workers rewrite the net of the term in the file NAME, `-` being standard input,
///   by at most F interactions. The text is the term that is read back, of which the first Q
///   subterms are asked for, how often each rule was applied, and `stuck 0`. `demand NAME` works in
///   one thread, and rewrites only the active pairs that paths of the readback meet. `walk NAME`
///   reads the untouched net back.
/// - `view NAME`: the net after K interactions. `trace NAME`: the trace of a run.
///   `check TERM JOURNAL`: whether a text is a trace of the term. `net NAME`: what is left of a net
///   that is given as a text, or with `--from-term` the net of a term.
/// - `certify NAME`: whether leftmost beta reduction leads to what `run` reads back. `equal A B`:
///   whether `run` reads back equal terms from A and B. `gen K`: a term that is doubled K times, or
///   with `--run` what `run` prints of it.
///
/// In a printed term `...` is a part that wasn't asked for or whose path used up its crossings, and
/// `?` a part without a head. Rules and readback are those of Gonthier, Abadi and Lévy (The
/// Geometry of Optimal Lambda Reduction, 1992). `Status` describes the refusals.
///
/// The workers are threads that share the net. Each passes `gate` before its first turn and after
/// each turn; if fewer threads can be had, they take turns. `ol` may wait, for these threads and
/// for the gate: what is promised here holds if it returns. The number of the workers and their
/// scheduling decide on nothing, except for the run that `trace` prints and for what `net` prints
/// after nine lines (`twice`).
///
/// The clause `ends` contains everything about the status and the text. The theorem `ends_say`
/// derives the facts of `SaysWhenDone` and `SaysOfAnswer` from it: among others, that a job that
/// can be done is done, that `run` with enough fuel is done exactly if the term is strongly
/// normalising, and what a printed term says of the source. The clauses from `plain` on are four of
/// these facts.
pub fn ol<R: Threads + Wait + Sync, S: Source, W: Sink, G: Gate + Sync>(
    rt: &R,
    alloc: Global,
    words: &Vec<String>,
    src: &mut S,
    out: &mut W,
    gate: &G,
) -> Outcome
    // The source knows the names of the job's files.
    requires known { IsKnownTo (S.knows src.old) words.now.items }

    // It begins as many names at most as the job has files. The source knows the names that it knew
    // and has the bytes that it had, so `ol` can be called again.
    ensures source { ReadsAtMost S.Source (files_of words.now.items) src.old src.new }

    // The clauses below hold for any files that this call may have read: those whose bytes the
    // source has, and those that consist of the readings (`handed`).
    //
    // Everything that is written: with `NoMemory`, whatever its cause, nothing. Each other status
    // has its cause, and its text, of fewer than 2^64 bytes, is appended whole, or a prefix of it
    // where the sink failed.
    ensures ends { OfFilesRead S.Source src.old src.new (λ files.
        Ends (HasCause words.now.items (seen_of S.Source files src.old src.new)) result.status
        (W.faults out.old) (W.faults out.new) (W.taken out.old) (W.taken out.new)) }

    // Where `run`, `trace` or `gen --run` was done or its fuel was spent, the closed words are
    // those of a table that was made from the net of the job's term, with the job's fuel and as
    // many seats as the job has workers, which for `gen --run` are those of `run` without options,
    // and the text follows from their trace. In every other case there are no closed words.
    ensures closed { OfFilesRead S.Source src.old src.new (λ files.
        Hands words.now.items (seen_of S.Source files src.old src.new)
        result.status result.closed (W.taken out.old) (W.taken out.new)) }

    // If the first of two files is refused for the bytes that were read, no second name is begun.
    // Nor is a second name begun if the end of the first file wasn't seen, as after a read fault:
    // the file may then exceed the limit, and such a file is refused.
    ensures first_alone { OfFilesRead S.Source src.old src.new (λ files.
        (job : Job) → AskFor words.now.items job
        → RefusesFirst (files 0) job → S.begins src.new ≤ S.begins src.old + 1) }

    // What follows from `ends` for words without options, where nothing fails and the status is
    // `Done`.
    //
    // After `ol run NAME`, `ol demand NAME` or `ol walk NAME`: where the first line that is written
    // is a text of a term, that term is the normal form of the term in the file; and where `run` or
    // `demand` has put a `?` in it, the latter has none.
    ensures plain { WhereNoneFailed S.Source W.Sink src.old src.new out.old out.new
        (λ files old new. result.status ≡ Status.Done
        → PlainLineSays words.now.items files old new) }

    // After `ol demand NAME` that line is a text of the normal form of the term in the file, where
    // there is one and variables stand in at most 4,096 places of it.
    ensures plain_demand { WhereNoneFailed S.Source W.Sink src.old src.new out.old out.new
        (λ files old new. result.status ≡ Status.Done
        → PlainDemandSays (λ source. FirstLine (IsFoundWithin 4096 source))
        words.now.items files old new) }

    // And no reduction of the term in the file to a normal form, of whatever redexes in whatever
    // order, has fewer beta steps than the number after `beta`. Nor has a reduction by family
    // steps, which contract any redexes of one family, by Lévy's labels, at once; and if the line
    // is a text of a term, some reduction by family steps has exactly as many.
    ensures plain_fewest { WhereNoneFailed S.Source W.Sink src.old src.new out.old out.new
        (λ files old new. result.status ≡ Status.Done
        → PlainDemandSays (λ source. CountsSay (AreFewest source))
        words.now.items files old new) }

    // After `ol equal A B` the line is `equal` only where the terms in the two files are
    // convertible, and begins with `different` only where they aren't. Beta reduction alone counts,
    // and free names are the same where their bytes are.
    ensures plain_equal { WhereNoneFailed S.Source W.Sink src.old src.new out.old out.new
        (λ files old new. result.status ≡ Status.Done
        → PlainEqualSays words.now.items files old new) }
{
    let made = answer_words(rt, alloc, words, src, gate);
    write(out, made)
}

// Writes an answer, if there is one, and returns how that ended.
fn write<W: Sink>(out: &mut W, made: Result<Answer, NoMemory>) -> Outcome
    ensures told { Writes made result
        (W.faults out.old) (W.faults out.new) (W.taken out.old) (W.taken out.new) }
{
    match made {
        Err(NoMemory) => Outcome {
            status: Status::NoMemory,
            closed: None,
        },
        Ok(
            Answer {
                text,
                status,
                closed,
            },
        ) => match write_all(out, &text) {
            Written::All => Outcome { status, closed },
            Written::Fault { .. } => {
                let status = Status::WriteFault;
                Outcome {
                    status,
                    closed: None,
                }
            }
        },
    }
}

// The answer to words: the usage, or the answer to their job.
fn answer_words<R: Threads + Wait + Sync, S: Source, G: Gate + Sync>(
    rt: &R,
    alloc: Global,
    words: &Vec<String>,
    src: &mut S,
    gate: &G,
) -> Result<Answer, NoMemory>
    requires known { IsKnownTo (S.knows src.old) words.now.items }
    ensures comes { OfFilesRead S.Source src.old src.new (λ files.
        IfOk result (ComesOfWords words.now.items
        (seen_of S.Source files src.old src.new))) }
    ensures first_alone { OfFilesRead S.Source src.old src.new (λ files.
        (job : Job) → AskFor words.now.items job
        → RefusesFirst (files 0) job → S.begins src.new ≤ S.begins src.old + 1) }
    ensures source { ReadsAtMost S.Source (files_of words.now.items) src.old src.new }
{
    match job(alloc, words) {
        Err(UsageFault::NoMemory) => Err(NoMemory),
        Err(UsageFault::Refused) => {
            let text = line(
                alloc,
                "usage: ol run|walk|view|trace|check|gen|demand|certify|net|equal [options] NAME",
            )?;
            Ok(Answer::text_alone(text, Status::Usage))
        }
        Ok(job) => answer_job(rt, alloc, &job, src, gate),
    }
}

// The answer to a job: an arm for each command.
fn answer_job<R: Threads + Wait + Sync, S: Source, G: Gate + Sync>(
    rt: &R,
    alloc: Global,
    job: &Job,
    src: &mut S,
    gate: &G,
) -> Result<Answer, NoMemory>
    requires known { EachName job.now (λ name. S.knows src.old name ≡ true) }
    requires within { IsWithinLimits job.now }
    ensures comes { OfFilesRead S.Source src.old src.new (λ files.
        IfOk result (ComesOf job.now
        (seen_of S.Source files src.old src.new))) }
    ensures first_alone { OfFilesRead S.Source src.old src.new (λ files.
        RefusesFirst (files 0) job.now → S.begins src.new ≤ S.begins src.old + 1) }
    ensures source { ReadsAtMost S.Source (count_of_files job.now) src.old src.new }
{
    match job {
        Job::Run {
            translation,
            workers,
            fuel,
            heads,
            name,
        } => {
            let numbers = RunNumbers::of(*translation, *workers, *fuel, *heads);
            answer_run(rt, alloc, numbers, name.as_str(), src, gate)
        }
        Job::Walk {
            translation,
            edges,
            heads,
            name,
        } => answer_walk(
            alloc,
            *translation,
            *edges,
            Heads::of(*heads),
            name.as_str(),
            src,
        ),
        Job::View {
            translation,
            after,
            name,
        } => answer_view(alloc, *translation, Fuel::of(*after), name.as_str(), src),
        Job::Trace {
            translation,
            workers,
            fuel,
            name,
        } => answer_trace(
            rt,
            alloc,
            *translation,
            Workers::of(*workers),
            Fuel::of(*fuel),
            name.as_str(),
            src,
            gate,
        ),
        Job::Check {
            translation,
            term,
            journal,
        } => answer_check(alloc, *translation, term.as_str(), journal.as_str(), src),
        Job::Gen {
            translation,
            run,
            k,
        } => answer_gen(rt, alloc, *translation, *run, *k, gate),
        Job::Demand {
            translation,
            fuel,
            heads,
            name,
        } => answer_demand(
            alloc,
            *translation,
            Fuel::of(*fuel),
            Heads::of(*heads),
            name.as_str(),
            src,
        ),
        Job::Certify {
            translation,
            steps,
            workers,
            fuel,
            heads,
            name,
        } => {
            let numbers = RunNumbers::of(*translation, *workers, *fuel, *heads);
            answer_certify(rt, alloc, numbers, *steps, name.as_str(), src, gate)
        }
        Job::Net {
            translation,
            from_term,
            workers,
            fuel,
            name,
        } => {
            if *from_term {
                return answer_net_of_term(alloc, *translation, name.as_str(), src);
            }
            answer_net(
                rt,
                alloc,
                Workers::of(*workers),
                Fuel::of(*fuel),
                name.as_str(),
                src,
                gate,
            )
        }
        Job::Equal {
            translation,
            workers,
            fuel,
            heads,
            first,
            second,
        } => {
            let numbers = RunNumbers::of(*translation, *workers, *fuel, *heads);
            let (first, second) = (first.as_str(), second.as_str());
            answer_equal(rt, alloc, numbers, first, second, src, gate)
        }
    }
}
