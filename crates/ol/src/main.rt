//! The program: `ol` over files, standard input and standard output.
#![tactic(auto)]

ghost use Rattle.std.specs.Prelude.{◌≡◌, ◌≤◌, ◌⊎◌, ◌∷◌, ℕ, true, List, [], Some, codes};
ghost use Rattle.ol_io.specs.Readings.{AreOfSince, reading};
ghost use Rattle.ol_parse.specs.Grammar.{Named};
ghost use Rattle.ol_parse.specs.Texts.{IsText};
ghost use Rattle.ol_law_confluence.specs.NormalForms.{BeginsReduced};
ghost use Rattle.ol_cli.specs.Jobs.{Files, files_of};
ghost use Rattle.ol_cli.specs.NormalForms.{ArePlain, AreFewest, CountsSay, FirstLine, IsFoundWithin};
ghost use Rattle.ol_cli.specs.NormalForms.{PlainDemandSays, PlainEqualSays, PlainLineSays};
ghost use Rattle.ol_cli.specs.Answers.{Ends, HasCause};
ghost use Rattle.ol_cli.specs.Called.{first_seen};

use ol_cli::{Status, ol};
use ol_io::{OpenGate, Sink, Source, StdSink, StdSource};
use std::alloc::Global;
use std::io::ErrorKind;
use std::process::ExitCode;
use std::rt::Files;
use std::sync::Wait;
use std::thread::Threads;

/// How the call ended, and the adapters, which record what passed through them.
#[derive(Drop)]
struct Passed<'a, R: Files + Input + Print> {
    status: Status,
    src: StdSource<'a, R>,
    out: StdSink<'a, R>,
}

/// `ol` over files, standard input and standard output. The theorem `ends_say` of `ol_cli` derives
/// all other facts about the status and the output from `ends` and `told`.
fn run<'a, R: Files + Input + Print + Threads + Wait + Sync>(
    rt: &'a R,
    alloc: Global,
    words: &Vec<String>,
) -> Passed<'a, R>
    // In short: after `ol run NAME`, `ol demand NAME` or `ol walk NAME` with the status `Done`,
    // where exactly these bytes of NAME were read, to their end, and they are a text of a term:
    // standard output accepted a line first, and where this line is a text of a term, that term is
    // the normal form of the term that was read.
    ensures in_short { result.status ≡ Status.Done
        → (verb name bytes : List ℕ) → ArePlain words.now.items verb name
        → (verb ≡ codes "run") ⊎ ((verb ≡ codes "demand") ⊎ (verb ≡ codes "walk"))
        → ⟦<StdSource<'a, R> as Source>⟧.readings result.src ≡ reading name bytes true ∷ []
        → (taken : List ℕ) → ⟦<StdSink<'a, R> as Sink>⟧.taken result.out ≡ Some taken
        → (source : Named) → IsText bytes source → BeginsReduced source taken }

    // There are files that its readings agree with: a reading has all bytes of the file of its name
    // where its end was seen, and otherwise the first bytes of that file.
    ensures told { (files : Files)
        × AreOfSince files [] (⟦<StdSource<'a, R> as Source>⟧.readings result.src) }

    // Everything that is written, for any such files: with `NoMemory`, whatever its cause, standard
    // output accepted nothing. Each other status has its cause, and standard output accepted its
    // text, of fewer than 2^64 bytes, or a prefix of the text where standard output failed.
    ensures ends { (files : Files)
        → AreOfSince files [] (⟦<StdSource<'a, R> as Source>⟧.readings result.src)
        → Ends (HasCause words.now.items
        (first_seen ⟦<StdSource<'a, R> as Source>⟧ files result.src)) result.status
        0 (⟦<StdSink<'a, R> as Sink>⟧.faults result.out)
        (Some []) (⟦<StdSink<'a, R> as Sink>⟧.taken result.out) }

    // At most as many names are begun as the job has files.
    ensures begins { ⟦<StdSource<'a, R> as Source>⟧.begins result.src ≤ files_of words.now.items }

    // What follows from `ends` for words without options, where the status is `Done`.
    //
    // After `ol run NAME`, `ol demand NAME` or `ol walk NAME`: where the first line that is written
    // is a text of a term, that term is the normal form of the term in the file; and where `run` or
    // `demand` has put a `?` in it, the latter has none.
    ensures plain { result.status ≡ Status.Done
        → (files : Files) → AreOfSince files [] (⟦<StdSource<'a, R> as Source>⟧.readings result.src)
        → PlainLineSays words.now.items files
        (Some []) (⟦<StdSink<'a, R> as Sink>⟧.taken result.out) }

    // After `ol demand NAME` that line is a text of the normal form of the term in the file, where
    // there is one and variables stand in at most 4,096 places of it.
    ensures plain_demand { result.status ≡ Status.Done
        → (files : Files) → AreOfSince files [] (⟦<StdSource<'a, R> as Source>⟧.readings result.src)
        → PlainDemandSays (λ source. FirstLine (IsFoundWithin 4096 source)) words.now.items files
        (Some []) (⟦<StdSink<'a, R> as Sink>⟧.taken result.out) }

    // And no reduction of the term in the file to a normal form, of whatever redexes in whatever
    // order, has fewer beta steps than the number after `beta`. Nor has a reduction by family
    // steps, which contract any redexes of one family, by Lévy's labels, at once; and if the line
    // is a text of a term, some reduction by family steps has exactly as many.
    ensures plain_fewest { result.status ≡ Status.Done
        → (files : Files) → AreOfSince files [] (⟦<StdSource<'a, R> as Source>⟧.readings result.src)
        → PlainDemandSays (λ source. CountsSay (AreFewest source)) words.now.items files
        (Some []) (⟦<StdSink<'a, R> as Sink>⟧.taken result.out) }

    // After `ol equal A B` the line is `equal` only where the terms in the two files are
    // convertible, and begins with `different` only where they aren't. Beta reduction alone counts,
    // and free names are the same where their bytes are.
    ensures plain_equal { result.status ≡ Status.Done
        → (files : Files) → AreOfSince files [] (⟦<StdSource<'a, R> as Source>⟧.readings result.src)
        → PlainEqualSays words.now.items files
        (Some []) (⟦<StdSink<'a, R> as Sink>⟧.taken result.out) }
{
    let mut src = StdSource::new(rt);
    let mut out = StdSink::new(rt);
    let outcome = ol(rt, alloc, words, &mut src, &mut out, &OpenGate);
    Passed {
        status: outcome.status,
        src,
        out,
    }
}

fn main(rt: HostRuntime) -> ExitCode {
    let words = match std::env::args(&rt) {
        Ok(args) => args.collect(rt.alloc()).ok(),
        Err(error) => match error.kind() {
            ErrorKind::OutOfMemory => None,
            // Words that aren't UTF-8 ask for no job, as no words do.
            _ => Some(Vec::new(rt.alloc())),
        },
    };
    let Some(words) = words else {
        return ExitCode::from(Status::NoMemory.number());
    };
    ExitCode::from(run(&rt, rt.alloc(), &words).status.number())
}
