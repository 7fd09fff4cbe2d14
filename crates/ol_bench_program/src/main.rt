//! The program `ol-bench` over files, standard input, standard output and standard error.
//!
//! - `command`: the command line as clap is told of it, and what its words ask
//! - `verbs`: the commands: the arguments of each, its help, and what it asks
//! - `arguments`: how an argument is written down as a row
//! - `words`: what clap found of the arguments, as the types of what is asked
#![tactic(auto)]

ghost use Rattle.std.specs.Prelude.{ℕ, List, [], Option};
ghost use Rattle.ol_io.specs.Readings.{AreOfSince};
ghost use Rattle.ol_bench.specs.Commands.{IsCause, IsWithinBounds, ReadsNoFurther};
ghost use Rattle.ol_bench.specs.Writing.{WritesAnswer, first_change};

mod arguments;
mod command;
mod verbs;
mod words;

use clap::Error;
use command::asked_by;
use ol_bench::{Asked, Status, bench};
use ol_io::{Sink, Source, StdSink, StdSource, WriterSink};
use std::alloc::Global;
use std::io::{ErrorKind, Write};
use std::process::ExitCode;
use std::rt::Files;

/// The exit status of words that ask for nothing.
const WRONG_WORDS: u8 = 2;

/// The exit status where memory ran out.
const NO_MEMORY: u8 = 6;

/// How the call ended, and the adapters, which tell what passed through them.
#[derive(Drop)]
struct Passed<'a, R: Files + Input + Print, E: Write + Drop> {
    status: Status,
    src: StdSource<'a, R>,
    out: StdSink<'a, R>,
    errors: WriterSink<E>,
}

/// `bench` over files, standard input, standard output and a writer of errors.
fn run<'a, R: Files + Input + Print, E: Write + Drop>(
    rt: &'a R,
    alloc: Global,
    asked: &Asked,
    errors: E,
) -> Passed<'a, R, E>
    requires bounds { IsWithinBounds asked.now }

    // The text is the answer to the files, or the line that refuses them. Standard output or the
    // writer of errors, to which the text goes, accepted the whole text, and the status says how the
    // command ended; or a prefix of the text, and failed. The other accepted nothing, and neither
    // accepted anything where memory ran out. This holds of any files that the readings of this call
    // are of.
    ensures answered { (files : ℕ → List ℕ → Option (List ℕ))
        → AreOfSince files [] (⟦<StdSource<'a, R> as Source>⟧.readings result.src)
        → WritesAnswer
        (IsCause asked.now files 0 (⟦<StdSource<'a, R> as Source>⟧.faults result.src))
        (first_change (⟦<StdSink<'a, R> as Sink>⟧.faults result.out)
        (⟦<StdSink<'a, R> as Sink>⟧.taken result.out))
        (first_change (⟦<WriterSink<E> as Sink>⟧.faults result.errors)
        (⟦<WriterSink<E> as Sink>⟧.taken result.errors))
        result.status }

    // A trace that `check` judges is read no further than it has to be.
    ensures no_further { ReadsNoFurther asked.now []
        (⟦<StdSource<'a, R> as Source>⟧.readings result.src) }

    // There are files that its readings are of.
    ensures told { (files : ℕ → List ℕ → Option (List ℕ))
        × AreOfSince files [] (⟦<StdSource<'a, R> as Source>⟧.readings result.src) }
{
    let mut src = StdSource::new(rt);
    let mut out = StdSink::new(rt);
    let mut errors = WriterSink::new(errors);
    let status = bench(alloc, asked, &mut src, &mut out, &mut errors);
    Passed {
        status,
        src,
        out,
        errors,
    }
}

// The exit status of words that clap refuses, or of which help is asked.
fn refused(rt: &HostRuntime, error: &Error) -> u8 {
    let _ = error.print(rt);
    if error.kind() == clap::error::ErrorKind::OutOfMemory {
        NO_MEMORY
    } else if error.use_stderr() {
        WRONG_WORDS
    } else {
        0
    }
}

fn main(rt: HostRuntime) -> ExitCode {
    let words = match std::env::args(&rt) {
        Ok(args) => args.collect(rt.alloc()).ok(),
        Err(error) => match error.kind() {
            ErrorKind::OutOfMemory => None,
            // Words that aren't UTF-8 ask for nothing, as no words do.
            _ => Some(Vec::new(rt.alloc())),
        },
    };
    let Some(words) = words else {
        return ExitCode::from(NO_MEMORY);
    };
    match asked_by(rt.alloc(), &words) {
        Ok(asked) => {
            let passed = run(&rt, rt.alloc(), &asked, rt.stderr());
            ExitCode::from(passed.status.number())
        }
        Err(error) => ExitCode::from(refused(&rt, &error)),
    }
}
