//! All that is known of a call of `ol`, as clauses: what doesn't stand in the contract of `ol` follows from its clause `ends`.
ghost use Rattle.std.specs.Prelude.{List, ◌++◌, ℕ, ◌≢◌, ◌≤◌, ◌+◌, ◌≡◌, ◌<◌, ◌⊎◌, true};
ghost use Rattle.ol_io.specs.Outside.{Rose, Appended};
ghost use Rattle.ol_io.specs.Readings.{Reading, handed};
ghost use Rattle.ol_words.specs.declared.jobs.Job.{Job};
ghost use Rattle.ol_cli.specs.Answers.{Ends, HasCause, IsAnswer, RefusesFirst};
ghost use Rattle.ol_cli.specs.Called.{ReadsAtMost, OfFilesRead, IfNoneFailed, WhereNoneFailed, seen_of};
ghost use Rattle.ol_cli.specs.Says.{SaysWhenDone, SaysOfAnswer};
ghost use Rattle.ol_cli.specs.Handed.{Hands};
ghost use Rattle.ol_cli.specs.Jobs.{AskFor, AskForNothing, IsKnownTo, files_of};

use ol_cli::{Outcome, Status, ol};
use ol_io::{Gate, Sink, Source};
use std::alloc::Global;
use std::sync::Wait;
use std::thread::Threads;

/// Calls `ol`.
pub fn ol_with_all_clauses<R: Threads + Wait + Sync, S: Source, W: Sink, G: Gate + Sync>(
    rt: &R,
    alloc: Global,
    words: &Vec<String>,
    src: &mut S,
    out: &mut W,
    gate: &G,
) -> Outcome
    // The source knows the names of the job's files.
    requires known { IsKnownTo (S.knows src.old) words.now.items }

    // It begins as many names at most as the job has files. The source knows the names that it knew
    // and has the bytes that it had, so `ol` can be called again.
    ensures source { ReadsAtMost S.Source (files_of words.now.items) src.old src.new }

    // What is said of files below holds of any files that the readings of this call are of: of
    // those whose bytes the source tells, and of those that the readings make (`handed`).
    //
    // Where nothing fails and the status is `Done`, all that `SaysWhenDone` lists holds of what was
    // written: `plain` and three more in the words of terms alone, then the same of all words.
    ensures done_says { WhereNoneFailed S.Source W.Sink src.old src.new out.old out.new
        (λ files old new. result.status ≡ Status.Done → SaysWhenDone words.now.items files old new) }

    // Where nothing fails, whatever the status, unless no memory was found: what was written is the
    // answer, a job that can be done is done, `run` with enough fuel exactly if the term is strongly
    // normalising, and each complete run tells the same or is longer than the fuel (`exact`,
    // `completeness`, `termination`, `every_run`).
    ensures answer_says { WhereNoneFailed S.Source W.Sink src.old src.new out.old out.new
        (λ files. SaysOfAnswer words.now.items files result.status) }

    // The answer is that to the bytes that were handed over, whatever any file holds: some readings
    // were made, and where nothing fails, the status and the text are those of the answer to them.
    ensures handed { (rs : List Reading) × (S.readings src.new ≡ rs ++ S.readings src.old)
        × IfNoneFailed S.Source W.Sink src.old src.new out.old out.new
        (result.status ≢ Status.NoMemory
        → (text : List ℕ) × IsAnswer words.now.items (handed rs) result.status text
        × Appended (W.taken out.old) text (W.taken out.new)) }

    // With `NoMemory`, whatever its cause, nothing is taken. Each other status has its cause, and its
    // text is appended whole, or a prefix of it where the sink failed.
    ensures ends { OfFilesRead S.Source src.old src.new (λ files.
        Ends (HasCause words.now.items (seen_of S.Source files src.old src.new)) result.status
        (W.faults out.old) (W.faults out.new) (W.taken out.old) (W.taken out.new)) }

    // Where `run`, `trace` or `gen --run` was done or its fuel was spent, the closed words are
    // those of a table that was made from the net of the job's term, with the job's fuel and as
    // many seats as the job has workers, which for `gen --run` are those of `run` without options,
    // and the text is what their journal tells. In every other case there are none.
    ensures closed { OfFilesRead S.Source src.old src.new (λ files.
        Hands words.now.items (seen_of S.Source files src.old src.new)
        result.status result.closed (W.taken out.old) (W.taken out.new)) }

    // A fault that is told has risen, and one that has risen is told. A count can't rise beyond
    // 2^64 - 1, its last value. If the sink's stood there before the call, `Rose` holds of it
    // whatever came, so `read_told` says nothing. It says nothing either if the source's own stood
    // there, nor does `write_told` if the sink's did.
    ensures read { result.status ≡ Status.ReadFault
        → Rose (S.faults src.old) (S.faults src.new) }
    ensures write { result.status ≡ Status.WriteFault
        → Rose (W.faults out.old) (W.faults out.new) }
    ensures write_told { W.faults out.old < W.faults out.new
        → result.status ≡ Status.WriteFault }
    ensures read_told { S.faults src.old < S.faults src.new
        → ¬ Rose (W.faults out.old) (W.faults out.new)
        → (result.status ≡ Status.ReadFault) ⊎ (result.status ≡ Status.NoMemory) }

    // The words alone decide on `Usage`.
    ensures usage { result.status ≡ Status.Usage → AskForNothing words.now.items }
    ensures usage_told { AskForNothing words.now.items → (result.status ≡ Status.Usage)
        ⊎ ((result.status ≡ Status.WriteFault) ⊎ (result.status ≡ Status.NoMemory)) }

    // `Done` of a job with a file comes after the end of the input was seen.
    ensures done { 0 < files_of words.now.items → result.status ≡ Status.Done
        → S.ended src.new ≡ true }

    // If the first of two files is refused for its bytes, as they were read, no second name is
    // begun. Nor is one if its end wasn't seen, as after a read fault: it may then go on beyond the
    // limit, and such a file is refused.
    ensures first_alone { OfFilesRead S.Source src.old src.new (λ files.
        (job : Job) → AskFor words.now.items job
        → RefusesFirst (files 0) job → S.begins src.new ≤ S.begins src.old + 1) }
{
    ol(rt, alloc, words, src, out, gate)
}
