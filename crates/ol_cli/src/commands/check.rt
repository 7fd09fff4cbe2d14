//! The command `check`: the text of a trace against a term.
ghost use Rattle.std.specs.Prelude.{◌≡◌, ◌≤◌, ◌+◌, true, IfOk, None};
ghost use Rattle.ol_wire.specs.Sizes.{IsSmallNet};
ghost use Rattle.ol_words.specs.declared.jobs.Job.TheVariants as jobs;
ghost use Rattle.ol_cli.specs.Called.{ReadsAtMost, OfFilesRead, seen_of};
ghost use Rattle.ol_cli.specs.Answers.{RefusesFirst};
ghost use Rattle.ol_cli.specs.Cases.{CauseOf};
ghost use Rattle.ol_cli.specs.Inside.{ComesOf};
ghost use Rattle.ol_cli.specs.Check.{JournalAnswer};
ghost use Rattle.ol_limits.specs.Limits.{most_journal_bytes};
ghost use Rattle.ol_cli.specs.RefusalTexts.{journal_text};
ghost use Rattle.ol_cli.specs.Ready.{HoldsOfTerms};

use crate::answer::Answer;
use crate::files::{File, FileKind, read_file};
use crate::ready::{Ready, read_term};
use crate::status::Status;
use crate::texts::found_line;
use ol_io::Source;
use ol_limits::NoMemory;
use ol_net::Net;
use ol_term::Translation;
use ol_view::check;
use std::alloc::Global;

/// The answer of `check` to the term file and the trace file of these names. The second file is
/// begun where the first isn't refused.
pub fn answer_check<S: Source>(
    alloc: Global,
    translation: Translation,
    term: &str,
    journal: &str,
    src: &mut S,
) -> Result<Answer, NoMemory>
    requires term { S.knows src.old term.now ≡ true }
    requires journal { S.knows src.old journal.now ≡ true }
    ensures comes { OfFilesRead S.Source src.old src.new (λ files.
        IfOk result (ComesOf (jobs.Check translation term.now journal.now)
        (seen_of S.Source files src.old src.new))) }
    ensures first_alone { OfFilesRead S.Source src.old src.new (λ files.
        RefusesFirst (files 0) (jobs.Check translation term.now journal.now)
        → S.begins src.new ≤ S.begins src.old + 1) }
    ensures source { ReadsAtMost S.Source 2 src.old src.new }
{
    let ready = read_term(alloc, translation, term, src)?;
    match ready {
        Ready::Refused(answer) => Ok(answer),
        Ready::Net { net, file: _ } => {
            let answer = answer_journal(alloc, &net, journal, src)?;
            Ok(answer)
        }
    }
}

// The answer of `check` to a trace file, against a net. It holds for each term that has this net.
fn answer_journal<S: Source>(
    alloc: Global,
    net: &Net,
    name: &str,
    src: &mut S,
) -> Result<Answer, NoMemory>
    requires known { S.knows src.old name.now ≡ true }
    requires small { IsSmallNet net.now }
    ensures caused { OfFilesRead S.Source src.old src.new (λ files.
        IfOk result (λ a. HoldsOfTerms net.now (λ translation t names.
        CauseOf (seen_of S.Source files src.old src.new)
        most_journal_bytes journal_text name.now (JournalAnswer translation t names)
        a.status a.text.items))) }
    ensures closed { IfOk result (λ a. a.closed ≡ None) }
    ensures source { ReadsAtMost S.Source 1 src.old src.new }
{
    let file = read_file(alloc, FileKind::Journal, name, src)?;
    match file {
        File::Refused(answer) => Ok(answer),
        File::Bytes(bytes) => {
            let found = check(alloc, net, &bytes)?;
            let text = found_line(alloc, found)?;
            Ok(Answer::text_alone(text, Status::Done))
        }
    }
}
