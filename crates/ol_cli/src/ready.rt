//! Reads and translates a term file: from its name, or its bytes, to the net of its term.
ghost use Rattle.std.specs.Prelude.{◌≡◌, List, ℕ, ◌≤◌, ◌∷◌, length, true, IfOk};
ghost use Rattle.ol_io.specs.Readings.{Reading};
ghost use Rattle.ol_term.specs.declared.translations.Translation.{Translation};
ghost use Rattle.ol_cli.specs.Called.{ReadsAtMost, OfFilesRead, seen_of};
ghost use Rattle.ol_cli.specs.Ready.{ComesOfTerm, IsMadeReady, IsNetReady, Refuses};
ghost use Rattle.ol_limits.specs.Limits.{most_term_bytes};

use crate::answer::Answer;
use crate::files::{File, FileKind, read_file};
use crate::status::Status;
use crate::texts::{count_line, syntax_line};
use ol_io::Source;
use ol_limits::{MOST_DEPTH, MOST_NODES, NoMemory};
use ol_net::Net;
use ol_parse::{ParseFault, parse};
use ol_term::{TermFile, Translation};
use ol_translate::{TransFault, translate};
use std::alloc::Global;

/// A term file before any job is done on it: the net of its term, or its refusal.
#[derive(Drop)]
pub enum Ready {
    /// The net of the file's term, and the term with its free names.
    Net { net: Net, file: TermFile },
    /// The answer that refuses the file.
    Refused(Answer),
}

/// Reads the term file of this name and translates its term.
pub fn read_term<S: Source>(
    alloc: Global,
    translation: Translation,
    name: &str,
    src: &mut S,
) -> Result<Ready, NoMemory>
    requires known { S.knows src.old name.now ≡ true }
    ensures comes { OfFilesRead S.Source src.old src.new (λ files.
        IfOk result (ComesOfTerm translation
        (seen_of S.Source files src.old src.new) name.now)) }
    ensures net { IfOk result (IsNetReady translation) }
    ensures one { (r : Reading) × (S.readings src.new ≡ r ∷ S.readings src.old) }
    ensures source { ReadsAtMost S.Source 1 src.old src.new }
{
    let file = read_file(alloc, FileKind::Term, name, src)?;
    match file {
        File::Refused(answer) => Ok(Ready::Refused(answer)),
        File::Bytes(bytes) => {
            let ready = make_ready(alloc, &bytes, translation)?;
            Ok(ready)
        }
    }
}

/// Parses the bytes of a term file, which are within the limit, and translates its term. The file
/// is refused where its bytes aren't in the grammar, otherwise where its term is too deep, and
/// otherwise where the net has too many nodes.
pub fn make_ready(alloc: Global, bytes: &[u8], translation: Translation) -> Result<Ready, NoMemory>
    requires short { length bytes.now ≤ most_term_bytes }
    ensures ready { IfOk result (IsMadeReady translation bytes.now) }
{
    match parse(alloc, bytes) {
        Ok(file) => match translate(alloc, &file, translation) {
            Ok(net) => Ok(Ready::Net { net, file }),
            Err(fault) => match fault {
                TransFault::NoMemory => Err(NoMemory),
                TransFault::TooMany => {
                    let text = count_line(alloc, "limit nodes", MOST_NODES)?;
                    let status = Status::Limit;
                    Ok(refused(text, status))
                }
            },
        },
        Err(fault) => match fault {
            ParseFault::NoMemory => Err(NoMemory),
            ParseFault::Syntax { at } => {
                let text = syntax_line(alloc, at)?;
                let status = Status::Syntax;
                Ok(refused(text, status))
            }
            ParseFault::Depth { .. } => {
                let text = count_line(alloc, "limit depth", MOST_DEPTH)?;
                let status = Status::Limit;
                Ok(refused(text, status))
            }
        },
    }
}

// The refusal of a file, without closed words.
fn refused(text: Vec<u8>, status: Status) -> Ready
    ensures { (translation : Translation) (bytes : List ℕ) →
        Refuses translation bytes status text.items → IsMadeReady translation bytes result }
{
    Ready::Refused(Answer::text_alone(text, status))
}
