//! Reads a file to its end, under the limit of its kind, or answers why the file is refused.
ghost use Rattle.std.specs.Prelude.{◌≡◌, ◌∷◌, true, IfOk};
ghost use Rattle.ol_io.specs.Readings.{Reading};
ghost use Rattle.ol_cli.specs.Called.{ReadsAtMost, OfFilesRead, seen_of};
ghost use Rattle.ol_cli.specs.Files.{most_bytes, limit_text, ComesOfFile, IsShort};

use crate::answer::{Answer, refusal};
use crate::status::Status;
use crate::texts::count_line;
use ol_io::{ReadAll, Source, read_all};
use ol_limits::{MOST_JOURNAL_BYTES, MOST_NET_BYTES, MOST_TERM_BYTES, NoMemory};
use std::alloc::Global;

/// What a file is read for.
#[derive(Clone, Copy)]
pub enum FileKind {
    /// The text of a term.
    Term,
    /// The text of a trace.
    Journal,
    /// The text of a net.
    Net,
}

impl FileKind {
    // How many bytes such a file may have.
    fn most(self) -> u32
        ensures { result ≡ most_bytes self }
    {
        match self {
            FileKind::Term => MOST_TERM_BYTES,
            FileKind::Journal => MOST_JOURNAL_BYTES,
            FileKind::Net => MOST_NET_BYTES,
        }
    }

    // The line that refuses a file with more bytes.
    fn limit_line(self, alloc: Global) -> Result<Vec<u8>, NoMemory>
        ensures { IfOk result (λ text. text.items ≡ limit_text self) }
    {
        match self {
            FileKind::Term => count_line(alloc, "limit bytes", MOST_TERM_BYTES),
            FileKind::Journal => count_line(alloc, "limit journal", MOST_JOURNAL_BYTES),
            FileKind::Net => count_line(alloc, "limit net", MOST_NET_BYTES),
        }
    }
}

/// A file that was read, or its refusal.
#[derive(Drop)]
pub enum File {
    /// All its bytes, no more than its kind may have.
    Bytes(Vec<u8>),
    /// The answer that refuses it.
    Refused(Answer),
}

/// Reads the file of this name to its end. The file is refused where the source fails, and
/// otherwise where it has more bytes than its kind may have.
pub fn read_file<S: Source>(
    alloc: Global,
    kind: FileKind,
    name: &str,
    src: &mut S,
) -> Result<File, NoMemory>
    requires known { S.knows src.old name.now ≡ true }
    ensures comes { OfFilesRead S.Source src.old src.new (λ files.
        IfOk result (ComesOfFile kind
        (seen_of S.Source files src.old src.new) name.now)) }
    ensures short { IfOk result (IsShort kind) }
    ensures one { (r : Reading) × (S.readings src.new ≡ r ∷ S.readings src.old) }
    ensures source { ReadsAtMost S.Source 1 src.old src.new }
{
    match read_all(alloc, src, name, kind.most() as usize) {
        Err(ReadAll::NoMemory) => Err(NoMemory),
        Err(ReadAll::Fault) => {
            let answer = refusal(alloc, "read fault", Status::ReadFault)?;
            Ok(File::Refused(answer))
        }
        Err(ReadAll::TooLong) => {
            let text = kind.limit_line(alloc)?;
            Ok(File::Refused(Answer::text_alone(text, Status::Limit)))
        }
        Ok(bytes) => Ok(File::Bytes(bytes)),
    }
}
