//! Files made ready: from the bytes of a file to a term, or to a net.

ghost use Rattle.std.specs.Prelude.{◌≡◌, ◌≤◌, ◌++◌, length, codes, IfOk};
ghost use Rattle.std.specs.Fmt.{decimal};
ghost use Rattle.ol_subjects.specs.Subjects.{most_bytes, Refuses};
ghost use Rattle.ol_subjects.specs.Readied.{IsTermRead, IsSubjectRead};
ghost use Rattle.ol_limits.specs.Limits.{most_net_bytes, most_term_bytes};

use crate::texts::{put, put_number};
use ol_limits::{MOST_NET_BYTES, MOST_TERM_BYTES, NoMemory};
use ol_net::Net;
use ol_netfile::{NetFault, fault_text, read_net};
use ol_parse::{ParseFault, parse};
use ol_term::{TermFile, Translation};
use ol_translate::{TransFault, translate};
use std::alloc::Global;

/// What stands in a file.
#[derive(Clone, Copy, Debug, PartialEq, Eq)]
pub enum Subject {
    /// A term, which becomes a net by this translation.
    Term(Translation),
    /// A net.
    Net,
}

/// The most bytes that are read of a file with a term or a net.
pub fn most_bytes(subject: Subject) -> usize
    ensures { result ≡ most_bytes subject }
{
    match subject {
        Subject::Term(_) => MOST_TERM_BYTES as usize,
        Subject::Net => MOST_NET_BYTES as usize,
    }
}

/// What comes of a file with a term.
#[derive(Drop)]
pub enum TermRead {
    /// The net of the file's term, and the term with its free names.
    Term { net: Net, file: TermFile },
    /// The line by which the file is refused.
    Refused(Vec<u8>),
}

/// What comes of a file with a term or a net.
#[derive(Drop)]
pub enum NetRead {
    Net(Net),
    /// The line by which the file is refused.
    Refused(Vec<u8>),
}

// A line of these words.
fn line(alloc: Global, words: &[u8]) -> Result<Vec<u8>, NoMemory>
    ensures { IfOk result (λ text. text.items ≡ words.now ++ codes "\n") }
{
    let mut text = Vec::new(alloc);
    put(&mut text, words)?;
    put(&mut text, b"\n")?;
    Ok(text)
}

// The line of a text that isn't in the grammar.
fn syntax_line(alloc: Global, at: usize) -> Result<Vec<u8>, NoMemory>
    ensures { IfOk result (λ text.
        text.items ≡ codes "syntax at byte " ++ decimal at ++ codes "\n") }
{
    let mut text = Vec::new(alloc);
    put(&mut text, b"syntax at byte ")?;
    put_number(alloc, &mut text, at as u64)?;
    put(&mut text, b"\n")?;
    Ok(text)
}

/// The term of a file and its net, or the line by which `ol` refuses the file.
pub fn read_term(
    alloc: Global,
    bytes: &[u8],
    translation: Translation,
) -> Result<TermRead, NoMemory>
    requires short { length bytes.now ≤ most_term_bytes }
    ensures { IfOk result (IsTermRead translation bytes.now) }
{
    match parse(alloc, bytes) {
        Ok(file) => match translate(alloc, &file, translation) {
            Ok(net) => Ok(TermRead::Term { net, file }),
            Err(fault) => match fault {
                TransFault::NoMemory => Err(NoMemory),
                TransFault::TooMany => {
                    let text = line(alloc, b"limit nodes 200000")?;
                    Ok(TermRead::Refused(text))
                }
            },
        },
        Err(fault) => match fault {
            ParseFault::NoMemory => Err(NoMemory),
            ParseFault::Syntax { at } => {
                let text = syntax_line(alloc, at)?;
                Ok(TermRead::Refused(text))
            }
            ParseFault::Depth { .. } => {
                let text = line(alloc, b"limit depth 1000")?;
                Ok(TermRead::Refused(text))
            }
        },
    }
}

// The net of a net file, or the line by which `ol` refuses it.
fn read_text(alloc: Global, bytes: &[u8]) -> Result<NetRead, NoMemory>
    requires short { length bytes.now ≤ most_net_bytes }
    ensures { IfOk result (IsSubjectRead Subject.Net bytes.now) }
{
    match read_net(alloc, bytes) {
        Ok(net) => Ok(NetRead::Net(net)),
        Err(fault) => {
            let words = fault_text(alloc, fault)?;
            let text = line(alloc, &words)?;
            Ok(NetRead::Refused(text))
        }
    }
}

// The net of a term file, or the line by which `ol` refuses it.
fn read_net_of_term(
    alloc: Global,
    bytes: &[u8],
    translation: Translation,
) -> Result<NetRead, NoMemory>
    requires short { length bytes.now ≤ most_term_bytes }
    ensures { IfOk result (IsSubjectRead (Subject.Term translation) bytes.now) }
{
    match read_term(alloc, bytes, translation)? {
        TermRead::Term { net, .. } => Ok(NetRead::Net(net)),
        TermRead::Refused(text) => Ok(NetRead::Refused(text)),
    }
}

/// The net of a file, or the line by which `ol` refuses the file.
pub fn read_subject(alloc: Global, bytes: &[u8], subject: Subject) -> Result<NetRead, NoMemory>
    requires short { length bytes.now ≤ most_bytes subject }
    ensures { IfOk result (IsSubjectRead subject bytes.now) }
{
    match subject {
        Subject::Net => {
            let read = read_text(alloc, bytes)?;
            Ok(read)
        }
        Subject::Term(translation) => {
            let read = read_net_of_term(alloc, bytes, translation)?;
            Ok(read)
        }
    }
}
