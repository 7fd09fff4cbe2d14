//! The parser.

ghost use Rattle.std.specs.Prelude.{◌≡◌, ◌≢◌, ℕ, ◌≤◌, ◌<◌, ◌↔◌, true, length, List, Err, IsOk, IfOk, IfErr};
ghost use Rattle.ol_term.specs.Trees.{Tree, tree_of, depth, EachOccurs};
ghost use Rattle.ol_parse.specs.Texts.{IsRefusedAt};
ghost use Rattle.ol_limits.specs.Limits.{most_depth};
ghost use Rattle.ol_parse.specs.Parsed.{AreNames, IsFileOf, IsTooDeep};
ghost use Rattle.ol_parse.specs.Refusals.{IsFault};

use crate::bytes::read;
use crate::depths::depth_of;
use crate::faults::ParseFault;
use crate::numbers::number_term;
use ol_limits::MOST_DEPTH;
use ol_term::TermFile;
use std::alloc::Global;

fn read_file(alloc: Global, text: &[u8]) -> Result<TermFile, ParseFault>
    requires { length text.now ≤ 1073741824 }
    ensures file { IfOk result (λ file. IsFileOf text.now (tree_of file.term) file.names) }
    ensures shallow { IfOk result (λ file. depth (tree_of file.term) ≤ most_depth) }
    ensures refused { IfErr result (λ e. IsFault text.now e) }
{
    let steps = read(alloc, text)?;
    let depth = depth_of(alloc, &steps)?;
    if depth > MOST_DEPTH as u64 {
        return Err(ParseFault::Depth { depth });
    }
    Ok(number_term(alloc, &steps)?)
}

/// Parses a term.
///
/// The tokens are words, the letter λ (two bytes, CE BB) and the signs `\`, `.`, `=`, `(` and `)`.
/// A word is a letter a to z, A to Z or `_`, followed by letters, `_`, digits and `'`. A gap is any
/// number of spaces, tabs, line feeds, carriage returns and comments. A comment is `#`, followed by
/// bytes up to a line feed or the end of the text. A text is a gap, a term and a gap. Two tokens
/// are separated by a gap, which isn't empty between two words. `let` and `in` are keywords, every
/// other word is a name.
///
/// A term is a body, or a spine, or a spine and a body to which it is applied. A spine is a
/// sequence of at least one atom, applied from the left. An atom is a name, or `(` term `)`. A body
/// is `\` names `.` term, where λ may replace `\`, or `let` name `=` term `in` term, where
/// `let x = t in u` is `(\x. u) t`. A name is bound by the innermost enclosing abstraction of that
/// name, and is free if there is none. The free names are numbered in the order of their first
/// occurrence, the function of an application before its argument.
///
/// The text has at most 1,073,741,824 bytes.
///
/// - `Syntax`: exactly if the grammar doesn't accept the text; with the length of its longest
///   prefix that can be extended to a valid text.
/// - `Depth`: exactly if the text is valid and its term is deeper than 1,000; with that depth.
/// - `NoMemory`: no memory was found.
///
/// Each name of the result is a name of the grammar and occurs in its term.
pub fn parse(alloc: Global, text: &[u8]) -> Result<TermFile, ParseFault>
    requires { length text.now ≤ 1073741824 }
    ensures file { IfOk result (λ file. IsFileOf text.now (tree_of file.term) file.names) }
    ensures shallow { IfOk result (λ file. depth (tree_of file.term) ≤ most_depth) }
    ensures each_name { IfOk result (λ file. EachOccurs (length file.names) (tree_of file.term)) }
    ensures names { IfOk result (λ file. AreNames file.names) }
    ensures taken { result ≢ Err ParseFault.NoMemory → (t : Tree) (names : List (List ℕ)) →
        IsFileOf text.now t names → depth t ≤ most_depth → IsOk result }
    ensures syntax { result ≢ Err ParseFault.NoMemory → (at : ℕ) →
        (result ≡ Err (ParseFault.Syntax at)) ↔ IsRefusedAt text.now at }
    ensures too_deep { result ≢ Err ParseFault.NoMemory → (d : ℕ) →
        (result ≡ Err (ParseFault.Depth d)) ↔ IsTooDeep text.now d }
{
    read_file(alloc, text)
}
