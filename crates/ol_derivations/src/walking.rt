//! A whole derivation, line by line.

ghost use Rattle.std.specs.Prelude.{◌≡◌, ◌<◌, ◌^◌, ◌++◌, [], true, codes, if◌then◌else◌, IfOk, OnOk};
ghost use Rattle.ol_term.specs.Trees.{tree_of, is_below};
ghost use Rattle.ol_beta.specs.Beta.{IsWithin};
ghost use Rattle.ol_term.specs.NameLists.{with_names, in_table};
ghost use Rattle.ol_derivations.specs.Derivations.{IsTermLine, IsTold, IsLine, IsDerivation, with_term};
ghost use Rattle.ol_derivations.specs.StepsFound.{last_of, terms_of};

use crate::holding::{Last, Sofar};
use crate::judging::judge;
use crate::lines::{Read, all_left_out, lines_of, read_line};
use crate::telling::{line_text, verdict_line};
use ol_limits::NoMemory;
use ol_subjects::{Answer, End, put};
use ol_term::{Names, Term, TermFile, renumber};
use std::alloc::Global;

/// What is said of a line, and whether a derivation may go on so.
#[derive(Drop)]
pub struct Told {
    pub text: Vec<u8>,
    pub fine: bool,
}

// Nothing is said, as of the first term.
fn nothing(alloc: Global) -> Told
    ensures text { result.text.items ≡ [] }
    ensures fine { result.fine ≡ true }
{
    Told {
        text: Vec::new(alloc),
        fine: true,
    }
}

// What is said of the term of line n, by the last one before it.
fn told_of(alloc: Global, last: &Option<Last>, n: usize, term: &Term) -> Result<Told, NoMemory>
    requires within { IsWithin (tree_of term.now) }
    requires bound { is_below 0 (tree_of term.now) ≡ true }
    ensures { IfOk result (λ told.
        IsTold n (tree_of term.now) (last_of last.now) told.text.items told.fine) }
{
    match last {
        None => Ok(nothing(alloc)),
        Some(before) => {
            let verdict = judge(alloc, &before.term, term)?;
            let text = verdict_line(alloc, n, before.line, &verdict)?;
            let fine = verdict.is_fine();
            Ok(Told { text, fine })
        }
    }
}

// Line n, which has a term.
fn take_term(alloc: Global, sofar: &mut Sofar, n: usize, file: TermFile) -> Result<Told, NoMemory>
    requires within { IsWithin (tree_of file.term) }
    ensures terms { OnOk result
        (terms_of sofar.new ≡ with_term (terms_of sofar.old) n (tree_of file.term) file.names) }
    ensures told { IfOk result (λ told.
        IsTold n (in_table (with_names sofar.old.table file.names) file.names (tree_of file.term))
        (last_of sofar.old.last) told.text.items told.fine) }
{
    let TermFile { mut term, names } = file;
    sofar.table.add_all(&names)?;
    renumber(&mut term, &names, &sofar.table);
    let told = told_of(alloc, &sofar.last, n, &term)?;
    sofar.last = Some(Last { line: n, term });
    Ok(told)
}

// Line n.
fn take_line(alloc: Global, sofar: &mut Sofar, n: usize, line: &[u8]) -> Result<Told, NoMemory>
    ensures { IfOk result (λ told. IsLine n line.now (terms_of sofar.old) (terms_of sofar.new)
        told.text.items told.fine) }
{
    match read_line(alloc, line)? {
        Read::LeftOut => Ok(nothing(alloc)),
        Read::NoTerm(words) => {
            let text = line_text(alloc, n, &words)?;
            let fine = false;
            Ok(Told { text, fine })
        }
        Read::Term(file) => {
            let told = take_term(alloc, sofar, n, file)?;
            Ok(told)
        }
    }
}

// How a derivation ends.
fn end_of(fine: bool) -> End
    ensures { result ≡ (if fine then End.Yes else End.No) }
{
    if fine { End::Yes } else { End::No }
}

// The answer to a file without a term.
fn no_derivation(alloc: Global) -> Result<Answer, NoMemory>
    ensures text { IfOk result (λ a. a.text.items ≡ codes "no term\n") }
    ensures end { IfOk result (λ a. a.end ≡ End.No) }
{
    let mut text = Vec::new(alloc);
    put(&mut text, b"no term\n")?;
    let end = End::No;
    Ok(Answer { text, end })
}

/// What is said of a derivation: a file with one term a line, each a text of the grammar. Empty
/// lines and those that begin with `#` are left out of account, also behind blanks. Lines are
/// counted from 1. A free name is the same in all lines.
///
/// Each term behind the first gets a line: `one beta step, at A`, where A is the first address in
/// preorder at which contraction of the term before gives it, with `, leftmost` where that is the
/// leftmost redex; else `the same term`, up to names of binders; else `K steps`, if K steps of
/// whatever redexes lead there and no fewer do, 2 to 5, and the search for them isn't cut off; else
/// `not convertible`, where leftmost reduction of both ends in different normal forms, by at most
/// 1,000 steps each; else `no beta step of line M`, where M is the line of the term before. So does
/// each line without a term
/// from which beta steps are made: `syntax, column C`, with the first byte, counted from 1, from
/// which on it isn't in the grammar; `limit bytes 1048576`; `limit depth 1000`; or `limit size
/// 100000`. The term behind such a line is judged by the last term before it.
///
/// - `Yes`: there is a term, and each line is one beta step, or the same term.
/// - `No`: some line isn't; or there is no line but those left out, and the answer is `no term`.
///
/// `NoMemory`: no memory was found.
pub fn derivation(alloc: Global, bytes: &[u8]) -> Result<Answer, NoMemory>
    ensures { IfOk result (λ a. IsDerivation bytes.now a.text.items a.end) }
{
    let lines = lines_of(alloc, bytes)?;
    if all_left_out(&lines) {
        let answer = no_derivation(alloc)?;
        return Ok(answer);
    }
    let mut sofar = Sofar {
        table: Names::new(alloc),
        last: None,
    };
    let mut text = Vec::new(alloc);
    let mut fine = true;
    for k in 0..lines.len() {
        let told = take_line(alloc, &mut sofar, k + 1, lines[k])?;
        put(&mut text, &told.text)?;
        fine &= told.fine;
    }
    let end = end_of(fine);
    Ok(Answer { text, end })
}
