//! The command `equal`: compares two terms, each read back from the net that its workers leave.
ghost use Rattle.std.specs.Prelude.{◌≡◌, ◌≤◌, ◌+◌, ◌∷◌, length, true, IfOk, None};
ghost use Rattle.ol_io.specs.Readings.{Reading};
ghost use Rattle.ol_readback.specs.Texts.{AreNamed};
ghost use Rattle.ol_cli.specs.Called.{ReadsAtMost, OfFilesRead, seen_of};
ghost use Rattle.ol_cli.specs.Answers.{RefusesFirst};
ghost use Rattle.ol_cli.specs.Inside.{ComesOf, equal_on};
ghost use Rattle.ol_cli.specs.Sides.{ComesOfSide, EndsSecond};

use crate::answer::Answer;
use crate::last_tree::last_tree;
use crate::numbers::RunNumbers;
use crate::ready::{Ready, read_term};
use crate::status::Status;
use crate::texts::{spent_line, term_line};
use ol_equal::{compared_text, same_tree};
use ol_io::{Gate, Source};
use ol_limits::NoMemory;
use ol_readback::ReadTree;
use ol_term::Names;
use std::alloc::Global;
use std::sync::Wait;
use std::thread::Threads;

/// The result for each of the two files: a refusal, or the tree that is read back for its term,
/// with the free names of the term.
#[derive(Drop)]
pub enum Side {
    Refused(Answer),
    Read { tree: ReadTree, names: Names },
}

/// The answer of `equal` to the term files of these names. The second file is begun where the first
/// isn't refused.
pub fn answer_equal<R: Threads + Wait + Sync, S: Source, G: Gate + Sync>(
    rt: &R,
    alloc: Global,
    numbers: RunNumbers,
    first: &str,
    second: &str,
    src: &mut S,
    gate: &G,
) -> Result<Answer, NoMemory>
    requires first { S.knows src.old first.now ≡ true }
    requires second { S.knows src.old second.now ≡ true }
    ensures comes { OfFilesRead S.Source src.old src.new (λ files.
        IfOk result (ComesOf (equal_on numbers first.now second.now)
        (seen_of S.Source files src.old src.new))) }
    ensures first_alone { OfFilesRead S.Source src.old src.new (λ files.
        RefusesFirst (files 0) (equal_on numbers first.now second.now)
        → S.begins src.new ≤ S.begins src.old + 1) }
    ensures source { ReadsAtMost S.Source 2 src.old src.new }
{
    let side = read_side(rt, alloc, numbers, first, src, gate)?;
    match side {
        Side::Refused(answer) => Ok(answer),
        Side::Read { tree, names } => {
            let answer = answer_second(rt, alloc, numbers, &tree, &names, second, src, gate)?;
            Ok(answer)
        }
    }
}

// The text of the comparison of this tree with that of the second file, and its status.
fn answer_second<R: Threads + Wait + Sync, S: Source, G: Gate + Sync>(
    rt: &R,
    alloc: Global,
    numbers: RunNumbers,
    tree: &ReadTree,
    names: &Names,
    second: &str,
    src: &mut S,
    gate: &G,
) -> Result<Answer, NoMemory>
    requires known { S.knows src.old second.now ≡ true }
    requires named { AreNamed (length names.now) tree.now }
    ensures caused { OfFilesRead S.Source src.old src.new (λ files.
        IfOk result (λ a. EndsSecond numbers tree.now names.now
        (seen_of S.Source files src.old src.new)
        second.now a.status a.text.items)) }
    ensures closed { IfOk result (λ a. a.closed ≡ None) }
    ensures source { ReadsAtMost S.Source 1 src.old src.new }
{
    let side = read_side(rt, alloc, numbers, second, src, gate)?;
    match side {
        Side::Refused(answer) => Ok(answer),
        Side::Read {
            tree: other,
            names: other_names,
        } => {
            let compared = same_tree(alloc, tree, names, &other, &other_names)?;
            let told = compared_text(alloc, &compared)?;
            let text = term_line(alloc, &told)?;
            Ok(Answer::text_alone(text, Status::Done))
        }
    }
}

// The result for the file of this name.
fn read_side<R: Threads + Wait + Sync, S: Source, G: Gate + Sync>(
    rt: &R,
    alloc: Global,
    numbers: RunNumbers,
    name: &str,
    src: &mut S,
    gate: &G,
) -> Result<Side, NoMemory>
    requires known { S.knows src.old name.now ≡ true }
    ensures comes { OfFilesRead S.Source src.old src.new (λ files.
        IfOk result (ComesOfSide numbers
        (seen_of S.Source files src.old src.new) name.now)) }
    ensures one { (r : Reading) × (S.readings src.new ≡ r ∷ S.readings src.old) }
    ensures source { ReadsAtMost S.Source 1 src.old src.new }
{
    let ready = read_term(alloc, numbers.translation, name, src)?;
    match ready {
        Ready::Refused(answer) => Ok(Side::Refused(answer)),
        Ready::Net { net, file } => match last_tree(rt, alloc, &net, numbers, gate)? {
            None => {
                let text = spent_line(alloc, numbers.fuel.most)?;
                Ok(Side::Refused(Answer::text_alone(text, Status::Spent)))
            }
            Some(tree) => Ok(Side::Read {
                tree,
                names: file.names,
            }),
        },
    }
}
