//! The command `walk --frame`.

ghost use Rattle.std.specs.Prelude.{◌≡◌, ◌+◌, ◌≤◌, ◌<◌, ◌++◌, length, drop, IfOk, OnOk};
ghost use Rattle.ol_limits.specs.Limits.{most_term_bytes};
ghost use Rattle.ol_net.specs.Numbered.{net_of};
ghost use Rattle.ol_readback.specs.ReadTrees.{IsTree};
ghost use Rattle.ol_readback.specs.Texts.{AreNamed, IsNamedVar};
ghost use Rattle.ol_readback.specs.Printing.{IsSeenVar};
ghost use Rattle.ol_equal.specs.Comparing.{place_at};
ghost use Rattle.ol_equal.specs.Texts.{path_text};
ghost use Rattle.ol_equal.specs.Walking.{dotted};
ghost use Rattle.ol_decoding.specs.WalkAnswers.{IsWalked, IsFrameWalk};
ghost use Rattle.ol_decoding.specs.AddedLines.{AddsVar, AddsHead, TellsNet};

use crate::finding::{path_of, place_of};
use crate::watching::{Watch, seen_at};
use ol_limits::{Heads, NoMemory};
use ol_net::Net;
use ol_readback::{HeadVar, ReadNode, ReadTree, read_back};
use ol_subjects::{Answer, End, TermRead, put, put_number, read_term};
use ol_term::{Names, Translation};
use std::alloc::Global;

// Appends the numbers of a path but the first, a dot before each.
fn put_dotted(alloc: Global, text: &mut Vec<u8>, path: &[u32]) -> Result<(), NoMemory>
    ensures { OnOk result (text.new.items ≡ text.old.items ++ dotted (drop 1 path.now)) }
{
    for k in 1..path.len() {
        put(text, b".")?;
        put_number(alloc, text, path[k] as u64)?;
    }
    Ok(())
}

// Appends a path.
fn put_path(alloc: Global, text: &mut Vec<u8>, path: &[u32]) -> Result<(), NoMemory>
    ensures { OnOk result (text.new.items ≡ text.old.items ++ path_text path.now) }
{
    if path.is_empty() {
        put(text, b"root")?;
        return Ok(());
    }
    put_number(alloc, text, path[0] as u64)?;
    put_dotted(alloc, text, path)?;
    Ok(())
}

// Appends the variable of a head.
fn put_variable(
    alloc: Global,
    text: &mut Vec<u8>,
    tree: &ReadTree,
    names: &Names,
    variable: HeadVar,
) -> Result<(), NoMemory>
    requires named { IsNamedVar (length names.now) variable }
    requires seen { IsSeenVar (length tree.now) variable }
    ensures { OnOk result
        (AddsVar names.now tree.now variable text.old.items text.new.items) }
{
    match variable {
        HeadVar::Bound { node, binder } => {
            let path = path_of(alloc, tree, node)?;
            put(text, b"binder ")?;
            put_number(alloc, text, binder as u64)?;
            put(text, b" of ")?;
            put_path(alloc, text, &path)?;
            Ok(())
        }
        HeadVar::Free(port) => {
            let Some(name) = names.get(port - 1) else {
                unreachable!()
            };
            put(text, b"free ")?;
            put(text, name)?;
            Ok(())
        }
    }
}

// Appends the line of what stands at a place.
fn put_head(
    alloc: Global,
    text: &mut Vec<u8>,
    tree: &ReadTree,
    names: &Names,
    place: u32,
) -> Result<(), NoMemory>
    requires named { AreNamed (length names.now) tree.now }
    requires there { place < length tree.now }
    ensures { OnOk result
        (AddsHead names.now tree.now (place_at tree.now place) text.old.items text.new.items) }
{
    tree.is_whole();
    let Some(node) = tree.get(place) else {
        unreachable!()
    };
    match node {
        ReadNode::NoHead => {
            put(text, b"?\n")?;
            Ok(())
        }
        ReadNode::Cut => {
            put(text, b"...\n")?;
            Ok(())
        }
        ReadNode::Head { lams, var, args } => {
            put(text, b"abstractions ")?;
            put_number(alloc, text, lams as u64)?;
            put(text, b", ")?;
            put_variable(alloc, text, tree, names, var)?;
            put(text, b", arguments ")?;
            put_number(alloc, text, args as u64)?;
            put(text, b"\n")?;
            Ok(())
        }
    }
}

/// Which place of a term's tree is wanted, and what is told of it.
#[derive(Drop)]
pub struct Wanted {
    pub translation: Translation,
    /// How many places are asked.
    pub heads: Heads,
    /// The most crossings of each path.
    pub edges: u64,
    /// The numbers of arguments, from 1, that lead from the root to the place.
    pub path: Vec<u32>,
    /// For how many abstractions the one question asks that is told. `None`: all are told.
    pub question: Option<u32>,
    /// How many crossings are told at most.
    pub lines: u32,
}

// The lines of a place that a tree has.
fn walked(
    alloc: Global,
    net: &Net,
    tree: &ReadTree,
    wanted: &Wanted,
    place: u32,
) -> Result<Vec<u8>, NoMemory>
    requires root { 0 < net.now.free }
    requires tree { IsTree (net_of net.now) wanted.now.heads.most wanted.now.edges tree.now }
    requires there { place < length tree.now }
    ensures { IfOk result (λ text. IsWalked (net_of net.now) wanted.now place text.items) }
{
    if place >= wanted.heads.most {
        return Ok(Vec::new(alloc));
    }
    let watch = Watch {
        edges: wanted.edges,
        place,
        question: wanted.question,
        lines: wanted.lines,
        seen: Vec::new(alloc),
    };
    let text = seen_at(alloc, net, tree, wanted.heads.most, watch)?;
    Ok(text)
}

// The answer for a net whose free ports behind the first have these names.
fn of_net(alloc: Global, net: &Net, names: &Names, wanted: &Wanted) -> Result<Answer, NoMemory>
    requires ports { net.now.free ≡ 1 + length names.now }
    ensures { IfOk result (λ a. TellsNet net.now names.now wanted.now a.text.items a.end) }
{
    let tree = read_back(alloc, net, wanted.heads.most, wanted.edges)?;
    let Some(place) = place_of(&tree, &wanted.path) else {
        let mut text = Vec::new(alloc);
        put(&mut text, b"no such place\n")?;
        let end = End::Nothing;
        return Ok(Answer { text, end });
    };
    let mut text = walked(alloc, net, &tree, wanted, place)?;
    put_head(alloc, &mut text, &tree, names, place)?;
    let end = End::Yes;
    Ok(Answer { text, end })
}

/// The questions that one place of a term is asked, crossing by crossing. The net of the term's
/// translation is read by paths, as `ol walk` reads it. The file has at most 1,048,576 bytes.
///
/// - `Yes`: for each question that is told, a line with the number of abstractions, the port and
///   the context; then a line for each crossing, with the port that is entered, its node, the port
///   by which that is left, and the context after it; and one with the free port at which the path
///   leaves. Where no crossing is defined, the line says so. Where no more crossings are told, the
///   line is `...`. The last line is what stands at the place. A place that isn't asked has that
///   line alone.
/// - `Nothing`: the tree has no such place.
/// - `Refused`: `ol` refuses the file, by this line.
///
/// `NoMemory`: no memory was found.
pub fn frame_walk(alloc: Global, bytes: &[u8], wanted: &Wanted) -> Result<Answer, NoMemory>
    requires short { length bytes.now ≤ most_term_bytes }
    ensures { IfOk result (λ a. IsFrameWalk bytes.now wanted.now a.text.items a.end) }
{
    match read_term(alloc, bytes, wanted.translation)? {
        TermRead::Refused(text) => {
            let end = End::Refused;
            Ok(Answer { text, end })
        }
        TermRead::Term { net, file } => {
            let answer = of_net(alloc, &net, &file.names, wanted)?;
            Ok(answer)
        }
    }
}
