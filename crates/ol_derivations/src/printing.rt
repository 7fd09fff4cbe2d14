//! The text of a head.

ghost use Rattle.std.specs.Prelude.{◌≡◌, ℕ, true, ◌++◌, length, IfOk, OnOk};
ghost use Rattle.ol_readback.specs.Texts.{AreNamed, IsNamedVar, abstractions, rounds};
ghost use Rattle.ol_readback.specs.Whole.{Part, preorder};
ghost use Rattle.ol_equal.specs.Comparing.{place_at};
ghost use Rattle.ol_equal.specs.Paths.{IsPathTo};
ghost use Rattle.ol_derivations.specs.Heads.{IsHeadText, told_variable, underscores, head_text};
ghost use Rattle.ol_derivations.specs.PlacesOfPaths.{sign};

use crate::placing::{node_at, place_of};
use crate::rounding::{round_of, sum};
use ol_equal::Path;
use ol_limits::NoMemory;
use ol_readback::{HeadVar, ReadNode, ReadTree};
use ol_subjects::put;
use ol_term::{BinderNames, Names};
use std::alloc::Global;

// The sign before binder `k` of a place.
fn sign(k: u32) -> &'static [u8]
    ensures { result.now ≡ sign k }
{
    if k == 0 { b"\\" } else { b" " }
}

// `\`, the names of so many binders with one space between two, `.` and a space; nothing for none.
fn put_abstractions(
    binders: &mut BinderNames<'_>,
    text: &mut Vec<u8>,
    t: usize,
    lams: u32,
) -> Result<(), NoMemory>
    ensures text { OnOk result (text.new.items
        ≡ text.old.items ++ abstractions binders.old t lams) }
    ensures binders { binders.new ≡ binders.old }
{
    for k in 0..lams {
        put(text, sign(k))?;
        let binder = sum(t, k)?;
        binders.put(text, binder)?;
    }
    if lams == 0 {
        return Ok(());
    }
    put(text, b". ")
}

// A variable of the tree.
fn put_variable(
    binders: &mut BinderNames<'_>,
    text: &mut Vec<u8>,
    tree: &ReadTree,
    names: &Names,
    var: HeadVar,
) -> Result<(), NoMemory>
    requires free { IsNamedVar (length names.now) var }
    ensures { OnOk result ((part : Part true) → preorder part ≡ tree.now
        → text.new.items
        ≡ text.old.items ++ told_variable binders.old names.now (rounds 0 part) var) }
{
    match var {
        HeadVar::Free(port) => {
            let Some(name) = names.get(port - 1) else {
                unreachable!()
            };
            put(text, name)
        }
        HeadVar::Bound { node, binder } => {
            let round = round_of(tree, node as u64)?;
            let binder = sum(round, binder.saturating_sub(1))?;
            binders.put(text, binder)
        }
    }
}

fn put_underscores(text: &mut Vec<u8>, args: u32) -> Result<(), NoMemory>
    ensures { OnOk result (text.new.items ≡ text.old.items ++ underscores args) }
{
    for k in 0..args {
        put(text, b" _")?;
    }
    Ok(())
}

// Place `k` of the tree.
fn put_place(
    alloc: Global,
    text: &mut Vec<u8>,
    tree: &ReadTree,
    names: &Names,
    all: &Names,
    k: u64,
) -> Result<(), NoMemory>
    requires free { AreNamed (length names.now) tree.now }
    ensures { OnOk result ((part : Part true) → preorder part ≡ tree.now
        → text.new.items ≡ text.old.items
        ++ head_text all.now names.now (rounds 0 part) k (place_at tree.now k)) }
{
    match node_at(tree, k) {
        ReadNode::NoHead => put(text, b"?"),
        ReadNode::Cut => put(text, b"..."),
        ReadNode::Head { lams, var, args } => {
            let mut binders = BinderNames::new(alloc, all);
            let round = round_of(tree, k)?;
            put_abstractions(&mut binders, text, round, lams)?;
            put_variable(&mut binders, text, tree, names, var)?;
            put_underscores(text, args)
        }
    }
}

/// The text of the place that a path leads to: its binders as they stand in a text, its variable,
/// and a space and an underscore for each argument. It is `?` where the place has no head, and `...`
/// where the tree was cut.
///
/// A binder has a letter that is none of `all`: a to z, a1 to z1 and so on without these, by how
/// many binders stand round it. The free name of port q is name q - 1 of `names`. If `all` has the
/// free names of two trees (`all_names`), two heads at one place of them have one text only if they
/// are one head (law `one_text_is_one_head`).
///
/// `NoMemory`: no memory was found. The path leads to a place of the tree, and each free name in the
/// tree is one of `names`.
pub fn head_text(
    alloc: Global,
    tree: &ReadTree,
    names: &Names,
    all: &Names,
    path: &Path,
) -> Result<Vec<u8>, NoMemory>
    requires free { AreNamed (length names.now) tree.now }
    ensures { IfOk result (λ text. (k : ℕ) → IsPathTo tree.now k path.now
        → IsHeadText all.now names.now tree.now k text.items) }
{
    tree.is_whole();
    let place = place_of(tree, path);
    let mut text = Vec::new(alloc);
    put_place(alloc, &mut text, tree, names, all, place)?;
    Ok(text)
}
