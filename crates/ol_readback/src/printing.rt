//! The text of a tree.

ghost use Rattle.std.specs.Prelude.{◌≡◌, ◌+◌, ◌<◌, ◌≤◌, ◌++◌, [], ◌∷◌, length, IfOk, OnOk};
ghost use Rattle.ol_term.specs.BinderNames.{binder_name};
ghost use Rattle.ol_readback.specs.Texts.{IsNamedVar, IsNamedNode, AreNamed, spaced, abstractions, variable, IsTextOf};
ghost use Rattle.ol_parse.specs.Parsed.{AreNames};
ghost use Rattle.ol_readback.specs.Terms.{HasAllHeads, IsReadBack};
ghost use Rattle.ol_readback.specs.Printing.{IsSeenVar, IsSeen, left_bracket, right_bracket, wants_bracket, printed, opened, Takes};

use crate::answers::{HeadVar, ReadNode};
use crate::tree::ReadTree;
use ol_limits::NoMemory;
use ol_term::{BinderNames, Names};
use std::alloc::Global;

/// A head of which `left` arguments are still to be printed, each with `binders` enclosing binders.
/// A bracket is closed after the last argument, if one is open.
#[derive(Clone, Copy, Drop)]
pub struct Open {
    pub left: u32,
    pub binders: usize,
    pub bracket: bool,
}

fn put(text: &mut Vec<u8>, byte: u8) -> Result<(), NoMemory>
    ensures { OnOk result (text.new.items ≡ text.old.items ++ byte ∷ []) }
{
    text.push(byte)?;
    Ok(())
}

fn put_all(text: &mut Vec<u8>, bytes: &[u8]) -> Result<(), NoMemory>
    ensures { OnOk result (text.new.items ≡ text.old.items ++ bytes.now) }
{
    text.extend_from_slice(bytes)?;
    Ok(())
}

fn sum(a: usize, b: u32) -> Result<usize, NoMemory>
    ensures { IfOk result (λ r. r ≡ a + b) }
{
    match a.checked_add(b as usize) {
        Some(sum) => Ok(sum),
        None => Err(NoMemory),
    }
}

// The names of `l` binders, the first with `t` binders round it, a space before each.
fn put_spaced(
    binders: &mut BinderNames<'_>,
    text: &mut Vec<u8>,
    t: usize,
    l: u32,
) -> Result<(), NoMemory>
    ensures text { OnOk result (text.new.items ≡ text.old.items ++ spaced binders.old t l) }
    ensures binders { binders.new ≡ binders.old }
{
    for k in 0..l {
        let binder = sum(t, k)?;
        put(text, b' ')?;
        binders.put(text, binder)?;
    }
    Ok(())
}

fn put_abstractions(
    binders: &mut BinderNames<'_>,
    text: &mut Vec<u8>,
    t: usize,
    l: u32,
) -> Result<(), NoMemory>
    ensures text { OnOk result (text.new.items ≡ text.old.items ++ abstractions binders.old t l) }
    ensures binders { binders.new ≡ binders.old }
{
    if l == 0 {
        return Ok(());
    }
    let second = sum(t, 1)?;
    put(text, b'\\')?;
    binders.put(text, t)?;
    put_spaced(binders, text, second, l - 1)?;
    put_all(text, b". ")?;
    Ok(())
}

// The variable of a head, where so many binders stand round each place.
fn put_variable(
    names: &Names,
    binders: &mut BinderNames<'_>,
    rounds: &Vec<usize>,
    text: &mut Vec<u8>,
    var: HeadVar,
) -> Result<(), NoMemory>
    requires binders { binders.old ≡ names.now }
    requires named { IsNamedVar (length names.now) var }
    requires seen { IsSeenVar (length rounds.now.items) var }
    ensures text { OnOk result
        (text.new.items ≡ text.old.items ++ variable names.now rounds.now.items var) }
    ensures binders { binders.new ≡ binders.old }
{
    match var {
        HeadVar::Bound { node, binder } => {
            let round = rounds[node as usize];
            let t = sum(round, binder.saturating_sub(1))?;
            binders.put(text, t)?;
            Ok(())
        }
        HeadVar::Free(port) => {
            let Some(name) = names.get(port - 1) else {
                unreachable!()
            };
            put_all(text, name)?;
            Ok(())
        }
    }
}

fn put_left(text: &mut Vec<u8>, bracket: bool) -> Result<(), NoMemory>
    ensures { OnOk result (text.new.items ≡ text.old.items ++ left_bracket bracket) }
{
    if bracket {
        put(text, b'(')?;
    }
    Ok(())
}

fn put_right(text: &mut Vec<u8>, bracket: bool) -> Result<(), NoMemory>
    ensures { OnOk result (text.new.items ≡ text.old.items ++ right_bracket bracket) }
{
    if bracket {
        put(text, b')')?;
    }
    Ok(())
}

// Whether brackets are needed round a place that is an argument.
fn wants_bracket(argument: bool, node: ReadNode) -> bool
    ensures { result ≡ wants_bracket argument node }
{
    match node {
        ReadNode::Head { lams, args, .. } => argument && (lams > 0 || args > 0),
        ReadNode::NoHead => false,
        ReadNode::Cut => false,
    }
}

// Prints a place, with a right bracket where it has no arguments, and opens it where it has some.
fn put_place(
    names: &Names,
    binders: &mut BinderNames<'_>,
    rounds: &Vec<usize>,
    text: &mut Vec<u8>,
    pending: &mut Vec<Open>,
    node: ReadNode,
    t: usize,
    bracket: bool,
) -> Result<(), NoMemory>
    requires binders { binders.old ≡ names.now }
    requires named { IsNamedNode (length names.now) node }
    requires seen { IsSeen (length rounds.now.items) node }
    ensures text { OnOk result
        (text.new.items ≡ text.old.items ++ printed names.now rounds.now.items t bracket node) }
    ensures pending { OnOk result (pending.new.items ≡ pending.old.items ++ opened t bracket node) }
    ensures binders { binders.new ≡ binders.old }
{
    match node {
        ReadNode::NoHead => {
            put(text, b'?')?;
            Ok(())
        }
        ReadNode::Cut => {
            put_all(text, b"...")?;
            Ok(())
        }
        ReadNode::Head { lams, var, args } => {
            put_left(text, bracket)?;
            put_abstractions(binders, text, t, lams)?;
            put_variable(names, binders, rounds, text, var)?;
            if args == 0 {
                put_right(text, bracket)?;
                return Ok(());
            }
            let inside = sum(t, lams)?;
            pending.push(Open {
                left: args,
                binders: inside,
                bracket,
            })?;
            Ok(())
        }
    }
}

// How many binders stand round the next argument. Heads whose arguments are all printed are closed.
// None: no argument is left.
fn take(text: &mut Vec<u8>, pending: &mut Vec<Open>) -> Result<Option<usize>, NoMemory>
    ensures { IfOk result (λ r.
        Takes text.old.items pending.old.items r text.new.items pending.new.items) }
{
    loop {
        match pending.pop() {
            None => return Ok(None),
            Some(head) => {
                if head.left > 0 {
                    pending.push(Open {
                        left: head.left - 1,
                        binders: head.binders,
                        bracket: head.bracket,
                    })?;
                    return Ok(Some(head.binders));
                }
                put_right(text, head.bracket)?;
            }
        }
    }
}

// Adds how many binders stand round one place more.
fn add_round(rounds: &mut Vec<usize>, t: usize) -> Result<(), NoMemory>
    ensures { OnOk result (rounds.new.items ≡ rounds.old.items ++ t ∷ []) }
{
    rounds.push(t)?;
    Ok(())
}

/// The printed text of a tree, as bytes.
///
/// Binders are named by the sequence a to z, a1 to z1, a2 to z2 and so on, except the free names; a
/// binder with t enclosing binders has name number t, from 0. A head with binders is printed as
/// `\`, its binders, `.` and a space; its variable and its arguments follow, with a space before
/// each argument. Brackets enclose an argument that is a head, unless it is a variable without
/// binders and arguments. A place without a head is printed as `?`, and a place that was cut as
/// `...`, both without brackets. The free name of port q is name q - 1.
///
/// If each place has a head and each name is a name of the grammar, the text is in the grammar. Its
/// term, with the free names numbered by `names`, is the term of the tree, in which no application
/// has an abstraction as its function.
///
/// `NoMemory`: no memory was found. Each free name of the tree is one of `names`.
pub fn tree_text(alloc: Global, tree: &ReadTree, names: &Names) -> Result<Vec<u8>, NoMemory>
    requires free { AreNamed (length names.now) tree.now }
    ensures text { IfOk result (λ text. IsTextOf names.now tree.now text.items) }
    ensures read { IfOk result (λ text.
        AreNames names.now → HasAllHeads tree.now → IsReadBack names.now tree.now text.items) }
{
    tree.is_whole();
    names.are_different();
    let mut binders = BinderNames::new(alloc, names);
    let mut rounds: Vec<usize> = Vec::new(alloc);
    let mut text: Vec<u8> = Vec::new(alloc);
    let mut pending: Vec<Open> = Vec::new(alloc);
    let mut t: usize = 0;
    let mut argument = false;
    for place in 0..tree.len() {
        let Some(node) = tree.get(place) else {
            unreachable!()
        };
        add_round(&mut rounds, t)?;
        let bracket = wants_bracket(argument, node);
        put_place(
            names,
            &mut binders,
            &rounds,
            &mut text,
            &mut pending,
            node,
            t,
            bracket,
        )?;
        let next = take(&mut text, &mut pending)?;
        match next {
            None => return Ok(text),
            Some(inside) => {
                put(&mut text, b' ')?;
                t = inside;
                argument = true;
            }
        }
    }
    Ok(text)
}
