//! A function applied to the arguments of a line.

ghost use Rattle.std.specs.Prelude.{◌≡◌, ◌↔◌, true, ◌<◌, ◌≤◌, ◌++◌, codes, IfOk, OnOk};
ghost use Rattle.ol_limits.specs.Limits.{most_depth};
ghost use Rattle.ol_term.specs.Trees.{tree_of, depth};
ghost use Rattle.ol_term.specs.NameLists.{in_table};
ghost use Rattle.ol_derivations.specs.Heads.{all_names};
ghost use Rattle.ol_derivations.specs.Grades.{IsTermText};
ghost use Rattle.ol_derivations.specs.Applications.{with_function, arguments_of, IsFurther, IsFunction, IsInput};
ghost use Rattle.ol_derivations.specs.StudentsSoFar.{IsAppliedFile};

use crate::naming::all_names;
use ol_limits::{MOST_DEPTH, NoMemory};
use ol_parse::{ParseFault, parse};
use ol_subjects::put;
use ol_term::{Term, TermFile, boxed, copied, renumber};
use std::alloc::Global;
use std::mem;

/// A function: its text, and the term of this text.
#[derive(Drop)]
pub struct Function<'a> {
    pub text: &'a [u8],
    pub file: TermFile,
}

/// An input: a line of arguments `t a1 .. an`, the term of this line, and the number n. `further`
/// is None only if the application of each function to these arguments is deeper than 1,000.
#[derive(Drop)]
pub struct Input<'a> {
    pub text: &'a [u8],
    pub file: TermFile,
    pub further: Option<u32>,
}

// The number of arguments of a term's head. The call depth is at most the depth of the term.
fn arguments_of(term: &Term) -> u32
    requires shallow { depth (tree_of term.now) ≤ most_depth }
    ensures arguments { result ≡ arguments_of (tree_of term.now) }
    ensures few { result < depth (tree_of term.now) }
{
    match term {
        Term::Var(_) | Term::Free(_) | Term::Lam(_) => 0,
        Term::App(function, _) => arguments_of(function) + 1,
    }
}

// A name in brackets before a line.
fn headed(alloc: Global, line: &[u8]) -> Result<Vec<u8>, NoMemory>
    ensures { IfOk result (λ text. text.items ≡ codes "(x) " ++ line.now) }
{
    let mut text = Vec::new(alloc);
    put(&mut text, b"(x) ")?;
    put(&mut text, line)?;
    Ok(text)
}

/// The number n for a line of arguments `t a1 .. an`, from the term `x t a1 .. an`. `None`: this
/// term is deeper than 1,000, and so is the application of each function to these arguments.
/// `NoMemory`: no memory was found.
pub fn further_of(alloc: Global, line: &[u8]) -> Result<Option<u32>, NoMemory>
    requires line { IsTermText line.now }
    ensures { IfOk result (IsFurther line.now) }
{
    let text = headed(alloc, line)?;
    match parse(alloc, &text) {
        Ok(file) => Ok(Some(arguments_of(&file.term) - 1)),
        Err(fault) => match fault {
            ParseFault::NoMemory => Err(NoMemory),
            // Never: the line is a text of the grammar, and stays one with a name before it.
            ParseFault::Syntax { .. } => Ok(None),
            ParseFault::Depth { .. } => Ok(None),
        },
    }
}

// Makes `f t a1 .. an` of `t a1 .. an`, where `further` is n. The call depth is at most the depth of
// the term.
fn put_function(
    alloc: Global,
    arguments: &mut Term,
    further: u32,
    function: Term,
) -> Result<(), NoMemory>
    ensures { OnOk result (tree_of arguments.new
        ≡ with_function (tree_of function) further (tree_of arguments.old)) }
{
    if further > 0 {
        if let Term::App(front, _) = arguments {
            return put_function(alloc, front, further - 1, function);
        }
    }
    let first = mem::replace(arguments, Term::Var(0));
    *arguments = Term::App(boxed(alloc, function)?, boxed(alloc, first)?);
    Ok(())
}

/// The application `f t a1 .. an` of a function `f` to the arguments in a line `t a1 .. an`, where
/// `further` is n. Free names are equal if their bytes are equal. `NoMemory`: no memory was found.
pub fn apply(
    alloc: Global,
    function: &TermFile,
    arguments: &TermFile,
    further: u32,
) -> Result<TermFile, NoMemory>
    ensures tree { IfOk result (λ file. let all = all_names
        (record { a = function.now.names; b = arguments.now.names }) in tree_of file.term
        ≡ with_function (in_table all function.now.names (tree_of function.now.term)) further
        (in_table all arguments.now.names (tree_of arguments.now.term))) }
    ensures names { IfOk result (λ file. file.names
        ≡ all_names (record { a = function.now.names; b = arguments.now.names })) }
{
    let names = all_names(alloc, &function.names, &arguments.names)?;
    let mut head = copied(alloc, &function.term)?;
    renumber(&mut head, &function.names, &names);
    let mut term = copied(alloc, &arguments.term)?;
    renumber(&mut term, &arguments.names, &names);
    put_function(alloc, &mut term, further, head)?;
    Ok(TermFile { term, names })
}

// Whether the depth of a term is at most `most`. The call depth is at most `most`.
fn is_within(term: &Term, most: u32) -> bool
    ensures { (result ≡ true) ↔ (depth (tree_of term.now) ≤ most) }
{
    if most == 0 {
        return false;
    }
    match term {
        Term::Var(_) | Term::Free(_) => true,
        Term::Lam(body) => is_within(body, most - 1),
        Term::App(function, argument) => {
            is_within(function, most - 1) && is_within(argument, most - 1)
        }
    }
}

/// The term of a function applied to an input, or None if it is deeper than 1,000. `NoMemory`: no
/// memory was found.
pub fn applied(
    alloc: Global,
    function: &Function<'_>,
    input: &Input<'_>,
) -> Result<Option<TermFile>, NoMemory>
    requires function { IsFunction function.now }
    requires input { IsInput input.now }
    ensures { IfOk result (IsAppliedFile function.now.text.now input.now.text.now) }
{
    let Some(further) = input.further else {
        return Ok(None);
    };
    let file = apply(alloc, &function.file, &input.file, further)?;
    if is_within(&file.term, MOST_DEPTH) {
        Ok(Some(file))
    } else {
        Ok(None)
    }
}
