//! The printed text of a term.

ghost use Rattle.std.specs.Prelude.{◌≡◌, ◌+◌, ◌-◌, ◌*◌, ◌<◌, ◌≤◌, ◌++◌, [], ◌∷◌, length, slice_index_or, true, false, if◌then◌else◌, IfOk, OnOk};
ghost use Rattle.ol_term.specs.Trees.{tree_of, is_below, is_named_below, term_size, depth};
ghost use Rattle.ol_term.specs.BinderNames.{binder_name};
ghost use Rattle.ol_term.specs.Texts.{before_binder, before_body, is_abstraction, is_variable, term_text_under, text_of_term};
ghost use Rattle.ol_term.specs.Printing.{left_bracket, closing, IsPrintable, IsItem, AreItems, PrintsTree, Prints};

use crate::binder_names::BinderNames;
use crate::name_list::Names;
use crate::terms::Term;
use ol_limits::NoMemory;
use std::alloc::Global;

/// What remains to be printed: a term with its number of enclosing binders, which is the body of
/// the innermost of these if the flag is true; an argument with its number of enclosing binders,
/// and the space before it; or the closing bracket of a term.
#[derive(Clone, Copy, Drop)]
pub enum Todo<'a> {
    Term(&'a Term, u32, bool),
    Argument(&'a Term, u32),
    Close,
}

fn put(text: &mut Vec<u8>, bytes: &[u8]) -> Result<(), NoMemory>
    ensures { OnOk result (text.new.items ≡ text.old.items ++ bytes.now) }
{
    text.extend_from_slice(bytes)?;
    Ok(())
}

fn add<'a>(todo: &mut Vec<Todo<'a>>, item: Todo<'a>) -> Result<(), NoMemory>
    ensures { OnOk result (todo.new.items ≡ todo.old.items ++ item.entry ∷ []) }
{
    todo.push(item)?;
    Ok(())
}

// `\` before the first binder of some, a space before each further one.
fn put_before_binder(text: &mut Vec<u8>, body: bool) -> Result<(), NoMemory>
    ensures { OnOk result (text.new.items ≡ text.old.items ++ before_binder body) }
{
    if body {
        put(text, b" ")?;
    } else {
        put(text, b"\\")?;
    }
    Ok(())
}

// A dot and a space after some binders.
fn put_before_body(text: &mut Vec<u8>, body: bool) -> Result<(), NoMemory>
    ensures { OnOk result (text.new.items ≡ text.old.items ++ before_body body) }
{
    if body {
        put(text, b". ")?;
    }
    Ok(())
}

fn is_abstraction(term: &Term) -> bool
    ensures { result ≡ is_abstraction (tree_of term.now) }
{
    matches!(term, Term::Lam(_))
}

fn is_variable(term: &Term) -> bool
    ensures { result ≡ is_variable (tree_of term.now) }
{
    matches!(term, Term::Var(_) | Term::Free(_))
}

// Opens a bracket round a term, which is then to be printed and closed.
fn open<'a>(text: &mut Vec<u8>, todo: &mut Vec<Todo<'a>>, bracket: bool) -> Result<(), NoMemory>
    ensures text { OnOk result (text.new.items ≡ text.old.items ++ left_bracket bracket) }
    ensures todo { OnOk result (todo.new.items ≡ todo.old.items ++ closing bracket) }
{
    if bracket {
        put(text, b"(")?;
        add(todo, Todo::Close)?;
    }
    Ok(())
}

// Prints a term up to the first term within it that is still to be printed.
fn print_part<'a>(
    names: &Names,
    binders: &mut BinderNames<'_>,
    text: &mut Vec<u8>,
    todo: &mut Vec<Todo<'a>>,
    term: &'a Term,
    round: u32,
    body: bool,
) -> Result<(), NoMemory>
    requires binders { binders.old ≡ names.now }
    requires printable { IsPrintable (length names.now) round (tree_of term.now) }
    requires items { AreItems (length names.now) todo.old.items }
    ensures step { OnOk result (PrintsTree names.now body round (tree_of term.now)
        text.old.items todo.old.items text.new.items todo.new.items) }
    ensures binders { binders.new ≡ binders.old }
{
    match term {
        Term::Var(k) => {
            put_before_body(text, body)?;
            binders.put(text, (round - (*k + 1)) as usize)?;
            Ok(())
        }
        Term::Free(k) => {
            let Some(name) = names.get(*k) else {
                unreachable!()
            };
            put_before_body(text, body)?;
            put(text, name)?;
            Ok(())
        }
        Term::Lam(inner) => {
            put_before_binder(text, body)?;
            binders.put(text, round as usize)?;
            add(todo, Todo::Term(inner, round + 1, true))?;
            Ok(())
        }
        Term::App(function, argument) => {
            put_before_body(text, body)?;
            add(todo, Todo::Argument(argument, round))?;
            open(text, todo, is_abstraction(function))?;
            add(todo, Todo::Term(function, round, false))?;
            Ok(())
        }
    }
}

// Prints an item up to the first term within it that is still to be printed.
fn print_next<'a>(
    names: &Names,
    binders: &mut BinderNames<'_>,
    text: &mut Vec<u8>,
    todo: &mut Vec<Todo<'a>>,
    next: Todo<'a>,
) -> Result<(), NoMemory>
    requires binders { binders.old ≡ names.now }
    requires item { IsItem (length names.now) next }
    requires items { AreItems (length names.now) todo.old.items }
    ensures step { OnOk result (Prints names.now next.entry
        text.old.items todo.old.items text.new.items todo.new.items) }
    ensures binders { binders.new ≡ binders.old }
{
    match next {
        Todo::Term(term, round, body) => {
            print_part(names, binders, text, todo, term, round, body)
        }
        Todo::Argument(term, round) => {
            put(text, b" ")?;
            open(text, todo, !is_variable(term))?;
            add(todo, Todo::Term(term, round, false))?;
            Ok(())
        }
        Todo::Close => put(text, b")"),
    }
}

/// The printed text of a term, as bytes. A list of what remains to be printed replaces recursion,
/// so that the depth of the term is limited by the number of a binder only.
///
/// Binders are named by `BinderNames`: a binder with t enclosing binders has name number t.
/// Directly nested abstractions share a single `\`, with a space between two binders, then `.` and
/// a space. An application is printed as its function, a space and its argument. Brackets enclose a
/// function that is an abstraction, and an argument that isn't a variable.
///
/// Every `Var` of the term is bound, every `Free` is the number of a name, and the depth is at most
/// 4,294,967,295. `NoMemory`: no memory was found.
pub fn print_term(alloc: Global, term: &Term, names: &Names) -> Result<Vec<u8>, NoMemory>
    requires bound { is_below 0 (tree_of term.now) ≡ true }
    requires named { is_named_below (length names.now) (tree_of term.now) ≡ true }
    requires short { depth (tree_of term.now) ≤ 4294967295 }
    ensures { IfOk result (λ text. text.items ≡ text_of_term names.now (tree_of term.now)) }
{
    let mut binders = BinderNames::new(alloc, names);
    let mut text: Vec<u8> = Vec::new(alloc);
    let mut todo: Vec<Todo> = Vec::new(alloc);
    add(&mut todo, Todo::Term(term, 0, false))?;
    'items: while let Some(next) = todo.pop() {
        print_next(names, &mut binders, &mut text, &mut todo, next)?;
    }
    Ok(text)
}
