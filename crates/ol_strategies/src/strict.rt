//! The search of applicative order and of call-by-value.

ghost use Rattle.std.specs.Prelude.{◌≡◌, ◌≤◌, ◌++◌, ◌∷◌, [], IfOk, OnOk};
ghost use Rattle.ol_term.specs.Trees.{tree_of, depth};
ghost use Rattle.ol_strategies.specs.Redexes.{is_value};
ghost use Rattle.ol_strategies.specs.Searches.{is_ready, strict_redex, redex_if, IsInside};

use crate::spine::{add_move, is_abstraction};
use ol_beta::Address;
use ol_limits::NoMemory;
use ol_term::Term;
use std::alloc::Global;

/// What a search goes into: a function and its argument, a body, or nothing, as no redex is there.
#[derive(Clone, Copy, Drop)]
pub enum Inside<'a> {
    Application(&'a Term, &'a Term),
    Body(&'a Term),
    Nothing,
}

/// What is still to be looked at, of an application at an address of so many moves: its argument,
/// or the application itself, which is a redex.
#[derive(Clone, Copy, Drop)]
pub enum Todo<'a> {
    Argument(&'a Term, usize),
    Redex(usize),
}

pub fn is_value(term: &Term) -> bool
    ensures { result ≡ is_value (tree_of term.now) }
{
    !matches!(term, Term::App(_, _))
}

fn parts_of<'a>(below: bool, part: &'a Term) -> Inside<'a>
    ensures { IsInside below (tree_of part.now) result }
{
    match part {
        Term::App(function, argument) => Inside::Application(function, argument),
        Term::Lam(body) => {
            if below {
                Inside::Body(body)
            } else {
                Inside::Nothing
            }
        }
        Term::Var(_) | Term::Free(_) => Inside::Nothing,
    }
}

fn is_ready(below: bool, function: &Term, argument: &Term) -> bool
    ensures { result ≡ is_ready below (tree_of function.now) (tree_of argument.now) }
{
    is_abstraction(function) && (below || is_value(argument))
}

fn add_todo<'a>(todo: &mut Vec<Todo<'a>>, item: Todo<'a>) -> Result<(), NoMemory>
    ensures { OnOk result (todo.new.items ≡ todo.old.items ++ item.entry ∷ []) }
{
    todo.push(item)?;
    Ok(())
}

fn add_redex_if(todo: &mut Vec<Todo>, is_redex: bool, at: usize) -> Result<(), NoMemory>
    ensures { OnOk result (todo.new.items ≡ todo.old.items ++ redex_if is_redex at) }
{
    if is_redex {
        add_todo(todo, Todo::Redex(at))?;
    }
    Ok(())
}

/// The address of the first redex by function, argument and then the application itself: below
/// abstractions any, else only one whose argument is a value. What is still to be looked at is kept
/// in a list, so that no call is as deep as the term.
pub fn strict_redex(alloc: Global, below: bool, t: &Term) -> Result<Option<Address>, NoMemory>
    requires shallow { depth (tree_of t.now) ≤ 4294967295 }
    ensures { IfOk result (λ r. r ≡ strict_redex below (tree_of t.now)) }
{
    let mut moves: Vec<u8> = Vec::new(alloc);
    let mut todo: Vec<Todo> = Vec::new(alloc);
    let mut part = t;
    'parts: loop {
        match parts_of(below, part) {
            Inside::Application(function, argument) => {
                let at = moves.len();
                add_redex_if(&mut todo, is_ready(below, function, argument), at)?;
                add_todo(&mut todo, Todo::Argument(argument, at))?;
                add_move(&mut moves, 1)?;
                part = function;
            }
            Inside::Body(body) => {
                add_move(&mut moves, 0)?;
                part = body;
            }
            Inside::Nothing => match todo.pop() {
                None => return Ok(None),
                Some(Todo::Redex(at)) => {
                    moves.truncate(at);
                    return Ok(Some(Address::of(moves)));
                }
                Some(Todo::Argument(argument, at)) => {
                    moves.truncate(at);
                    add_move(&mut moves, 2)?;
                    part = argument;
                }
            },
        }
    }
}
