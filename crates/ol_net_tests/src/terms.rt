//! Lists of names, the names of binders, and printed terms.

ghost use Rattle.std.specs.Prelude.{◌≡◌, ◌≤◌, length, IfOk};
ghost use Rattle.ol_term.specs.Trees.{tree_of, var, lam, app};

use ol_parse::parse;
use ol_term::{BinderNames, Names, Term, alpha_eq, depth, make, print_term, size};
use std::alloc::Global;
use std::test::Fail;

fn add(names: &mut Names, name: &[u8]) -> Option<u32> {
    if names.len() > 10 {
        return None;
    }
    names.add(name).ok()
}

/// Two free names, the second of which is added twice, and what each call tells.
fn two_names(alloc: Global, names: &mut Names) -> Result<String, Fail> {
    let first = add(names, b"a");
    let second = add(names, b"b1");
    let again = add(names, b"b1");
    let (length, found, none) = (names.len(), names.find(b"b1"), names.find(b"b"));
    Ok(format!(in alloc; "{first:?} {second:?} {again:?} {length} {found:?} {none:?}")?)
}

/// The names of some binders of a term with these free names.
fn binders(alloc: Global, names: &Names) -> Result<Vec<u8>, Fail> {
    let mut binders = BinderNames::new(alloc, names);
    let mut text = Vec::new(alloc);
    for t in [0, 24, 25, 26, 50] {
        binders.put(&mut text, t)?;
        text.push(b' ')?;
    }
    Ok(text)
}

#[test]
fn names_are_added_once_and_binders_pass_over_them(rt: HostRuntime) -> Result<(), Fail> {
    let mut names = Names::new(rt.alloc());
    let told = two_names(rt.alloc(), &mut names)?;
    let text = binders(rt.alloc(), &names)?;
    assert!(rt;
        told.as_bytes() == b"Some(0) Some(1) Some(1) 2 Some(1) None".as_slice()
            && text.as_slice() == b"b z a1 c1 a2 ".as_slice(),
        "{told}"
    );
    Ok(())
}

/// A term, printed.
fn printed(alloc: Global, input: &[u8]) -> Result<Vec<u8>, Fail>
    requires { length input.now ≤ 100 }
{
    let file = parse(alloc, input).ok().ok_or("no term")?;
    Ok(print_term(alloc, &file.term, &file.names)?)
}

/// A function that is an abstraction and an argument that is none stand in brackets, abstractions are
/// gathered, and binders pass over the free names.
#[test]
fn terms_are_printed(rt: HostRuntime) -> Result<(), Fail> {
    let text = printed(rt.alloc(), b"(\\x. \\y. x y a c) (\\f. f (f (\\x. f)))")?;
    assert!(rt; text.as_slice() == b"(\\b d. b d a c) (\\b. b (b (\\d. b)))".as_slice());
    Ok(())
}

fn identity(alloc: Global) -> Result<Box<Term>, Fail>
    ensures { IfOk result (λ term. tree_of term.value ≡ lam (var 0)) }
{
    let variable = Box::new(alloc, Term::Var(0))?;
    Ok(Box::new(alloc, Term::Lam(variable))?)
}

/// `(\x. x) (\y. y)`
fn two_identities(alloc: Global) -> Result<Box<Term>, Fail>
    ensures { IfOk result (λ term. tree_of term.value ≡ app (lam (var 0)) (lam (var 0))) }
{
    let function = identity(alloc)?;
    let argument = identity(alloc)?;
    Ok(Box::new(alloc, Term::App(function, argument))?)
}

/// The size and the depth of a term, and what equals it.
fn compared(alloc: Global) -> Result<String, Fail> {
    let first = two_identities(alloc)?;
    let second = two_identities(alloc)?;
    let (size, depth) = (size(&first), depth(&first));
    let same = alpha_eq(&first, &second);
    let other = alpha_eq(&first, &Term::Free(0));
    let free = alpha_eq(&Term::Free(0), &Term::Free(1));
    Ok(format!(in alloc; "{size} {depth} {same} {other} {free}")?)
}

#[test]
fn terms_are_compared_as_trees(rt: HostRuntime) -> Result<(), Fail> {
    let text = compared(rt.alloc())?;
    assert!(rt;
        text.as_bytes() == b"5 3 true false false".as_slice(),
        "{text}"
    );
    Ok(())
}

/// The generator's text for a number if it is short, its length, or why there is none.
fn made(alloc: Global, k: u32) -> Result<String, Fail> {
    match make(alloc, k) {
        Ok(text) if text.len() < 100 => Ok(String::from_utf8(text).ok().ok_or("no text")?),
        Ok(text) => {
            let length = text.len();
            Ok(format!(in alloc; "{length}\n")?)
        }
        Err(fault) => Ok(format!(in alloc; "{fault:?}\n")?),
    }
}

#[test]
fn makes_terms_by_doubling(rt: HostRuntime) -> Result<(), Fail> {
    let mut text = String::new(rt.alloc());
    for k in [0, 1, 6, 10, 11] {
        let made = made(rt.alloc(), k)?;
        text.push_str(&made)?;
    }
    assert!(rt;
        text.as_bytes()
            == b"((\\x. x x) (\\y. y))\n(((\\x. x x) (\\y. y)) ((\\x. x x) (\\y. y)))\n\
            1406\n22526\nTooLarge\n"
                .as_slice(),
        "{text}"
    );
    Ok(())
}
