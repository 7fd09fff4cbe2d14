//! The lets at the front of a term.

ghost use Rattle.std.specs.Prelude.{◌≡◌, ◌+◌, ◌-◌, ◌<◌, ◌^◌, ◌++◌, ◌≤◌, ◌∷◌, [], true, false, length, not, take, ◌&&◌, IfNone, IfOk, IfSome, OnOk, Some};
ghost use Rattle.ol_term.specs.Trees.{tree_of, is_below, is_named_below, term_size};
ghost use Rattle.ol_term.specs.BinderNames.{is_among};
ghost use Rattle.ol_beta.specs.Beta.{contracted, IsWithin};
ghost use Rattle.ol_steps.specs.Trees.{binders_in};
ghost use Rattle.ol_steps.specs.ValueTrees.{rows_of};
ghost use Rattle.ol_steps.specs.Words.{with_words};
ghost use Rattle.ol_steps.specs.Lets.{is_closed, is_let_at, no_more, let_names, lets, names_of_lets, row_if, value_of};

use crate::contracting::contract;
use crate::folding::copy;
use crate::trees::{BinderTree, copied, names_in_argument};
use crate::wording::add_words;
use ol_beta::{Address, BetaFault, beta};
use ol_limits::NoMemory;
use ol_term::{Names, Term};
use std::alloc::Global;

/// A name, the value for which it stands, and the names of the value's binders.
#[derive(Drop)]
pub struct NamedValue {
    pub name: Vec<u8>,
    pub value: Term,
    pub binders: BinderTree,
}

/// The values of names, which are numbered from `first` on: first those of `own` lets, and then
/// those of words that are several names of lets.
#[derive(Drop)]
pub struct Lets {
    pub first: u32,
    pub rows: Vec<NamedValue>,
    pub own: usize,
    ghost few: { first + length rows.items < 2 ^ 32 },
    ghost within: { own ≤ length rows.items },
}

fn is_closed(term: &Term) -> bool
    ensures { result ≡ is_closed (tree_of term.now) }
{
    match term {
        Term::Var(_) => true,
        Term::Free(_) => false,
        Term::Lam(body) => is_closed(body),
        Term::App(function, argument) => is_closed(function) && is_closed(argument),
    }
}

fn value_of(term: &Term) -> &Term
    ensures { tree_of result.now ≡ value_of (tree_of term.now) }
{
    match term {
        Term::App(_, argument) => argument,
        _ => term,
    }
}

// The name of the outermost of so many lets, and what stands behind it.
fn outermost<'a>(count: u32, binders: &'a BinderTree) -> Option<(&'a [u8], &'a BinderTree)>
    ensures none { IfNone result (let_names count (binders_in binders.now) ≡ []) }
    ensures some { IfSome result (λ r. let_names count (binders_in binders.now)
        ≡ r.0.now ∷ let_names (count - 1) (binders_in r.1.now)) }
    ensures counted { IfSome result (λ r. 0 < count) }
{
    if count == 0 {
        return None;
    }
    let BinderTree::Parts(function, _) = binders else {
        return None;
    };
    match &**function {
        BinderTree::Binder(name, inner) => Some((name, inner)),
        _ => None,
    }
}

// Whether a name is that of one of the lets.
fn is_let_name(count: u32, binders: &BinderTree, name: &[u8]) -> bool
    ensures { result ≡ is_among (let_names count (binders_in binders.now)) name.now }
{
    match outermost(count, binders) {
        None => false,
        Some((other, inner)) => other == name || is_let_name(count - 1, inner, name),
    }
}

pub fn is_name(names: &Names, name: &[u8]) -> bool
    ensures { result ≡ is_among names.now name.now }
{
    let Some(_place) = names.find(name) else {
        return false;
    };
    true
}

// Whether a name is a free name, or that of one of the later lets.
#[tactic(auto, using(crate::proofs::Among::among_both))]
fn is_taken(names: &Names, later: u32, inner: &BinderTree, name: &[u8]) -> bool
    ensures { result
        ≡ is_among (names.now ++ let_names later (binders_in inner.now)) name.now }
{
    is_name(names, name) || is_let_name(later, inner, name)
}

// Whether the outermost let counts, where these lets stand behind it.
fn is_kept(names: &Names, later: u32, inner: &BinderTree, name: &[u8], term: &Term) -> bool
    ensures { result ≡ (is_closed (value_of (tree_of term.now))
        && not (is_among (names.now ++ let_names later (binders_in inner.now)) name.now)) }
{
    is_closed(value_of(term)) && !is_taken(names, later, inner, name)
}

// The term behind the outermost let, where it is one that steps are made from.
fn behind(alloc: Global, term: &Term) -> Result<Option<Term>, NoMemory>
    requires bound { is_below 0 (tree_of term.now) ≡ true }
    requires within { IsWithin (tree_of term.now) }
    ensures none { IfOk result (λ r. IfNone r (no_more (contracted (tree_of term.now) []))) }
    ensures some { IfOk result (λ r. IfSome r (λ u.
        contracted (tree_of term.now) [] ≡ Some (tree_of u))) }
    ensures bound { IfOk result (λ r. IfSome r (λ u. is_below 0 (tree_of u) ≡ true)) }
    ensures within { IfOk result (λ r. IfSome r (λ u. IsWithin (tree_of u))) }
{
    let root = Address::of(Vec::new(alloc));
    match beta(alloc, term, &root) {
        Ok(next) => Ok(Some(next)),
        Err(fault) => match fault {
            BetaFault::NotRedex => Ok(None),
            BetaFault::Past { .. } => Ok(None),
            BetaFault::NoMemory => Err(NoMemory),
        },
    }
}

// Appends a row that counts, and its name.
pub fn add_if(
    alloc: Global,
    names: &mut Names,
    rows: &mut Vec<NamedValue>,
    kept: bool,
    name: &[u8],
    value: &Term,
    binders: &BinderTree,
) -> Result<(), NoMemory>
    requires new { kept ≡ true → is_among names.old name.now ≡ false }
    ensures names { OnOk result (names.new ≡ names.old ++ names_of_lets
        (row_if kept name.now (tree_of value.now) (binders_in binders.now))) }
    ensures rows { OnOk result (rows_of rows.new.items ≡ rows_of rows.old.items
        ++ row_if kept name.now (tree_of value.now) (binders_in binders.now)) }
{
    if !kept {
        return Ok(());
    }
    if names.len() == u32::MAX {
        return Err(NoMemory);
    }
    let row = NamedValue {
        name: Vec::from_slice(alloc, name)?,
        value: copy(alloc, value)?,
        binders: copied(alloc, binders)?,
    };
    names.add(name)?;
    rows.push(row)?;
    Ok(())
}

// Appends the lets, the last one first, and their names. `front` has the names of the lets, and
// `binders` those of the binders of the term.
fn gather(
    alloc: Global,
    names: &mut Names,
    rows: &mut Vec<NamedValue>,
    count: u32,
    front: &BinderTree,
    term: &Term,
    binders: &BinderTree,
) -> Result<(), NoMemory>
    requires bound { is_below 0 (tree_of term.now) ≡ true }
    requires within { IsWithin (tree_of term.now) }
    ensures names { OnOk result (names.new ≡ names.old ++ names_of_lets
        (lets names.old (let_names count (binders_in front.now)) (tree_of term.now)
        (binders_in binders.now))) }
    ensures rows { OnOk result (rows_of rows.new.items ≡ rows_of rows.old.items
        ++ lets names.old (let_names count (binders_in front.now)) (tree_of term.now)
        (binders_in binders.now)) }
{
    let Some((name, inner)) = outermost(count, front) else {
        return Ok(());
    };
    let kept = is_kept(names, count - 1, inner, name, term);
    let own = names_in_argument(binders);
    let Some(next) = behind(alloc, term)? else {
        add_if(alloc, names, rows, kept, name, value_of(term), own)?;
        return Ok(());
    };
    let after = contract(alloc, term, binders, &[])?;
    gather(alloc, names, rows, count - 1, inner, &next, &after)?;
    add_if(alloc, names, rows, kept, name, value_of(term), own)?;
    Ok(())
}

/// The lets at the front of a term, of which there are `count` where the binders have these names,
/// as far as the term after them is one that steps are made from. Their names are appended to the
/// free names, the last let's first, and after these the words that are several of their names. A
/// let counts if its value is closed, where those of the lets before it are put in, and if its name
/// is no free name and no later let's. The binders are meant to have the shape of the term
/// (`Fits`). No clause needs it, but if they haven't, a name may stand for another part of the
/// term. `NoMemory`: no memory was found.
pub fn lets_of(
    alloc: Global,
    names: &mut Names,
    count: u32,
    binders: &BinderTree,
    term: &Term,
) -> Result<Lets, NoMemory>
    requires bound { is_below 0 (tree_of term.now) ≡ true }
    requires within { IsWithin (tree_of term.now) }
    ensures first { IfOk result (λ l. l.first ≡ length names.old) }
    ensures names { OnOk result (names.new ≡ names.old ++ names_of_lets (with_words names.old
        (lets names.old (let_names count (binders_in binders.now)) (tree_of term.now)
        (binders_in binders.now)))) }
    ensures rows { IfOk result (λ l. rows_of l.rows.items ≡ with_words names.old
        (lets names.old (let_names count (binders_in binders.now)) (tree_of term.now)
        (binders_in binders.now))) }
    ensures own { IfOk result (λ l. rows_of (take l.own l.rows.items)
        ≡ lets names.old (let_names count (binders_in binders.now)) (tree_of term.now)
        (binders_in binders.now)) }
{
    let first = names.len();
    let mut rows = Vec::new(alloc);
    gather(alloc, names, &mut rows, count, binders, term, binders)?;
    let own = rows.len();
    let mut words = Vec::new(alloc);
    add_words(alloc, names, &mut words, &rows, &rows)?;
    rows.append(&mut words)?;
    names.are_different();
    Ok(Lets { first, rows, own })
}

/// Whether the redex at an address is that of a let at the front, where so many of them are left.
pub fn is_let_at(left: u32, at: &[u8]) -> bool
    ensures { result ≡ is_let_at left at.now }
{
    if left == 0 {
        return false;
    }
    match at.split_first() {
        None => true,
        Some((first, behind)) => match behind.split_first() {
            None => false,
            Some((second, rest)) => *first == 1 && *second == 0 && is_let_at(left - 1, rest),
        },
    }
}
