//! How many beta steps lead from a term to another.
//!
//! The reductions of a term are gone through: those of one step, then those of at most two, and so
//! on up to four; each time at most 1,000. The calls are as deep as the term, or as the steps are
//! many.

ghost use Rattle.std.specs.Prelude.{◌≡◌, ◌≢◌, ℕ, ◌+◌, ◌<◌, ◌^◌, ◌++◌, ◌∷◌, [], true, length, if◌then◌else◌, IsSome, IfOk, OnOk};
ghost use Rattle.ol_term.specs.Trees.{tree_of, depth, is_below};
ghost use Rattle.ol_beta.specs.Beta.{contracted, IsWithin};
ghost use Rattle.ol_beta.specs.Leftmost.{is_abstraction};
ghost use Rattle.ol_derivations.specs.Steps.{IsNoStep};
ghost use Rattle.ol_derivations.specs.Reductions.{redexes};
ghost use Rattle.ol_derivations.specs.Searches.{placed, is_cut, first_found, IsSearched, IsSearchedBehind, AreStepsFound};

use crate::stepping::step_found;
use ol_beta::{Address, BetaFault, beta};
use ol_limits::NoMemory;
use ol_term::Term;
use std::alloc::Global;

// The most steps, and the most reductions, that are looked at.
const MOST_STEPS: u32 = 5;

const MOST_REDUCTIONS: u32 = 1000;

/// What a search for a reduction of so many steps finds.
#[derive(Clone, Copy)]
enum Search {
    /// There is one.
    Found,
    /// There is none.
    Missed,
    /// There are too many reductions, or a term is too large.
    Cut,
}

fn is_abstraction(term: &Term) -> bool
    ensures { result ≡ is_abstraction (tree_of term.now) }
{
    matches!(term, Term::Lam(_))
}

// Adds the address of an application, if its function is an abstraction.
fn put_here(
    alloc: Global,
    function: &Term,
    at: &[u8],
    found: &mut Vec<Address>,
) -> Result<(), NoMemory>
    requires few { length at.now < 2 ^ 32 }
    ensures { OnOk result (found.new.items ≡ found.old.items
        ++ (if is_abstraction (tree_of function.now) then at.now ∷ [] else [])) }
{
    if !is_abstraction(function) {
        return Ok(());
    }
    let moves = Vec::from_slice(alloc, at)?;
    found.push(Address::of(moves))?;
    Ok(())
}

// Adds the addresses of the redexes of a part that stands at an address, in preorder.
fn put_redexes(
    alloc: Global,
    part: &Term,
    at: &mut Vec<u8>,
    found: &mut Vec<Address>,
) -> Result<(), NoMemory>
    requires few { length at.old.items + depth (tree_of part.now) < 2 ^ 32 }
    ensures at { OnOk result (at.new.items ≡ at.old.items) }
    ensures found { OnOk result (found.new.items
        ≡ found.old.items ++ placed at.old.items (redexes (tree_of part.now))) }
{
    match part {
        Term::Var(_) => Ok(()),
        Term::Free(_) => Ok(()),
        Term::Lam(body) => {
            at.push(0)?;
            put_redexes(alloc, body, at, found)?;
            at.pop();
            Ok(())
        }
        Term::App(function, argument) => {
            put_here(alloc, function, at, found)?;
            at.push(1)?;
            put_redexes(alloc, function, at, found)?;
            at.pop();
            at.push(2)?;
            put_redexes(alloc, argument, at, found)?;
            at.pop();
            Ok(())
        }
    }
}

// The addresses of all redexes, in preorder.
fn redexes(alloc: Global, t: &Term) -> Result<Vec<Address>, NoMemory>
    requires shallow { depth (tree_of t.now) < 2 ^ 32 }
    ensures { IfOk result (λ found. found.items ≡ redexes (tree_of t.now)) }
{
    let mut at = Vec::new(alloc);
    let mut found = Vec::new(alloc);
    put_redexes(alloc, t, &mut at, &mut found)?;
    Ok(found)
}

fn is_cut(search: Search) -> bool
    ensures { result ≡ is_cut search }
{
    matches!(search, Search::Cut)
}

// What is found by one search or by another.
fn first_found(first: Search, second: Search) -> Search
    ensures { result ≡ first_found first second }
{
    match first {
        Search::Found => Search::Found,
        Search::Missed => second,
        Search::Cut => Search::Cut,
    }
}

// Whether one step leads from t to u. No reduction is taken for it.
fn seek_step(alloc: Global, t: &Term, u: &Term) -> Result<Search, NoMemory>
    requires shallow { depth (tree_of t.now) < 2 ^ 32 }
    ensures { IfOk result (λ r. (left : ℕ) →
        IsSearched (tree_of t.now) (tree_of u.now) 0 left left r) }
{
    let found = step_found(alloc, t, u)?;
    if found.is_some() {
        return Ok(Search::Found);
    }
    Ok(Search::Missed)
}

// Whether one step more than n leads from t to u. Each reduction of at most n steps takes one of
// those that are left.
#[cycle(seeking)]
fn seek(alloc: Global, t: &Term, u: &Term, n: u32, left: &mut u32) -> Result<Search, NoMemory>
    requires within { IsWithin (tree_of t.now) }
    requires bound { is_below 0 (tree_of t.now) ≡ true }
    ensures { IfOk result (IsSearched (tree_of t.now) (tree_of u.now) n left.old left.new) }
{
    if n == 0 {
        let found = seek_step(alloc, t, u)?;
        return Ok(found);
    }
    let all = redexes(alloc, t)?;
    let mut result = Search::Missed;
    for k in 0..all.len() {
        let found = seek_behind(alloc, t, u, &all[k], n - 1, left)?;
        if is_cut(found) {
            return Ok(Search::Cut);
        }
        result = first_found(result, found);
    }
    Ok(result)
}

// The same of the term after a step, which is looked at itself.
#[cycle(seeking)]
fn seek_behind(
    alloc: Global,
    t: &Term,
    u: &Term,
    at: &Address,
    n: u32,
    left: &mut u32,
) -> Result<Search, NoMemory>
    requires within { IsWithin (tree_of t.now) }
    requires bound { is_below 0 (tree_of t.now) ≡ true }
    requires redex { IsSome (contracted (tree_of t.now) at.now) }
    ensures { IfOk result (IsSearchedBehind (contracted (tree_of t.now) at.now) (tree_of u.now) n
        left.old left.new) }
{
    if *left == 0 {
        return Ok(Search::Cut);
    }
    *left -= 1;
    match beta(alloc, t, at) {
        Ok(next) => {
            let found = seek(alloc, &next, u, n, left)?;
            Ok(found)
        }
        Err(fault) => match fault {
            BetaFault::NoMemory => Err(NoMemory),
            BetaFault::Past { .. } => Ok(Search::Cut),
            BetaFault::NotRedex => unreachable!(),
        },
    }
}

/// The least number of beta steps that lead from t to u, which is more than one. It is told if it
/// is at most 5, if t has at most 1,000 reductions of fewer steps, the empty one not counted, and
/// if each of these leads to a term within bounds. None comes exactly where no number is told.
pub fn steps_between(alloc: Global, t: &Term, u: &Term) -> Result<Option<u32>, NoMemory>
    requires within { IsWithin (tree_of t.now) }
    requires bound { is_below 0 (tree_of t.now) ≡ true }
    requires no_step { IsNoStep (tree_of t.now) (tree_of u.now) }
    requires different { tree_of t.now ≢ tree_of u.now }
    ensures { IfOk result (AreStepsFound (tree_of t.now) (tree_of u.now)) }
{
    for n in 1..MOST_STEPS {
        let mut left = MOST_REDUCTIONS;
        match seek(alloc, t, u, n, &mut left)? {
            Search::Found => return Ok(Some(n + 1)),
            Search::Missed => {}
            Search::Cut => return Ok(None),
        }
    }
    Ok(None)
}
