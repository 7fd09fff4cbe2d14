//! Decoders: each says whether a term encodes a value in one way, and which.
//!
//! Terms aren't deep, so the calls recurse on them.

ghost use Rattle.std.specs.Prelude.{◌≡◌, ◌+◌, ◌<◌, ◌^◌, length, is_some, IfSome};
ghost use Rattle.std.specs.Option.{option_map};
ghost use Rattle.ol_term.specs.Trees.{tree_of, depth, is_below};
ghost use Rattle.ol_decoding.specs.Decoders.{is_var, boolean_at, boolean_of, iterations, church_of, items_of, list_of, pair_of, scott_of};

use ol_term::Term;

fn is_var(term: &Term, k: u32) -> bool
    ensures { result ≡ is_var k (tree_of term.now) }
{
    matches!(term, Term::Var(j) if *j == k)
}

// Whether each variable of a term is bound within it, or by one of so many abstractions round it.
fn is_closed(term: &Term, round: u32) -> bool
    requires shallow { round + depth (tree_of term.now) < 2 ^ 32 }
    ensures { result ≡ is_below round (tree_of term.now) }
{
    match term {
        Term::Var(k) => *k < round,
        Term::Free(_) => true,
        Term::Lam(body) => is_closed(body, round + 1),
        Term::App(function, argument) => is_closed(function, round) && is_closed(argument, round),
    }
}

fn boolean_at(k: u32) -> Option<bool>
    ensures { result ≡ boolean_at k }
{
    match k {
        0 => Some(false),
        1 => Some(true),
        _ => None,
    }
}

/// The truth value that a term encodes.
pub fn boolean(term: &Term) -> Option<bool>
    ensures { result ≡ boolean_of (tree_of term.now) }
{
    match term {
        Term::Lam(first) => match &**first {
            Term::Lam(body) => match &**body {
                Term::Var(k) => boolean_at(*k),
                _ => None,
            },
            _ => None,
        },
        _ => None,
    }
}

// How many times variable 1 is applied to variable 0.
fn iterations(body: &Term) -> Option<u32>
    requires shallow { depth (tree_of body.now) < 2 ^ 32 }
    ensures is { result ≡ iterations (tree_of body.now) }
    ensures few { IfSome result (λ n. n < depth (tree_of body.now)) }
{
    match body {
        Term::Var(k) => { if *k == 0 { Some(0) } else { None } }
        Term::App(function, inside) => {
            if !is_var(function, 1) {
                return None;
            }
            match iterations(inside) {
                Some(times) => Some(times + 1),
                None => None,
            }
        }
        _ => None,
    }
}

/// The number whose Church numeral a term is.
pub fn church(term: &Term) -> Option<u32>
    requires shallow { depth (tree_of term.now) < 2 ^ 32 }
    ensures { result ≡ church_of (tree_of term.now) }
{
    match term {
        Term::Lam(first) => match &**first {
            Term::Lam(body) => iterations(body),
            _ => None,
        },
        _ => None,
    }
}

/// How many closed terms variable 1 puts in front of variable 0.
pub fn item_count(body: &Term) -> Option<u32>
    requires shallow { depth (tree_of body.now) < 2 ^ 32 }
    ensures is { result ≡ option_map (λ ts. length ts) (items_of (tree_of body.now)) }
    ensures few { IfSome result (λ n. n < depth (tree_of body.now)) }
{
    match body {
        Term::Var(k) => { if *k == 0 { Some(0) } else { None } }
        Term::App(step, rest) => match &**step {
            Term::App(function, item) => {
                if !is_var(function, 1) || !is_closed(item, 0) {
                    return None;
                }
                match item_count(rest) {
                    Some(count) => Some(count + 1),
                    None => None,
                }
            }
            _ => None,
        },
        _ => None,
    }
}

/// How many items the list has that a term encodes.
pub fn list(term: &Term) -> Option<u32>
    requires shallow { depth (tree_of term.now) < 2 ^ 32 }
    ensures { result ≡ option_map (λ ts. length ts) (list_of (tree_of term.now)) }
{
    match term {
        Term::Lam(first) => match &**first {
            Term::Lam(body) => item_count(body),
            _ => None,
        },
        _ => None,
    }
}

/// Whether a term encodes a pair.
pub fn is_pair(term: &Term) -> bool
    requires shallow { depth (tree_of term.now) < 2 ^ 32 }
    ensures { result ≡ is_some (pair_of (tree_of term.now)) }
{
    match term {
        Term::Lam(body) => match &**body {
            Term::App(left, second) => match &**left {
                Term::App(function, first) => {
                    is_var(function, 0) && is_closed(first, 0) && is_closed(second, 0)
                }
                _ => false,
            },
            _ => false,
        },
        _ => false,
    }
}

/// The number whose Scott numeral a term is.
pub fn scott(term: &Term) -> Option<u32>
    requires shallow { depth (tree_of term.now) < 2 ^ 32 }
    ensures is { result ≡ scott_of (tree_of term.now) }
    ensures few { IfSome result (λ n. n < depth (tree_of term.now)) }
{
    match term {
        Term::Lam(first) => match &**first {
            Term::Lam(body) => match &**body {
                Term::Var(k) => { if *k == 1 { Some(0) } else { None } }
                Term::App(function, before) => {
                    if !is_var(function, 0) {
                        return None;
                    }
                    match scott(before) {
                        Some(number) => Some(number + 1),
                        None => None,
                    }
                }
                _ => None,
            },
            _ => None,
        },
        _ => None,
    }
}
