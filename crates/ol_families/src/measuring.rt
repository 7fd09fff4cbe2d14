//! How many letters labels have.
//!
//! The calls recurse as deep as the term is.

ghost use Rattle.std.specs.Prelude.{◌≡◌, ◌+◌, ◌≤◌, ◌<◌, ◌^◌, [], drop, length};
ghost use Rattle.ol_term.specs.Trees.{term_size, depth};
ghost use Rattle.ol_beta.specs.Measures.{places_of};
ghost use Rattle.ol_limits.specs.Limits.{most_depth, most_size};
ghost use Rattle.ol_families.specs.Letters.{most_letters};
ghost use Rattle.ol_families.specs.Held.{held_of, bare, contracted, held_letters};
ghost use Rattle.ol_families.specs.Steps.{AreLetters, most_grown};

use crate::labelling::LabelledTerm;

/// How many letters are followed: of the labels of a term, and of all degrees.
pub const MOST_LETTERS: u64 = 10_000_000;

/// How many places variable `d` has in a term.
#[tactic(auto, using(ol_beta::proofs::Places::places_small))]
fn places_of(term: &LabelledTerm, d: u32) -> u64
    requires few { term_size (bare (held_of term.now)) < 2 ^ 64 }
    requires shallow { d + depth (bare (held_of term.now)) < 2 ^ 32 }
    ensures { result ≡ places_of d (bare (held_of term.now)) }
{
    match term {
        LabelledTerm::Var(k, _) => { if *k == d { 1 } else { 0 } }
        LabelledTerm::Free(_, _) => 0,
        LabelledTerm::Lam(body, _) => places_of(body, d + 1),
        LabelledTerm::App(function, argument, _) => {
            places_of(function, d) + places_of(argument, d)
        }
    }
}

/// How many letters the labels of a term have.
pub fn letters_of(term: &LabelledTerm) -> u64
    requires few { held_letters (held_of term.now) ≤ most_letters }
    ensures { result ≡ held_letters (held_of term.now) }
{
    match term {
        LabelledTerm::Var(_, w) => w.len() as u64,
        LabelledTerm::Free(_, w) => w.len() as u64,
        LabelledTerm::Lam(body, w) => w.len() as u64 + letters_of(body),
        LabelledTerm::App(function, argument, w) => {
            w.len() as u64 + letters_of(function) + letters_of(argument)
        }
    }
}

// How many letters the labels have after a step at the root: those of the body and of the
// application, one more, and for each place those of the argument and one more.
fn letters_here(term: &LabelledTerm) -> u64
    requires few { held_letters (held_of term.now) ≤ most_letters }
    requires small { term_size (bare (held_of term.now)) ≤ most_size }
    requires shallow { depth (bare (held_of term.now)) ≤ most_depth }
    ensures letters { AreLetters (contracted 0 (held_of term.now) []) result }
    ensures bound { result ≤ held_letters (held_of term.now) + most_grown }
{
    match term {
        LabelledTerm::App(function, argument, w) => match &**function {
            LabelledTerm::Lam(body, _) => {
                let each = letters_of(argument) + 1;
                w.len() as u64 + 1 + letters_of(body) + places_of(body, 0) * each
            }
            _ => 0,
        },
        _ => 0,
    }
}

/// How many letters the labels have after a step at the address whose moves are those from `k` on,
/// where a redex is there. Nothing is built.
pub fn letters_after(term: &LabelledTerm, moves: &[u8], k: usize) -> u64
    requires place { k ≤ length moves.now }
    requires few { held_letters (held_of term.now) ≤ most_letters }
    requires small { term_size (bare (held_of term.now)) ≤ most_size }
    requires shallow { depth (bare (held_of term.now)) ≤ most_depth }
    ensures letters { AreLetters (contracted 0 (held_of term.now) (drop k moves.now)) result }
    ensures bound { result ≤ held_letters (held_of term.now) + most_grown }
{
    if k == moves.len() {
        return letters_here(term);
    }
    match term {
        LabelledTerm::Lam(body, w) if moves[k] == 0 => {
            w.len() as u64 + letters_after(body, moves, k + 1)
        }
        LabelledTerm::App(function, argument, w) if moves[k] == 1 => {
            w.len() as u64 + letters_after(function, moves, k + 1) + letters_of(argument)
        }
        LabelledTerm::App(function, argument, w) if moves[k] == 2 => {
            w.len() as u64 + letters_of(function) + letters_after(argument, moves, k + 1)
        }
        _ => 0,
    }
}
