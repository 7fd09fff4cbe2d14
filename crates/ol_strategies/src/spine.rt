//! The search of head and of weak head reduction.

ghost use Rattle.std.specs.Prelude.{◌≡◌, ◌≤◌, ◌++◌, ◌∷◌, [], IfOk, OnOk};
ghost use Rattle.ol_term.specs.Trees.{tree_of, depth};
ghost use Rattle.ol_beta.specs.Leftmost.{is_abstraction};
ghost use Rattle.ol_strategies.specs.Searches.{spine_redex};

use ol_beta::Address;
use ol_limits::NoMemory;
use ol_term::Term;
use std::alloc::Global;

pub fn is_abstraction(term: &Term) -> bool
    ensures { result ≡ is_abstraction (tree_of term.now) }
{
    matches!(term, Term::Lam(_))
}

pub fn add_move(moves: &mut Vec<u8>, to: u8) -> Result<(), NoMemory>
    ensures { OnOk result (moves.new.items ≡ moves.old.items ++ to ∷ []) }
{
    moves.push(to)?;
    Ok(())
}

/// The address of the head redex of a term, which is looked for below abstractions or not.
pub fn spine_redex(alloc: Global, below: bool, t: &Term) -> Result<Option<Address>, NoMemory>
    requires shallow { depth (tree_of t.now) ≤ 4294967295 }
    ensures { IfOk result (λ r. r ≡ spine_redex below (tree_of t.now)) }
{
    let mut moves: Vec<u8> = Vec::new(alloc);
    let mut part = t;
    'parts: loop {
        match part {
            Term::App(function, _) => {
                if is_abstraction(function) {
                    return Ok(Some(Address::of(moves)));
                }
                add_move(&mut moves, 1)?;
                part = function;
            }
            Term::Lam(body) => {
                if !below {
                    return Ok(None);
                }
                add_move(&mut moves, 0)?;
                part = body;
            }
            Term::Var(_) | Term::Free(_) => return Ok(None),
        }
    }
}
