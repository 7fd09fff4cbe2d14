//! Leftmost reduction of a labelled term, and the number of its families.

ghost use Rattle.std.specs.Prelude.{◌≡◌, ◌≤◌, [], length, true, IsSome, IfOk};
ghost use Rattle.ol_term.specs.Trees.{tree_of, is_below};
ghost use Rattle.ol_beta.specs.Beta.{IsWithin};
ghost use Rattle.ol_families.specs.Counts.{IsFamilyCount};
ghost use Rattle.ol_families.specs.Held.{held_of, bare, contracted, held_letters, lettered};
ghost use Rattle.ol_families.specs.Letters.{most_letters};
ghost use Rattle.ol_families.specs.Steps.{IsStepped};
ghost use Rattle.ol_families.specs.Tables.{degrees_of, IsKnown};

use crate::contracting::{contract_at, degree_at};
use crate::degrees::Degrees;
use crate::labelling::{LabelledTerm, plain, with_letters};
use crate::measuring::{MOST_LETTERS, letters_after};
use ol_beta::{Address, BetaFault, beta, redex};
use ol_limits::NoMemory;
use ol_term::Term;
use std::alloc::Global;

/// A number, and whether the count has ended. If the count was cut, there may be more.
#[derive(Clone, Copy, Debug, PartialEq, Eq)]
pub struct Count {
    pub number: u32,
    pub ended: bool,
}

/// A labelled term on the way, the different degrees so far, and how many letters the degrees of
/// all steps have.
#[derive(Drop)]
pub struct Labelling {
    pub term: LabelledTerm,
    pub degrees: Degrees,
    pub written: u64,
}

impl Labelling {
    // A term each of whose subterms has a letter of its own.
    fn new(alloc: Global, term: &Term) -> Result<Labelling, NoMemory>
        requires { IsWithin (tree_of term.now) }
        ensures term { IfOk result (λ l. held_of l.term ≡ lettered 0 (tree_of term.now)) }
        ensures degrees { IfOk result (λ l. l.degrees ≡ []) }
        ensures written { IfOk result (λ l. l.written ≡ 0) }
    {
        let mut next = 0;
        let labelled = with_letters(alloc, term, &mut next)?;
        Ok(Labelling {
            term: labelled,
            degrees: Degrees::new(alloc),
            written: 0,
        })
    }

    // A step at an address, where a redex is. False comes exactly where the degrees or the labels
    // would have too many letters.
    fn step(&mut self, alloc: Global, moves: &[u8]) -> Result<bool, NoMemory>
        requires small { IsWithin (bare (held_of self.old.term)) }
        requires bound { is_below 0 (bare (held_of self.old.term)) ≡ true }
        requires few { held_letters (held_of self.old.term) ≤ most_letters }
        requires written { self.old.written ≤ most_letters }
        requires known { IsKnown (length (degrees_of self.old.degrees)) (held_of self.old.term) }
        requires redex { IsSome (contracted 0 (held_of self.old.term) moves.now) }
        ensures { IfOk result (λ on. IsStepped moves.now self.old self.new on) }
    {
        let Some(row) = degree_at(alloc, &self.term, moves, 0)? else {
            unreachable!()
        };
        if row.len() as u64 > MOST_LETTERS - self.written {
            return Ok(false);
        }
        if letters_after(&self.term, moves, 0) > MOST_LETTERS {
            return Ok(false);
        }
        self.written += row.len() as u64;
        let degree = self.degrees.note(row)?;
        let found = contract_at(alloc, &mut self.term, moves, 0, degree)?;
        prove!(found);
        Ok(true)
    }
}

// The moves of an address.
fn moves_of(alloc: Global, at: &Address) -> Result<Vec<u8>, NoMemory>
    ensures { IfOk result (λ moves. moves.items ≡ at.now) }
{
    let mut moves: Vec<u8> = Vec::with_capacity(alloc, at.len() as usize)?;
    for k in 0..at.len() {
        let Some(to) = at.get(k) else { unreachable!() };
        moves.push(to)?;
    }
    Ok(moves)
}

/// How many families of redexes leftmost reduction of a term contracts on its way to the normal
/// form, by at most `most` steps (Lévy, Réductions correctes et optimales dans le lambda-calcul,
/// 1978). Each subterm of the term has a letter of its own as its label; the labels of a step's
/// term are made of them, and there are as many families as different degrees. The degree of a
/// redex is the label of its abstraction.
///
/// The count has ended exactly if the reduction reaches the normal form. The count is cut if a
/// redex is left after `most` steps; or before a step that leads to a term of more than 100,000
/// constructors, more than 1,000 of them nested, or labels of more than 10,000,000 letters; or
/// before a step with which the degrees have more than 10,000,000 letters. The number is that of
/// the families of the steps before the cut. An overlined or underlined word counts as one letter.
///
/// The term itself has at most 100,000 constructors, at most 1,000 of them one within another, and
/// each `Var` in it is bound. `NoMemory`: no memory was found.
pub fn families(alloc: Global, term: &Term, most: u32) -> Result<Count, NoMemory>
    requires within { IsWithin (tree_of term.now) }
    requires bound { is_below 0 (tree_of term.now) ≡ true }
    ensures { IfOk result (λ c. IsFamilyCount (tree_of term.now) most c.number c.ended) }
{
    let mut labelling = Labelling::new(alloc, term)?;
    let mut here = plain(alloc, &labelling.term)?;
    let mut made: u32 = 0;
    'steps: loop {
        let number = labelling.degrees.len();
        let Some(at) = redex(alloc, &here)? else {
            return Ok(Count {
                number,
                ended: true,
            });
        };
        let cut = Count {
            number,
            ended: false,
        };
        if made == most {
            return Ok(cut);
        }
        match beta(alloc, &here, &at) {
            Ok(next) => {
                let moves = moves_of(alloc, &at)?;
                let on = labelling.step(alloc, &moves)?;
                if !on {
                    return Ok(cut);
                }
                here = next;
                made += 1;
            }
            Err(fault) => match fault {
                BetaFault::Past { .. } => return Ok(cut),
                BetaFault::NotRedex => unreachable!(),
                BetaFault::NoMemory => return Err(NoMemory),
            },
        }
    }
}
