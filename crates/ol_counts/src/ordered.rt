//! The steps of an order of reduction, one after another.

ghost use Rattle.std.specs.Prelude.{◌≡◌, ◌<◌, ◌^◌, true, IfOk, option_map, unwrap_or};
ghost use Rattle.ol_term.specs.Trees.{tree_of, is_below, term_size};
ghost use Rattle.ol_counts.specs.Ordered.{IsOrderCount};

use ol_beta::{BetaFault, beta};
use ol_families::Count;
use ol_limits::{MOST_DEPTH, MOST_SIZE, NoMemory};
use ol_strategies::{Order, redex};
use ol_term::{Term, depth, size};
use std::alloc::Global;

// The last term, where the first one comes before any step.
fn last<'a>(first: &'a Term, later: &'a Option<Term>) -> &'a Term
    ensures { tree_of result.now
        ≡ unwrap_or (option_map tree_of later.now) (tree_of first.now) }
{
    match later {
        Some(term) => term,
        None => first,
    }
}

/// How many steps an order of reduction makes from a term, at most `most`, and whether the reduction
/// has ended.
///
/// The count is cut if a redex is left after `most` steps, or if the term itself, or the result of a
/// step, has more than 100,000 constructors or more than 1,000 that are nested. That step is counted
/// too.
///
/// Each `Var` in the term is bound, and the term has fewer than 2^64 constructors. `NoMemory`: no
/// memory was found.
pub fn steps_to_end(alloc: Global, order: Order, term: &Term, most: u32) -> Result<Count, NoMemory>
    requires few { term_size (tree_of term.now) < 2 ^ 64 }
    requires bound { is_below 0 (tree_of term.now) ≡ true }
    ensures { IfOk result (λ c.
        IsOrderCount order (tree_of term.now) most c.number c.ended) }
{
    if size(term) > MOST_SIZE as u64 || depth(term) > MOST_DEPTH as u64 {
        return Ok(Count {
            number: 0,
            ended: false,
        });
    }
    let mut later: Option<Term> = None;
    let mut made: u32 = 0;
    loop {
        let here = last(term, &later);
        let Some(at) = redex(alloc, order, here)? else {
            return Ok(Count {
                number: made,
                ended: true,
            });
        };
        if made == most {
            return Ok(Count {
                number: made,
                ended: false,
            });
        }
        match beta(alloc, here, &at) {
            Ok(next) => {
                later = Some(next);
                made += 1;
            }
            Err(fault) => match fault {
                BetaFault::Past { .. } => {
                    return Ok(Count {
                        number: made + 1,
                        ended: false,
                    });
                }
                BetaFault::NotRedex => unreachable!(),
                BetaFault::NoMemory => return Err(NoMemory),
            },
        }
    }
}
