//! The next redex of five orders, and what each ends in.

ghost use Rattle.std.specs.Prelude.{◌≤◌};
ghost use Rattle.ol_term.specs.Trees.{tree_of, depth};

use crate::rows::{Asked, Question, assert_rows};
use crate::small_terms::parsed;
use ol_beta::Address;
use ol_limits::NoMemory;
use ol_strategies::{Order, reached, redex};
use ol_term::Term;
use std::alloc::{AllocError, Global};
use std::test::Fail;

/// A dot and the moves of an address.
fn address_text(alloc: Global, at: &Address) -> Result<String, AllocError> {
    let mut text = String::from_str(alloc, ".")?;
    for k in 0..at.len() {
        let to = at.get(k).unwrap_or(9);
        text = format!(in alloc; "{text}{to}")?;
    }
    Ok(text)
}

/// The address of an order's next redex, or the word for what the order ends in.
fn next_text(alloc: Global, order: Order, term: &Term) -> Result<String, NoMemory>
    requires shallow { depth (tree_of term.now) ≤ 1000 }
{
    match redex(alloc, order, term)? {
        Some(at) => Ok(address_text(alloc, &at)?),
        None => Ok(format!(in alloc; "{:?}", reached(order, term))?),
    }
}

/// What each order does with a term: leftmost, head, weak head, applicative, value.
fn next_texts(alloc: Global, term: &Term) -> Result<String, NoMemory>
    requires shallow { depth (tree_of term.now) ≤ 1000 }
{
    let mut text = String::from_str(alloc, "next")?;
    for k in 0..5u32 {
        let order = match k {
            0 => Order::Leftmost,
            1 => Order::Head,
            2 => Order::WeakHead,
            3 => Order::Applicative,
            _ => Order::Value,
        };
        let next = next_text(alloc, order, term)?;
        text = format!(in alloc; "{text} {next}")?;
    }
    Ok(text)
}

/// The same of the term of a text.
pub fn nexts(alloc: Global, asked: Asked<'_>) -> Result<String, Fail> {
    let file = parsed(alloc, asked.text)?;
    let text = next_texts(alloc, &file.term)?;
    Ok(text)
}

#[test]
fn orders_choose_their_redexes(rt: HostRuntime) -> Result<(), Fail> {
    assert_rows(
        &rt,
        rt.alloc(),
        Question::Next,
        b"0 0 - (\\x. a) ((\\x. x x) (\\x. x x)) => next . . . .2 .2
0 0 - \\z. (\\x. x) z => next .0 .0 WeakHeadNormal .0 Value
0 0 - f ((\\x. x) a) => next .2 HeadNormal WeakHeadNormal .2 .2
0 0 - (\\x y. x) ((\\u. u) v) w => next .1 .1 .1 .12 .12
0 0 - (\\x. x) (y z) => next . . . . Stuck
0 0 - (\\x. (\\y. y) x) (\\u. u) => next . . . .10 .
0 0 - \\x. x => next Normal HeadNormal WeakHeadNormal Normal Value
0 0 - f (\\x. (\\y. y) x) => next .20 HeadNormal WeakHeadNormal .20 Stuck
0 0 - x ((\\u. u) a) ((\\v. v) b) => next .12 HeadNormal WeakHeadNormal .12 .12
0 0 - (\\x. x) ((\\y. y) z) => next . . . .2 .2
0 0 - \\x. x ((\\y. y) x) => next .02 HeadNormal WeakHeadNormal .02 Value
0 0 - (\\x. x) z => next . . . . .",
    )
}
