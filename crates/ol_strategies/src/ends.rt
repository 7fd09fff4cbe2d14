//! What a term is where an order ends.

ghost use Rattle.std.specs.Prelude.{◌≡◌, None};
ghost use Rattle.ol_term.specs.Trees.{tree_of};
ghost use Rattle.ol_strategies.specs.Redexes.{next};
ghost use Rattle.ol_strategies.specs.Ends.{IsEnd};

use crate::orders::{Order, Reached};
use crate::strict::is_value;
use ol_term::Term;

/// What a term is in which an order has no redex: the order's word for it, of which one fits.
pub fn reached(order: Order, t: &Term) -> Reached
    requires ended { next order (tree_of t.now) ≡ None }
    ensures { IsEnd order (tree_of t.now) result }
{
    match order {
        Order::Leftmost => Reached::Normal,
        Order::Head => Reached::HeadNormal,
        Order::WeakHead => Reached::WeakHeadNormal,
        Order::Applicative => Reached::Normal,
        Order::Value => {
            if is_value(t) {
                Reached::Value
            } else {
                Reached::Stuck
            }
        }
    }
}
