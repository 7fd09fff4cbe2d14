//! The next redex of each order.

ghost use Rattle.std.specs.Prelude.{◌≡◌, ◌≤◌, IfOk};
ghost use Rattle.ol_term.specs.Trees.{tree_of, depth};
ghost use Rattle.ol_strategies.specs.Redexes.{next};

use crate::orders::Order;
use crate::spine::spine_redex;
use crate::strict::strict_redex;
use ol_beta::Address;
use ol_limits::NoMemory;
use ol_term::Term;
use std::alloc::Global;

/// The address of the redex that an order contracts next in a term. None comes exactly where the
/// order has none there. No call is as deep as the term.
///
/// The depth is at most 4294967295. `NoMemory`: no memory was found.
#[tactic(auto, using(crate::proofs::Nexts::spine_head, crate::proofs::Nexts::spine_weak, crate::proofs::Nexts::strict_applicative, crate::proofs::Nexts::strict_value))]
pub fn redex(alloc: Global, order: Order, t: &Term) -> Result<Option<Address>, NoMemory>
    requires shallow { depth (tree_of t.now) ≤ 4294967295 }
    ensures { IfOk result (λ r. r ≡ next order (tree_of t.now)) }
{
    match order {
        Order::Leftmost => ol_beta::redex(alloc, t),
        Order::Head => spine_redex(alloc, true, t),
        Order::WeakHead => spine_redex(alloc, false, t),
        Order::Applicative => strict_redex(alloc, true, t),
        Order::Value => strict_redex(alloc, false, t),
    }
}
