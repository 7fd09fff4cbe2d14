//! Laws of the orders: no code, only what follows from the definitions.

ghost use Rattle.ol_strategies.specs.Laws.{NextIsRedex, StepIsOne, ReductIsOne, ReturnIsEndless, HeadIsLeftmost, WeakHeadIsHead, HeadIsAtHeadAddress, ApplicativeIsInnermost, ApplicativeIsFirst, ValueIsFirst, NoNextIsEnd, EndIsOne, StuckAtFreeName};

/// What an order contracts next is a redex of the term. The head redex is the one at an address of
/// moves into bodies and then into functions. No redex stands within the one that applicative order
/// contracts, and each other redex of which that holds stands after it. Call-by-value contracts a
/// redex whose argument is a value, below no abstraction, and each other such redex stands after it.
pub fn orders_contract_redexes()
    ensures redex { NextIsRedex }
    ensures head { HeadIsAtHeadAddress }
    ensures innermost { ApplicativeIsInnermost }
    ensures first { ApplicativeIsFirst }
    ensures value { ValueIsFirst }
{}

/// A term has at most one step in an order, and equally many steps lead to one term. Where an order leads to
/// a term that comes back after one step or more, it has no end: each term that it leads to from
/// the first has a next redex.
pub fn orders_are_one()
    ensures step { StepIsOne }
    ensures steps { ReductIsOne }
    ensures endless { ReturnIsEndless }
{}

/// A head step is a leftmost step, and a weak head step is a head step.
pub fn orders_within_others()
    ensures head { HeadIsLeftmost }
    ensures weak { WeakHeadIsHead }
{}

/// An order has no next redex exactly where the term is what the order ends in: a normal form for
/// leftmost and applicative order, a head normal form, a weak head normal form, and for
/// call-by-value a value or a stuck term. One of these words fits. A stuck term whose variables are
/// all bound has a free name that is applied, below no abstraction.
pub fn orders_end()
    ensures ends { NoNextIsEnd }
    ensures one { EndIsOne }
    ensures stuck { StuckAtFreeName }
{}
