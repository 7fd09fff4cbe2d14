//! Five orders of reduction that textbooks name: which redex of a term each contracts next, and
//! what a term is where there is none.
//!
//! - `orders`: the orders, and the words for what they end in
//! - `redexes`: the next redex of each
//! - `spine`: the search of head and of weak head reduction
//! - `strict`: the search of applicative order and of call-by-value
//! - `ends`: what a term is where an order ends
//! - `laws`: the laws of the orders
#![tactic(auto)]

mod ends;
mod laws;
mod orders;
mod redexes;
mod spine;
mod strict;

pub use ends::reached;
pub use laws::{orders_are_one, orders_contract_redexes, orders_end, orders_within_others};
pub use orders::{Order, Reached};
pub use redexes::redex;
