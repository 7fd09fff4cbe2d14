//! How many families of redexes leftmost reduction of a term contracts (Lévy, Réductions correctes
//! et optimales dans le lambda-calcul, 1978).
//!
//! - `degrees`: the table of the different degrees
//! - `labelling`: labelled terms
//! - `measuring`: how many letters labels have
//! - `contracting`: labelled beta steps
//! - `counting`: leftmost reduction, and the number of its families
//! - `laws`: the law of counts of families
#![tactic(auto)]

mod contracting;
mod counting;
mod degrees;
mod labelling;
mod laws;
mod measuring;

pub use counting::{Count, families};
pub use laws::count_is_one;
