//! What a term or a net costs by each way of reducing it: interactions, beta steps, families, waves.
//!
//! - `sums`: how many interactions some counts tell
//! - `ordered`: how many beta steps an order of reduction makes to its end
//! - `crossings`: how many crossings the reading of a net takes
//! - `need`: how many beta steps call-by-need makes: a machine with closures, each of which is reduced
//!   once
//! - `ways`: ways of reducing, and which of them are shown
//! - `tallies`: what a way comes to
//! - `tables`: the text of a table
//! - `objects`: the text of an object
//! - `counting`: the command `counts`: all ways side by side
//! - `wave_counts`: how often each rule stands in each wave, and which wave is the widest
//! - `rows`: the lines of the table of waves
//! - `tabling`: the command `waves`: how many pairs each wave of a run has, and how wide a parallel run
//!   could be
//! - `laws`: an order has one count; call-by-need ends in the normal form, with no fewer beta steps than
//!   demand order; the columns of a table stand in order; all complete runs have one table of waves
#![tactic(auto)]

mod counting;
mod crossings;
mod laws;
mod need;
mod objects;
mod ordered;
mod rows;
mod sums;
mod tables;
mod tabling;
mod tallies;
mod wave_counts;
mod ways;

pub use counting::counted;
pub use laws::{
    call_by_need_by_rules, count_is_one, demand_is_no_more_than_need, machine_follows_the_rules,
    need_finds_the_normal_form, small_terms, table_is_in_order, tables_agree,
};
pub use need::steps_by_need;
pub use ordered::steps_to_end;
pub use sums::interactions;
pub use tabling::wave_table;
pub use ways::{Bounds, Columns, Way};
