//! For C: what a trace is found to be against a term or a net, how often each rule stands in it,
//! and the pairs that are left after it, or why a line of it is a bad one.
//!
//! - `answers`: what is handed to C
//! - `asking`: the answers, over slices
//! - `exports`: the calls that C makes, by their names
#![tactic(auto)]

mod answers;
mod asking;
mod exports;

pub use answers::{RuleCounts, Verdict};
pub use exports::{
    ol_proved_check, ol_proved_check_net, ol_proved_count, ol_proved_count_net, ol_proved_explain,
    ol_proved_explain_net,
};
