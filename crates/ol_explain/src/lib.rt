//! What a trace says: how far it is that of a run, the net there, and why it goes no further.
//!
//! - `following`: a trace, followed line by line
//! - `pausing`: the command `after`: the net after the first lines of a trace
//! - `explaining`: the command `explain`: what a trace is found to be, and why
//! - `judging`: the command `check`: what a trace is found to be, as a line
//! - `objects`: the answers of `check` and `explain`, each as one JSON object
//! - `tallying`: what a trace is found to be, by its value, and how often each rule stands in its
//!   run
//! - `causes`: why a line of a trace isn't one of a run
//! - `joining`: after which entry of a trace two nodes are joined
//! - `left`: the pairs that are left after a run
//! - `wanting`: where a line that isn't one of a trace breaks off, and what is wanted there
//! - `others`: whether it is one of a run of the other translation
//! - `weighing`: what the links of a run's last net weigh
//! - `naming`: a net as a text, under the names of a run
#![tactic(auto)]

mod causes;
mod explaining;
mod following;
mod joining;
mod judging;
mod left;
mod naming;
mod objects;
mod others;
mod pausing;
mod tallying;
mod wanting;
mod weighing;

pub use explaining::explained;
pub use judging::judged;
pub use objects::{answer_in, explained_object, judged_object};
pub use pausing::{after, after_with_weights};
pub use tallying::{Finding, Tally, checked, tallied};
