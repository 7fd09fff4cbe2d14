//! The texts of nets and traces, and the check of a trace's text by a replay.
//!
//! - `showing`: the text of a net
//! - `leading`: a net after a number of interactions by one thread
//! - `tracing`: the text of a trace
//! - `wave_tracing`: the text of a trace with rules and waves
//! - `forms`: the two formats of a trace's text
//! - `line_reading`: parsing a line of a trace's text
//! - `standing`: parsing the parts of a line
//! - `feeding`: traces checked piece by piece
//! - `checking`: whole traces checked
//! - `answers`: the answers of this crate's calls
//! - `pieces`: appending bytes to a text
//! - `laws`: the theorems on printed nets, and on texts that are fed piece by piece
//!
//! `Complete` says that a trace is a reduction to normal form, and nothing about the net that the
//! runtime which wrote it has in memory. While `feed` returns no answer, the unfinished last line
//! may already be invalid.
#![tactic(auto)]

mod answers;
mod checking;
mod feeding;
mod forms;
mod laws;
mod leading;
mod line_reading;
mod pieces;
mod showing;
mod standing;
mod tracing;
mod wave_tracing;

pub use answers::{After, Check};
pub use checking::check;
pub use feeding::{Checker, form_of, is_so};
pub use forms::Form;
pub use laws::{equal_nets_are_shown_alike, fed_is_a_run};
pub use leading::after;
pub use line_reading::{Line, RULES};
pub use showing::show;
pub use standing::{behind, line_at, name_at, number_at, rule_at};
pub use tracing::{put_name, trace_text};
pub use wave_tracing::{rule_word, trace_text_2};
