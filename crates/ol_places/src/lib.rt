//! What stands where in a text: its tokens, its lines and columns, its free names, and where it stops
//! being a term.
//!
//! - `tokens`: gaps, and the first token of some bytes
//! - `placing`: the line and the column of a byte: `where` of a byte
//! - `lets`: the `let` that has no `in` yet at a place of a text
//! - `stopping`: where a text stops being a term, and what is wanted there: `where` of a text
//! - `columns`: lines and columns, byte by byte
//! - `scanning`: what is open round a token
//! - `freeing`: the free names of a text, each with its line and its column: the command `free`
//! - `laws`: a text has one answer of `free`
#![tactic(auto)]

mod columns;
mod freeing;
mod laws;
mod lets;
mod placing;
mod scanning;
mod stopping;
mod tokens;

pub use freeing::free_names;
pub use laws::one_answer;
pub use placing::whereabouts;
pub use stopping::stop;
pub use tokens::{FirstToken, Kind, Sign, first_token};
