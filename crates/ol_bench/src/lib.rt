//! The bench: answers for those who look closer at a term, a net or a trace. Each command is a
//! function from bytes to an answer; `bench` reads the files of a command and writes its answer.
//! The commands stand in crates of their own, which crates.txt names.
//!
//! - `asked`: the commands: their numbers, what stands in their files, and their answers
//! - `taking`: the bytes that are given, of a file or of a text
//! - `piecewise`: a trace that is judged while it is read
//! - `top`: a command, from its files to what is written
#![tactic(auto)]

mod asked;
mod piecewise;
mod taking;
mod top;

pub use asked::{Asked, Content, Given, OnOne, OnTwo};
pub use top::{Status, bench};
