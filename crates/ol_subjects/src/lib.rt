//! What commands of the bench share: files made ready, answers, and pieces of texts and of objects.
//!
//! - `subjects`: from the bytes of a file to a term, or to a net
//! - `answers`: what the commands answer
//! - `texts`: pieces of texts
//! - `layouts`: how an answer is written: as lines, or as a JSON object
//! - `strings`: the lines of a text, as an array of strings of an object
#![tactic(auto)]

mod answers;
mod layouts;
mod strings;
mod subjects;
mod texts;

pub use answers::{Answer, End};
pub use layouts::Layout;
pub use strings::put_lines;
pub use subjects::{NetRead, Subject, TermRead, most_bytes, read_subject, read_term};
pub use texts::{put, put_number, put_shown};
