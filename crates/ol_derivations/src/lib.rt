//! What students hand in: derivations, one term a line, and functions, compared with a solution.
//!
//! - `lines`: the lines of a file, and what each has
//! - `stepping`: the first address at which one beta step leads from a term to another
//! - `forms`: normal forms that are found within so many steps
//! - `searching`: how many beta steps lead from a term to another
//! - `judging`: the verdict on a term, by the one before it
//! - `telling`: the lines of the answer of `derivation`
//! - `holding`: the terms of a derivation so far
//! - `walking`: the command `derivation`: a whole derivation, line by line
//! - `placing`: the place of a tree that a path leads to
//! - `rounding`: how many binders stand round a place
//! - `naming`: the free names of two trees
//! - `printing`: the text of the head at a place, an underscore for each argument
//! - `read_trees`: the tree that was read of an application
//! - `applying`: the application of a function to the arguments of a line
//! - `reading`: a function applied to a line, and what `demand` reads of it
//! - `functions`: the function of a text
//! - `inputs`: the inputs of a file, one a line
//! - `grading`: the command `grade`: a student against the solution, and all of them
//! - `laws`: what holds of verdicts, of the texts of heads, and of grades
#![tactic(auto)]

mod applying;
mod forms;
mod functions;
mod grading;
mod holding;
mod inputs;
mod judging;
mod laws;
mod lines;
mod naming;
mod placing;
mod printing;
mod read_trees;
mod reading;
mod rounding;
mod searching;
mod stepping;
mod telling;
mod walking;

pub use grading::{Student, Work, grade};
pub use judging::{Verdict, judge};
pub use laws::{
    apart_is_not_convertible, no_head_twice, none_is_missed, one_answer, one_grading,
    one_text_is_one_head, one_verdict, yes_is_right,
};
pub use lines::{Read, lines_of, read_line, words_of};
pub use naming::all_names;
pub use printing::head_text;
pub use reading::Bounds;
pub use telling::line_text;
pub use walking::derivation;
