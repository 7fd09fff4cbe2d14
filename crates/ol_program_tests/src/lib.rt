//! Tests of contexts and walks, of read-back and what stands on it, and of whole jobs of `ol`.
//!
//! They stand apart from what they test, so that their proof does not prove that again. A table of
//! questions and answers is one text, of which one function asserts each row. What whole commands print
//! of whole terms, nets and journals tests/vectors/check and tests/pages tell.
//!
//! - `rows`: rows of questions, each with its answer
//! - `small_terms`: small terms and their nets
//! - `level_texts`: levels, and walks with them, as plain texts
//! - `values`: deep level values
//! - `levels_of_terms`: walks over the translations of terms, with their exact levels
//! - `leaving`: exits of walks, against the root's frame
//! - `trees`: trees of the nets of small terms, and their printed texts
//! - `strategies`: the next redex of five orders, and what each ends in
//! - `fakes`: calls of `ol` over the fakes
//! - `pages`: texts of calls with what they come to
//! - `answers`: each command, where nothing fails
//! - `faults`: faults at each call, and a source and a sink that never fail
//! - `limits`: limits at their edges and one past
//! - `workers`: many workers, and gates that they pass
//! - `all_clauses`: all that follows from the contract of `ol`, as clauses
//! - `outside`: what a source of the test's own sees of a call
#![tactic(auto)]

#[cfg(test)]
mod all_clauses;
#[cfg(test)]
mod answers;
#[cfg(test)]
mod fakes;
#[cfg(test)]
mod faults;
#[cfg(test)]
mod leaving;
#[cfg(test)]
mod level_texts;
#[cfg(test)]
mod levels_of_terms;
#[cfg(test)]
mod limits;
#[cfg(test)]
mod outside;
#[cfg(test)]
mod pages;
#[cfg(test)]
mod rows;
#[cfg(test)]
mod small_terms;
#[cfg(test)]
mod strategies;
#[cfg(test)]
mod trees;
#[cfg(test)]
mod values;
#[cfg(test)]
mod workers;
