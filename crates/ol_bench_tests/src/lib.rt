//! Tests of the bench: of what neither a clause nor a script of tests/ says.
//!
//! They stand apart from what they test, so that their proof does not prove that again. Each row is a
//! part of a byte string, which is split when the test runs; what a call comes to is compared as one
//! text (docs/LESSONS.md). Whole commands are run by tests/bench.
//!
//! - `fakes`: a call of `bench` over the fakes, and what it comes to as one text
//! - `rows`: rows of commands on one text and on two
//! - `terms`: commands on a text with a term
//! - `reductions`: `steps` and `derivation`
//! - `nets`: commands on a net, and journals
//! - `pairs`: `same`, `after` and `explain`
//! - `walks`: `walk --frame`
//! - `grades`: `grade`
//! - `limits`: `steps` at the limits of terms
//! - `outside`: `same` and `check`, where a call of the source or of a sink fails
#![tactic(auto)]

#[cfg(test)]
mod fakes;
#[cfg(test)]
mod grades;
#[cfg(test)]
mod limits;
#[cfg(test)]
mod nets;
#[cfg(test)]
mod outside;
#[cfg(test)]
mod pairs;
#[cfg(test)]
mod reductions;
#[cfg(test)]
mod rows;
#[cfg(test)]
mod terms;
#[cfg(test)]
mod walks;
