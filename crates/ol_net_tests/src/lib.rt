//! Tests of terms and their reader, of lines of words, of files and faults, of nets, their rules, their
//! texts and their runs, and of the machine that rewrites them.
//!
//! They stand apart from what they test, so that their proof does not prove that again. The crates on
//! which they stand are the low ones: after a change of the grammar they need no library above the
//! reader's.
//!
//! - `terms`: lists of names, the names of binders, and printed terms
//! - `parsing`: texts of terms
//! - `translations`: the nets of terms
//! - `jobs`: lines of words that have a job, and lines that have none
//! - `small_nets`: small nets that several of these use, by their names
//! - `nets`: a net built from its parts, and what is refused
//! - `steps`: small nets, step by step
//! - `runs`: whole runs of one small term
//! - `squares`: both orders of two pairs, and what is refused
//! - `checks`: traces, whole and broken, and nets after some leads
//! - `waves`: traces that tell rules and waves
//! - `net_files`: net files that are read, written and refused
//! - `files_and_faults`: tables over the fakes, and one run of the adapters
//! - `laying`: the words of a net that has a link of each sort
//! - `turns`: turns on small nets, row by row
//! - `closing`: what the words of closed tables tell
//! - `freezing`: nets that are laid out, rewritten or not, and frozen
//! - `pools`: a search over parts that answer as they were told, and cells that two threads share
//! - `workers`: a net that is swept, worked on by one worker, and by several
#![tactic(auto)]

#[cfg(test)]
mod checks;
#[cfg(test)]
mod closing;
#[cfg(test)]
mod files_and_faults;
#[cfg(test)]
mod freezing;
#[cfg(test)]
mod jobs;
#[cfg(test)]
mod laying;
#[cfg(test)]
mod net_files;
#[cfg(test)]
mod nets;
#[cfg(test)]
mod parsing;
#[cfg(test)]
mod pools;
#[cfg(test)]
mod runs;
#[cfg(test)]
mod small_nets;
#[cfg(test)]
mod squares;
#[cfg(test)]
mod steps;
#[cfg(test)]
mod terms;
#[cfg(test)]
mod translations;
#[cfg(test)]
mod turns;
#[cfg(test)]
mod waves;
#[cfg(test)]
mod workers;
