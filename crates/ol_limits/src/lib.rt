//! The limits of terms, nets, traces and options; types for numbers within these limits; and the
//! error of a call that finds no memory.
//!
//! Contracts cite the limits of specs/Limits.antt, which are numerals, so that the proof of a
//! function that uses a constant of this file fails if the constant differs. Nothing checks a
//! constant that no function uses, and no contract promises that memory for an input within the
//! limits is available. No contract of any crate says that memory is short when a call returns
//! `NoMemory`: a call that can return `NoMemory` may return it instead of any other answer.
#![tactic(auto)]

ghost use Rattle.std.specs.Prelude.{◌≡◌, ◌≤◌};
ghost use Rattle.ol_limits.specs.Limits.{most_fuel, most_workers, plain_fuel, plain_heads, plain_workers};

use std::alloc::{AllocError, AllocFailed};

/// A memory allocation failed. No other condition returns this value.
#[derive(Clone, Copy, Debug, PartialEq, Eq)]
pub struct NoMemory;

impl From<AllocError> for NoMemory {
    fn from(_error: AllocError) -> NoMemory {
        NoMemory
    }
}

impl<T: Drop> From<AllocFailed<T>> for NoMemory {
    fn from(_error: AllocFailed<T>) -> NoMemory {
        NoMemory
    }
}

/// The greatest length of a term file, in bytes.
pub const MOST_TERM_BYTES: u32 = 1_048_576;

/// The greatest length of a trace file, in bytes.
pub const MOST_JOURNAL_BYTES: u32 = 402_653_184;

/// The greatest length of a net file, in bytes.
pub const MOST_NET_BYTES: u32 = 33_554_432;

/// The greatest depth of a term.
pub const MOST_DEPTH: u32 = 1_000;

/// The greatest number of constructors of a term to which β-steps are applied.
pub const MOST_SIZE: u32 = 100_000;

/// The greatest number of nodes of a term's translation, and of a net that is printed.
pub const MOST_NODES: u32 = 200_000;

/// The greatest number of worker threads of a reduction.
pub const MOST_WORKERS: u32 = 64;

/// The greatest number of subterms for whose head normal forms a request can ask.
pub const MOST_HEADS: u32 = 100_000;

/// The greatest fuel of a reduction, and the greatest number of entries of a trace.
pub const MOST_FUEL: u32 = 8_000_000;

/// The greatest number of edges of a path.
pub const MOST_EDGES: u32 = 10_000_000;

/// The greatest number of β-steps of a request.
pub const MOST_STEPS: u32 = 10_000;

/// The default number of worker threads of `run`.
pub const PLAIN_WORKERS: u32 = 4;

/// The default fuel of `run`: the greatest number of interactions.
pub const PLAIN_FUEL: u32 = 200_000;

/// The default number of subterms whose head normal forms are computed.
pub const PLAIN_HEADS: u32 = 4_096;

/// The number of worker threads of a reduction: 1 to `MOST_WORKERS`.
#[derive(Clone, Copy)]
pub struct Workers {
    pub count: u32,
    pub ghost some: { 1 ≤ count },
    pub ghost few: { count ≤ most_workers },
}

impl Workers {
    /// The number `count` as a number of worker threads.
    pub fn of(count: u32) -> Workers
        requires within { (1 ≤ count) × (count ≤ most_workers) }
        ensures count { result.count ≡ count }
    {
        Workers { count }
    }

    /// The default number of worker threads of `run`, `PLAIN_WORKERS`.
    pub fn plain() -> Workers
        ensures count { result.count ≡ plain_workers }
    {
        Workers::of(PLAIN_WORKERS)
    }
}

/// The greatest number of interactions of a reduction: 0 to `MOST_FUEL`.
#[derive(Clone, Copy)]
pub struct Fuel {
    pub most: u32,
    pub ghost within: { most ≤ most_fuel },
}

impl Fuel {
    /// Fuel for `most` interactions.
    pub fn of(most: u32) -> Fuel
        requires within { most ≤ most_fuel }
        ensures most { result.most ≡ most }
    {
        Fuel { most }
    }

    /// The default fuel of `run`, `PLAIN_FUEL`.
    pub fn plain() -> Fuel
        ensures most { result.most ≡ plain_fuel }
    {
        Fuel::of(PLAIN_FUEL)
    }
}

/// The greatest number of subterms whose head normal forms are computed, at least 1.
#[derive(Clone, Copy)]
pub struct Heads {
    pub most: u32,
    pub ghost some: { 1 ≤ most },
}

impl Heads {
    /// At most `most` subterms.
    pub fn of(most: u32) -> Heads
        requires some { 1 ≤ most }
        ensures most { result.most ≡ most }
    {
        Heads { most }
    }

    /// The default number of subterms, `PLAIN_HEADS`.
    pub fn plain() -> Heads
        ensures most { result.most ≡ plain_heads }
    {
        Heads::of(PLAIN_HEADS)
    }
}
