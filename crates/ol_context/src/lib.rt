//! Context semantics: level values, contexts, and paths (Gonthier, Abadi and Lévy, The Geometry of
//! Optimal Lambda Reduction, POPL 1992).
//!
//! A level value is `empty`, `o.v`, `*.v` or `<v,w>`, where v and w are level values. A context is
//! an infinite sequence of level values, almost all of which are empty. A path (walk) starts at a
//! free port with a context, follows the link, and traverses node after node, each of which changes
//! the context, until it arrives at a free port. The traversal of a node is called a crossing.
//!
//! An open context has a leaf instead of the value of some level and represents many contexts at
//! once, a context for each number of abstractions that a question may assume. An open walk finds
//! the least number for which the path leaves the net, without a walk for each number.
//!
//! - `arena`: the holder of level values
//! - `row`: contexts
//! - `changes`: the changes that nodes make to the levels of a context
//! - `crossing`: the traversal of a node
//! - `walking`: walks with a budget
//! - `steps`: a counter of crossings
//! - `leaf`: the leaf of an open context, and its changes in crossings
//! - `leaf_changes`: the changes that nodes make to a list of levels with a leaf
//! - `open`: open contexts
//! - `open_walking`: crossings and walks with open contexts
//! - `answers`: the answers of crossings and walks
//! - `laws`: the theorems on contexts, crossings and walks
//!
//! The contract of the toolchain's `indexmap` is trusted: it finds a level value that is already
//! held. A holder of 4,294,967,295 values returns `NoMemory` for every value, including values that
//! it holds.
#![tactic(auto)]

mod answers;
mod arena;
mod changes;
mod crossing;
mod laws;
mod leaf;
mod leaf_changes;
mod open;
mod open_walking;
mod row;
mod steps;
mod walking;

pub use answers::{Cross, OpenWalk, Walk};
pub use arena::{Shape, Val, Values};
pub use crossing::cross;
pub use laws::{
    contexts_commute, crossing_back, crossing_by_table, crossing_is_one, no_pairs_are_left,
    walk_is_one, walk_is_short,
};
pub use open::OpenContext;
pub use open_walking::{cross_open, walk_open};
pub use row::Context;
pub use steps::Steps;
pub use walking::walk;
