//! The answers of crossings and walks.

use crate::row::Context;
use ol_net::Port;

/// The answer of a crossing.
#[derive(Clone, Copy, Debug, PartialEq, Eq)]
pub enum Cross {
    /// The port of the same node by which the path leaves the node.
    Out(Port),
    /// The node has no crossing from this port with this context.
    Undefined,
}

/// The answer of a walk.
#[derive(Drop)]
pub enum Walk {
    /// The walk arrived at free port `port`, with this context, after `crossings` crossings.
    Exit {
        port: u32,
        context: Context,
        crossings: u64,
    },
    /// The crossing with number `crossings`, from 1, isn't defined.
    Undefined {
        crossings: u64,
    },
    /// The walk made all allowed crossings, and is at a node.
    Budget,
}

/// The answer of a walk for all numbers of abstractions at once.
#[derive(Drop)]
pub enum OpenWalk {
    /// For `lams` abstractions the walk arrives at free port `port`, with this context, after
    /// `crossings` crossings. For each smaller number a crossing isn't defined.
    Exit {
        lams: u64,
        port: u32,
        context: Context,
        crossings: u64,
    },
    /// For each number a crossing isn't defined, at the latest the crossing with number
    /// `crossings`, from 1. `lams` is the least number for which it is this crossing.
    Undefined {
        lams: u64,
        crossings: u64,
    },
    /// For `lams` abstractions the walk makes all allowed crossings, and is at a node. For each
    /// smaller number a crossing isn't defined.
    Budget {
        lams: u64,
    },
}
