//! The answers of on-demand reduction.

use ol_context::Context;
use ol_net::{NodeId, Port};
use ol_readback::ReadTree;
use ol_rules::Journal;

/// The result of an on-demand reduction.
#[derive(Drop)]
pub enum Demanded {
    /// The term that was read, and the trace of the reduction.
    Done { tree: ReadTree, journal: Journal },
    /// The fuel is used up, and the next chain meets a further active pair. The trace up to there.
    Spent { journal: Journal },
}

/// A chain in progress: it has made `made` crossings, and has left the last node by the port `at`
/// with this context.
#[derive(Drop)]
pub struct Walker {
    pub at: Port,
    pub context: Context,
    pub made: u64,
}

/// How a chain ends.
#[derive(Drop)]
pub enum End {
    /// At the link between the principal ports of an active pair.
    Met {
        pair: (NodeId, NodeId),
        walker: Walker,
    },
    /// At the free port with this number, with this context.
    Left {
        port: u32,
        context: Context,
    },
    /// At a node that has no crossing with the context of the chain.
    Undefined,
    /// After twice as many crossings as there are nodes, if the next crossing is defined.
    Budget,
}
