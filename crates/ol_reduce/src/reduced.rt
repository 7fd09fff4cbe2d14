//! The result of all workers.
use ol_net::Net;
use ol_rules::Journal;
use ol_wire::Words;

/// The result of a parallel reduction.
///
/// - `Done`: a normal form. `net` is the final net, whose nodes are numbered in the ascending order
///   of their names, and `journal` is the trace that leads to it.
/// - `Spent`: the fuel is used up, and an active pair is left.
///
/// `words` are the closed words of the table, and `journal` is their trace.
#[derive(Drop)]
pub enum Reduced {
    Done {
        net: Net,
        journal: Journal,
        words: Words,
    },
    Spent {
        journal: Journal,
        words: Words,
    },
}
