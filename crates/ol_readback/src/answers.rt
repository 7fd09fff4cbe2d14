//! Heads, and places of a tree.

use crate::levels::Levels;

/// The variable of a head: binder `binder`, from 1, of frame `node`, or the free name of a free
/// port, from port 1.
#[derive(Clone, Copy, Debug, PartialEq, Eq)]
pub enum HeadVar {
    Bound { node: u32, binder: u32 },
    Free(u32),
}

/// The head of a frame.
#[derive(Drop)]
pub enum Head {
    /// The number of abstractions, the variable, the number of its arguments, and the levels with
    /// which the frames of the arguments start.
    Is {
        lams: u32,
        var: HeadVar,
        args: u32,
        at: Levels,
    },
    /// No walk leaves the net, or no frame binds its exit.
    NoHead,
    /// A walk made all allowed crossings, and is at a node.
    Budget,
}

/// A place of a tree, in preorder.
#[derive(Clone, Copy, Debug, PartialEq, Eq)]
pub enum ReadNode {
    /// The number of abstractions, the variable, and the number of its arguments, whose subterms
    /// follow.
    Head { lams: u32, var: HeadVar, args: u32 },
    /// The frame has no head.
    NoHead,
    /// The head of the place wasn't computed, or a walk used up its budget.
    Cut,
}
