//! Readback trees.

ghost use Rattle.std.specs.Prelude.{◌≡◌, ◌^◌, ◌<◌, ◌≤◌, ◌↔◌, length, vec_len, slice_get, IsNone};

use crate::answers::ReadNode;
use std::marker::Model;

/// A term that was read back, as the list of its places in preorder, arguments from the first to
/// the last. Contracts view the list.
///
/// The list is well formed: each head has as many subterms as arguments, and the variable of a head
/// is free or is a binder of its own place or of an enclosing place.
#[derive(Drop)]
pub struct ReadTree {
    nodes: Vec<ReadNode>,
}

impl Model for ReadTree {
    ghost use Rattle.std.specs.Prelude.{List, ◌^◌, ◌<◌, length};
    ghost use Rattle.ol_readback.specs.Whole.{IsWholeTree};
    ghost use Rattle.ol_readback.specs.declared.answers.ReadNode.{ReadNode};

    ghost Value = { List ReadNode };

    ghost view = { λ a. a.nodes.items };

    ghost invariant = { λ a. IsWholeTree a.nodes.items × (length a.nodes.items < 2 ^ 32) };
}

impl ReadTree {
    ghost use Rattle.ol_readback.specs.Whole.{IsWholeTree};

    /// The tree with these places. The list is well formed, and has fewer than 4,294,967,296
    /// places. Takes no memory.
    pub fn of(nodes: Vec<ReadNode>) -> ReadTree
        requires whole { IsWholeTree nodes.items }
        requires few { vec_len nodes < 2 ^ 32 }
        ensures { result ≡ nodes.items }
    {
        ReadTree { nodes }
    }

    /// The number of places.
    pub fn len(&self) -> u32
        ensures { result ≡ length self.now }
    {
        self.nodes.len() as u32
    }

    /// Place `k`, in preorder from 0. `None`: `k` isn't less than `len`.
    pub fn get(&self, k: u32) -> Option<ReadNode>
        ensures place { result ≡ slice_get self.now k }
        ensures none { IsNone result ↔ (length self.now ≤ k) }
    {
        self.nodes.get(k as usize).copied()
    }

    /// Theorem: the list of places is well formed.
    pub fn is_whole(&self)
        ensures whole { IsWholeTree self.now }
        ensures few { length self.now < 2 ^ 32 }
    {
        let _ = &self.nodes;
    }
}
