//! From node numbers to names, and back, in a reduction of a net.

ghost use Rattle.std.specs.Prelude.{◌≡◌, ℕ, ◌+◌, ◌<◌, ◌≤◌, ◌++◌, [], ◌∷◌, length, option_map, IfOk, OnOk, OnErr};
ghost use Rattle.ol_rules.specs.Runs.{names_born};
ghost use Rattle.ol_rules.specs.UnderWay.{name_in, node_number};

use crate::journal::NodeName;
use ol_limits::NoMemory;
use ol_net::{Net, NodeId};
use std::alloc::Global;

/// The names of a reduction's node numbers. The initial net had given `start` numbers; the nodes
/// created since then have the names `born`.
#[derive(Drop)]
pub struct Names {
    /// The number of node numbers that the initial net had given.
    pub start: u32,
    /// The names of the numbers given since then, in order.
    pub born: Vec<NodeName>,
}

impl Names {
    /// The names before the first interaction. Takes no memory.
    pub fn new(alloc: Global, net: &Net) -> Names
        ensures start { result.start ≡ length net.now.nodes }
        ensures born { result.born.items ≡ [] }
    {
        Names {
            start: net.born(),
            born: Vec::new(alloc),
        }
    }

    /// The name of a number. For a number that wasn't given, the result is `Init` of this number.
    pub fn name_of(&self, at: NodeId) -> NodeName
        ensures { result ≡ name_in self.now.start self.now.born.items at.0 }
    {
        if at.0 < self.start {
            return NodeName::Init(at.0);
        }
        match self.born.get((at.0 - self.start) as usize) {
            Some(name) => *name,
            None => NodeName::Init(at.0),
        }
    }

    /// Names the `count` nodes that the interaction `ticket` created, at most four. `NoMemory`: no
    /// memory was found, and some of these nodes may have their names.
    pub fn push(&mut self, ticket: u32, count: u32) -> Result<(), NoMemory>
        requires { count ≤ 4 }
        ensures start { self.new.start ≡ self.old.start }
        ensures born { OnOk result
            (self.new.born.items ≡ self.old.born.items ++ names_born ticket count) }
        ensures some { OnErr result ((added : ℕ) × (added ≤ count)
            × (self.new.born.items ≡ self.old.born.items ++ names_born ticket added)) }
    {
        for place in 0..count as u8 {
            self.born.push(NodeName::Born { ticket, place })?;
        }
        Ok(())
    }
}

/// The node numbers of a reduction's names. The entry for each ticket is how many numbers were
/// given before its interaction, and the last entry is how many were given so far. The node that
/// the interaction `t` created at place `p` has the number `bases[t] + p`, which is less than
/// `bases[t + 1]`.
#[derive(Drop)]
pub struct Numbers {
    /// How many numbers were given before each interaction, and so far.
    pub bases: Vec<u32>,
}

impl Numbers {
    /// The numbers before the first interaction. `NoMemory`: no memory was found.
    pub fn new(alloc: Global, net: &Net) -> Result<Numbers, NoMemory>
        ensures bases { IfOk result (λ numbers. numbers.bases.items ≡ length net.now.nodes ∷ []) }
    {
        let mut bases = Vec::new(alloc);
        bases.push(net.born())?;
        Ok(Numbers { bases })
    }

    /// The node with this name. `None`: no node has had this name.
    pub fn node_of(&self, name: NodeName) -> Option<NodeId>
        ensures { option_map (λ node. node.0) result ≡ node_number self.now.bases.items name }
    {
        match name {
            NodeName::Init(k) => {
                if k < *self.bases.get(0)? {
                    Some(NodeId(k))
                } else {
                    None
                }
            }
            NodeName::Born { ticket, place } => {
                let base = *self.bases.get(ticket as usize)?;
                let next = *self.bases.get(ticket as usize + 1)?;
                let number = base.checked_add(place as u32)?;
                if number < next {
                    Some(NodeId(number))
                } else {
                    None
                }
            }
        }
    }

    /// Appends the numbers after a further interaction, which led to this net. `NoMemory`: no
    /// memory was found.
    pub fn push(&mut self, net: &Net) -> Result<(), NoMemory>
        ensures bases { OnOk result
            (self.new.bases.items ≡ self.old.bases.items ++ length net.now.nodes ∷ []) }
    {
        self.bases.push(net.born())?;
        Ok(())
    }
}
