//! The nodes and links under construction.

ghost use Rattle.std.specs.Prelude.{◌≡◌, ◌≤◌, ◌<◌, ◌++◌, [], ◌∷◌, length, IfOk, OnOk, IfErr};
ghost use Rattle.ol_limits.specs.Limits.{most_nodes};
ghost use Rattle.ol_translate.specs.declared.faults.TransFault.{TransFault};
ghost use Rattle.ol_translate.specs.declared.faults.TransFault.TheVariants.{TooMany};

use crate::faults::TransFault;
use crate::index::Index;
use ol_limits::MOST_NODES;
use ol_net::{Kind, Port};
use std::alloc::Global;

/// The nodes, in the order of their numbers, and the links. All applications use the same index,
/// one after another.
#[derive(Drop)]
pub struct Parts {
    pub alloc: Global,
    pub nodes: Vec<(Kind, u32)>,
    pub links: Vec<(Port, Port)>,
    pub index: Index,
    ghost few: { length nodes.items ≤ most_nodes },
}

impl Parts {
    /// Adds a node, and returns its number.
    pub fn add(&mut self, kind: Kind, index: u32) -> Result<u32, TransFault>
        ensures number { IfOk result (λ number. number ≡ length self.old.nodes.items) }
        ensures nodes { OnOk result (self.new.nodes.items
            ≡ self.old.nodes.items ++ (kind, index) ∷ []) }
        ensures links { self.new.links.items ≡ self.old.links.items }
        ensures index { self.new.index ≡ self.old.index }
        ensures fits { OnOk result (length self.old.nodes.items < most_nodes) }
        ensures too_many { IfErr result (λ e.
            e ≡ TooMany → most_nodes ≤ length self.old.nodes.items) }
    {
        let number = self.nodes.len();
        if number >= MOST_NODES as usize {
            return Err(TransFault::TooMany);
        }
        self.nodes.push((kind, index))?;
        Ok(number as u32)
    }

    /// Adds a link.
    pub fn join(&mut self, one: Port, other: Port) -> Result<(), TransFault>
        ensures links { OnOk result (self.new.links.items
            ≡ self.old.links.items ++ (one, other) ∷ []) }
        ensures nodes { self.new.nodes.items ≡ self.old.nodes.items }
        ensures index { self.new.index ≡ self.old.index }
        ensures refusal { IfErr result (λ e. e ≡ TooMany → ⊥) }
    {
        self.links.push((one, other))?;
        Ok(())
    }
}
