//! The names of nodes by their places, and the trace entry of a pair that was rewritten.
ghost use Rattle.std.specs.Prelude.{◌≡◌, ◌<◌, ◌⊎◌, Some};
ghost use Rattle.ol_wire.specs.References.{place_in};
ghost use Rattle.ol_wire.specs.Events.{name_at, rule_between, event_of, entry_of};
ghost use Rattle.ol_wire.specs.Rewrites.{event_for};
ghost use Rattle.ol_wire.specs.Sizes.{IsSmall};

use crate::layout::{BLOCK, Parts};
use crate::reference::place_in;
use crate::rewrite::{Rewrite, rewrite_of};
use ol_net::Rule;
use ol_rules::{Entry, NodeName};

impl Parts {
    /// The node whose first field has this place. If the word at this place isn't a field, the
    /// result has no meaning.
    #[inline(always)]
    pub fn name_at(self, place: u32) -> NodeName
        requires { IsSmall self }
        ensures { result ≡ name_at self place }
    {
        let blocks = self.block(0);
        if blocks <= place {
            let ticket = (place - blocks) / BLOCK;
            let j = place - blocks - BLOCK * ticket;
            if ticket < self.fuel && 2 <= j && j < 10 {
                return NodeName::Born {
                    ticket,
                    place: ((j - 2) / 2) as u8,
                };
            }
            return NodeName::Init(0);
        }
        let nodes = self.start_node(0);
        if nodes <= place && place < self.start_wire(0) {
            return NodeName::Init((place - nodes) / 2);
        }
        NodeName::Init(0)
    }

    // The entry of a rewrite.
    #[inline(always)]
    fn entry_by(self, rewrite: Rewrite) -> Entry
        requires small { IsSmall self }
        requires places { (place_in rewrite.f < 4294967296) × (place_in rewrite.g < 4294967296) }
        ensures { result ≡ entry_of self (event_for rewrite) }
    {
        let first = place_in(rewrite.earlier());
        let second = place_in(rewrite.later());
        Entry {
            rule: rewrite.rule,
            first: self.name_at(first),
            second: self.name_at(second),
        }
    }

    /// The entry of two nodes that were rewritten, by their references; for a stuck pair it has no
    /// meaning.
    #[inline(always)]
    pub(crate) fn entry(self, left: u64, right: u64) -> Entry
        requires small { IsSmall self }
        requires places { (place_in left < 4294967296) × (place_in right < 4294967296) }
        ensures { result ≡ entry_of self (event_of left right) }
    {
        match rewrite_of(left, right) {
            Some(rewrite) => self.entry_by(rewrite),
            None => self.entry_by(Rewrite {
                rule: Rule::Erase,
                f: left,
                g: right,
            }),
        }
    }
}
