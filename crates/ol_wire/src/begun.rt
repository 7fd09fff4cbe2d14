//! A rewrite that has its ticket, and the ends of its links.
ghost use Rattle.std.specs.Prelude.{◌≡◌, ◌<◌, ◌≤◌, Some};
ghost use Rattle.ol_limits.specs.Limits.{most_fuel};
ghost use Rattle.ol_wire.specs.References.{index_in, top_index};
ghost use Rattle.ol_wire.specs.Events.{rule_between};
ghost use Rattle.ol_wire.specs.LinkLists.{joins_in};
ghost use Rattle.ol_wire.specs.Rewrites.{event_for};
ghost use Rattle.ol_wire.specs.Sizes.{IsSmall};
ghost use Rattle.ol_wire.specs.TurnParts.{HasCopies, AreEndsOf};

use crate::layout::Parts;
use crate::reference::{further, index_in, kind_in, node_ref};
use crate::rewrite::Rewrite;
use ol_rules::is_meeting;

/// A rewrite whose ticket is drawn and whose block is written, and what the fields of its two nodes
/// held. Its links are to be made.
#[derive(Clone, Copy)]
pub(crate) struct Begun {
    pub(crate) rewrite: Rewrite,
    pub(crate) ticket: u32,
    pub(crate) of_f: [u64; 2],
    pub(crate) of_g: [u64; 2],
}

/// The copies that a rewrite makes, where it is no meeting: how many there are of f, and what the
/// references of copies of f and of g are at the first place of the block.
#[derive(Clone, Copy)]
pub(crate) struct Copies {
    pub(crate) of_f: u32,
    pub(crate) f: u64,
    pub(crate) g: u64,
}

impl Begun {
    // The copies that it makes. A meeting makes none.
    pub(crate) fn copies(&self, parts: Parts) -> Option<Copies>
        requires small { IsSmall parts × (self.now.ticket ≤ most_fuel) }
        requires index { index_in self.now.rewrite.g < top_index }
        ensures { HasCopies parts self.now result }
    {
        let rewrite = self.rewrite;
        if is_meeting(rewrite.rule) {
            return None;
        }
        let place = parts.block(self.ticket) + 2;
        Some(Copies {
            of_f: rewrite.copies_of_f(),
            f: node_ref(kind_in(rewrite.f), index_in(rewrite.f), place),
            g: node_ref(kind_in(rewrite.g), rewrite.index_after(), place),
        })
    }

    // The two ends of a join, by the copies.
    pub(crate) fn ends(&self, copies: &Option<Copies>, join: u32) -> (u64, u64)
        requires copies { (z : Parts) × HasCopies z self.now copies.now }
        requires join { join < joins_in (event_for self.now.rewrite) }
        requires rule { rule_between self.now.rewrite.f self.now.rewrite.g
            ≡ Some self.now.rewrite.rule }
        ensures { (z : Parts) → HasCopies z self.now copies.now → AreEndsOf z self.now join result }
    {
        let Some(copies) = copies else {
            return (self.of_f[join as usize], self.of_g[join as usize]);
        };
        if join < copies.of_f {
            return (further(copies.f, 2 * join), self.of_g[join as usize]);
        }
        (
            further(copies.g, 2 * join),
            self.of_f[(join - copies.of_f) as usize],
        )
    }
}
