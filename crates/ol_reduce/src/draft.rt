//! A net while its links are found.
ghost use Rattle.std.specs.Prelude.{◌≡◌, ℕ, ◌+◌, ◌*◌, ◌<◌, ◌≤◌, length, slice_set, vec_len, IfOk};
ghost use Rattle.ol_net.specs.Build.{Builds};
ghost use Rattle.ol_net.specs.Graph.{port_at};
ghost use Rattle.ol_net.specs.Pairing.{other};
ghost use Rattle.ol_net.specs.Linking.{linked};
ghost use Rattle.ol_reduce.specs.Drafts.{frozen_top, IsFullDraft, all_links, AreWithin, StayWithin, AreFew, IsBuilt};

use ol_limits::NoMemory;
use ol_net::{BuildFault, Kind, Net, NodeId, Port, port_at};
use std::alloc::Global;

// The greatest index that a net may be built to.
const MOST_TOP: u32 = 100_000_000;

/// Nodes and links as far as they are known.
#[derive(Drop)]
pub(crate) struct Draft {
    pub(crate) free: u32,
    // By number: kind and index.
    pub(crate) kinds: Vec<(Kind, u32)>,
    // By place: free ports by number, and then three places for each node. At the place of a port
    // stands the place of its partner, and that place itself as long as no partner is known.
    pub(crate) partners: Vec<usize>,
}

// A table of places without partners.
fn alone(alloc: Global, places: usize) -> Result<Vec<usize>, NoMemory>
    ensures size { IfOk result (λ v. length v.items ≡ places) }
    ensures each { IfOk result (λ v. (k : ℕ) → other v.items k ≡ k) }
{
    let mut partners = Vec::new(alloc);
    for place in 0..places {
        partners.push(place)?;
    }
    Ok(partners)
}

impl Draft {
    /// So many free ports and nodes, of which nothing is known.
    pub(crate) fn new(alloc: Global, free: u32, nodes: u32) -> Result<Draft, NoMemory>
        ensures free { IfOk result (λ d. d.free ≡ free) }
        ensures kinds { IfOk result (λ d. length d.kinds.items ≡ nodes) }
        ensures places { IfOk result (λ d. length d.partners.items ≡ free + 3 * nodes) }
        ensures alone { IfOk result (λ d. (k : ℕ) → other d.partners.items k ≡ k) }
    {
        let mut kinds = Vec::new(alloc);
        kinds.resize(nodes as usize, (Kind::Eraser, 0))?;
        let partners = alone(alloc, free as usize + 3 * nodes as usize)?;
        Ok(Draft {
            free,
            kinds,
            partners,
        })
    }

    /// The place of a slot.
    pub(crate) fn place_of(&self, node: u32, slot: u32) -> usize
        requires { slot < 3 }
        ensures { result ≡ self.now.free + 3 * node + slot }
    {
        self.free as usize + 3 * node as usize + slot as usize
    }

    /// Two places become partners.
    pub(crate) fn link(&mut self, one: usize, other: usize)
        requires { AreWithin self.old.partners.items one other }
        ensures free { self.new.free ≡ self.old.free }
        ensures kinds { self.new.kinds.items ≡ self.old.kinds.items }
        ensures partners { self.new.partners.items ≡ linked self.old.partners.items one other }
    {
        self.partners[one] = other;
        self.partners[other] = one;
    }

    /// A node gets its kind and its index.
    pub(crate) fn set_kind(&mut self, node: u32, kind: Kind, index: u32)
        requires { node < length self.old.kinds.items }
        ensures free { self.new.free ≡ self.old.free }
        ensures kinds { self.new.kinds.items ≡ slice_set self.old.kinds.items node (kind, index) }
        ensures partners { self.new.partners.items ≡ self.old.partners.items }
    {
        self.kinds[node as usize] = (kind, index);
    }

    // Each link once, from the lower place.
    fn links(&self, alloc: Global) -> Result<Vec<(Port, Port)>, NoMemory>
        requires few { length self.now.partners.items < 400000000 }
        requires within { StayWithin self.now.partners.items }
        ensures { IfOk result (λ v. v.items ≡ all_links self.now.free self.now.partners.items) }
    {
        let mut links = Vec::new(alloc);
        for place in 0..self.partners.len() {
            let partner = self.partners[place];
            if place < partner {
                let link = (port_at(self.free, place), port_at(self.free, partner));
                links.push(link)?;
            }
        }
        Ok(links)
    }

    /// The net of these nodes and links.
    pub(crate) fn build(self, alloc: Global) -> Result<Net, NoMemory>
        requires few { AreFew self.kinds.items self.partners.items }
        requires complete { IsFullDraft self.free self.kinds.items self.partners.items }
        ensures { IfOk result (IsBuilt self.free self.kinds.items self.partners.items) }
    {
        let links = self.links(alloc)?;
        let Draft {
            free,
            kinds,
            partners: _,
        } = self;
        match Net::build_to(alloc, MOST_TOP, free, kinds, links) {
            Ok(net) => Ok(net),
            Err(fault) => {
                prove!(matches!(fault, BuildFault::NoMemory));
                Err(NoMemory)
            }
        }
    }
}
