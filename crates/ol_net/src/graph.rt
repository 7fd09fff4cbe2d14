//! The net.

ghost use Rattle.std.specs.Prelude.{◌≡◌, ℕ, ◌+◌, ◌-◌, ◌*◌, ◌/◌, ◌%◌, ◌^◌, ◌<◌, ◌≤◌, length, is_some, count_by, IfOk, IfErr, vec_len, OnOk, OnErr, IfSome, Some, ◌≢◌, true, slice_get, ◌↔◌, IfNone, IsTrue};
ghost use Rattle.ol_net.specs.Nets.{HasNode, IsPort, IsNet};
ghost use Rattle.ol_net.specs.Numbered.{net_of, numbered_port, PortsLinked};
ghost use Rattle.ol_net.specs.Pairs.{IsStuck, IsInActive, IsInStuck, FacesNone, HasStuck};
ghost use Rattle.ol_net.specs.Indexes.{HasIndexes, top_index_of};
ghost use Rattle.ol_net.specs.declared.parts.Rule.{Rule};
ghost use Rattle.ol_net.specs.declared.parts.Facing.TheVariants.{Active, Stuck};
ghost use Rattle.ol_net.specs.declared.parts.Facing.TheVariants as facing;
ghost use Rattle.ol_net.specs.Replace.{AreFacing, MayAllBeBorn, JoinsFit, Replaces};
ghost use Rattle.ol_net.specs.declared.parts.Kind.{Kind};
ghost use Rattle.ol_net.specs.Build.{Builds, FaultIs, build_top};
ghost use Rattle.ol_net.specs.Graph.{kind_at, partner_of, IsTabled, facing_at};

use crate::build::tables;
use crate::facing::{facing_in, stuck_in};
use crate::parts::{BuildFault, Facing, JoinEnd, Kind, NodeId, Port};
use crate::rewire::replace_in;
use crate::table::{kind_in, partner_in};
use ol_limits::NoMemory;
use std::alloc::Global;
use std::marker::Model;

// The greatest index that `build` allows.
const TOP_INDEX: u32 = 1_000_000;

/// A sharing graph: nodes with a kind and an index, free ports, and links, each of which connects
/// two ports. Each port is in exactly one link. Nodes are numbered in the order of their creation,
/// and no number is given twice.
#[derive(Drop)]
pub struct Net {
    // The number of free ports, and that of live nodes.
    free: u32,
    live: u32,
    // By number. A node that is gone is None.
    nodes: Vec<Option<(Kind, u32)>>,
    // By place: the free ports, and then three places for each node number. At the place of a port
    // stands the place of its partner, and at a place that is no port that place itself.
    partners: Vec<usize>,
}

impl Model for Net {
    ghost use Rattle.std.specs.Prelude.{◌≡◌, ℕ, ◌+◌, ◌*◌, ◌^◌, ◌<◌, ◌≤◌, length, is_some, count_by};
    ghost use Rattle.ol_net.specs.Graph.{Graph, IsTabled};
    ghost use Rattle.ol_net.specs.Indexes.{HasIndexes};

    ghost Value = { Graph };

    ghost view = { λ n. record {
      free = n.free;
      nodes = n.nodes.items;
      partners = n.partners.items;
    } };

    ghost invariant = { λ n. (n.live ≡ count_by is_some n.nodes.items)
        × (length n.nodes.items < 2 ^ 31) × IsTabled n.free n.nodes.items n.partners.items
        × HasIndexes n.nodes.items };
}

impl Net {
    /// Builds a net. The nodes are numbered from 0 in the given order.
    ///
    /// - `free`: the number of free ports.
    /// - `nodes`: the kind and the index of each node, fewer than 1,000,000,000 nodes. An index is
    ///   at most 1,000,000, and 0 for an eraser; otherwise `BadIndex` is returned.
    /// - `links`: the two ports of each link, fewer than 2^32 links.
    ///
    /// Returns the first fault in the order of `BuildFault`. `NoMemory` may be returned instead of
    /// any other answer.
    pub fn build(
        alloc: Global,
        free: u32,
        nodes: Vec<(Kind, u32)>,
        links: Vec<(Port, Port)>,
    ) -> Result<Net, BuildFault>
        requires few_nodes { vec_len nodes < 1000000000 }
        requires few_links { vec_len links < 2 ^ 32 }
        ensures built { IfOk result (Builds build_top free nodes.items links.items) }
        ensures fault { IfErr result (FaultIs build_top free nodes.items links.items) }
    {
        Net::build_to(alloc, TOP_INDEX, free, nodes, links)
    }

    /// Builds a net as `build` does, with another greatest index than 1,000,000, for a net whose
    /// indexes rose during a reduction.
    ///
    /// - `top`: the greatest index of a node, itself at most 100,000,000.
    /// - `free`: the number of free ports.
    /// - `nodes`: the kind and the index of each node, fewer than 1,000,000,000 nodes. An index is
    ///   at most `top`, and 0 for an eraser; otherwise `BadIndex` is returned.
    /// - `links`: the two ports of each link, fewer than 2^32 links.
    ///
    /// Returns the first fault in the order of `BuildFault`. `NoMemory` may be returned instead of
    /// any other answer.
    pub fn build_to(
        alloc: Global,
        top: u32,
        free: u32,
        nodes: Vec<(Kind, u32)>,
        links: Vec<(Port, Port)>,
    ) -> Result<Net, BuildFault>
        requires top { top ≤ 100000000 }
        requires few_nodes { vec_len nodes < 1000000000 }
        requires few_links { vec_len links < 2 ^ 32 }
        ensures built { IfOk result (Builds top free nodes.items links.items) }
        ensures fault { IfErr result (FaultIs top free nodes.items links.items) }
    {
        match tables(alloc, top, free, &nodes, &links) {
            Ok((live, partners)) => Ok(Net {
                free,
                live: live.len() as u32,
                nodes: live,
                partners,
            }),
            Err(fault) => Err(fault),
        }
    }

    /// The number of free ports, which are `Free(0)` to `Free(free_ports - 1)`.
    pub fn free_ports(&self) -> u32
        ensures free { result ≡ self.now.free }
        ensures free_ports { result ≡ (net_of self.now).free_ports }
    {
        self.free
    }

    /// The number of live nodes.
    pub fn nodes(&self) -> u32
        ensures table { result ≡ count_by is_some self.now.nodes }
        ensures nodes { result ≡ length (net_of self.now).nodes }
    {
        self.live
    }

    /// The number of node numbers given so far, which is the number of the next node.
    pub fn born(&self) -> u32
        ensures born { result ≡ length self.now.nodes }
        ensures bound { result < 2 ^ 31 }
    {
        self.nodes.len() as u32
    }

    /// The greatest index of a live node, or 0 for a net without nodes.
    pub fn top_index(&self) -> u32
        ensures top { result ≡ top_index_of self.now.nodes }
        ensures bound { result ≤ 100000000 + length self.now.nodes }
    {
        top_index_in(&self.nodes)
    }

    /// The kind and the index of a live node. `None`: no live node has this number.
    pub fn kind_of(&self, at: NodeId) -> Option<(Kind, u32)>
        ensures table { result ≡ kind_at self.now.nodes at.0 }
        ensures node { IfSome result (λ k. HasNode (net_of self.now) at.0 k.0 k.1) }
        ensures none { IfNone result ((k : Kind) (i : ℕ) → HasNode (net_of self.now) at.0 k i → ⊥) }
    {
        kind_in(&self.nodes, at.0 as usize)
    }

    /// The port at the other end of a port's link. `None`: the net has no such port.
    pub fn partner(&self, of: Port) -> Option<Port>
        ensures table { result ≡ partner_of self.now of }
        ensures linked { IfSome result (λ q. PortsLinked self.now of q) }
        ensures mutual { IfSome result (λ q. (partner_of self.now q ≡ Some of) × (q ≢ of)) }
        ensures none { IfNone result (IsPort (net_of self.now) (numbered_port of) → ⊥) }
    {
        partner_in(self.free, &self.nodes, &self.partners, of)
    }

    /// Whether a node is in an active or a stuck pair: two nodes linked by their principal ports.
    /// `Active`: the two nodes have a rule, whichever of them acts. `Stuck`: the two nodes have no
    /// rule. `None`: no live node has this number, or its principal port is linked to another port.
    pub fn facing(&self, at: NodeId) -> Facing
        ensures table { result ≡ facing_at self.now at }
        ensures active { (r : Rule) → (result ≡ Active r) ↔ IsInActive (net_of self.now) at.0 r }
        ensures stuck { (result ≡ Stuck) ↔ IsInStuck (net_of self.now) at.0 }
        ensures none { (result ≡ facing.None) ↔ FacesNone (net_of self.now) at.0 }
    {
        facing_in(self.free, &self.nodes, &self.partners, at)
    }

    /// The number of stuck pairs: two nodes linked by their principal ports that have no rule.
    pub fn stuck(&self) -> u32
        ensures stuck { HasStuck (net_of self.now) result }
    {
        stuck_in(self.free, &self.nodes, &self.partners)
    }

    /// A copy of this net: the same free ports, the same nodes and links with the same numbers, and
    /// as many numbers given. `NoMemory`: no memory was found.
    pub fn copy(&self) -> Result<Net, NoMemory>
        ensures copy { IfOk result (λ net. net ≡ self.now) }
    {
        let nodes = self.nodes.clone()?;
        let partners = self.partners.clone()?;
        Ok(Net {
            free: self.free,
            live: self.live,
            nodes,
            partners,
        })
    }

    /// Theorem: the tables represent a net. Each number has a single node, and each port is in
    /// exactly one link, whose other end is another port.
    pub fn is_net(&self)
        ensures net { IsNet (net_of self.now) }
    {
        let _ = &self.partners;
    }

    /// Theorem: the invariant of the tables of a net.
    pub fn is_tabled(&self)
        ensures tables { IsTabled self.now.free self.now.nodes self.now.partners }
        ensures few { length self.now.nodes < 2 ^ 31 }
        ensures indexes { HasIndexes self.now.nodes }
    {
        let _ = &self.partners;
    }

    /// Replaces two nodes, linked by their principal ports, by new nodes, and joins the open ends.
    /// It is the only call that changes a net.
    ///
    /// - `first`, `second`: the two nodes: live, different, and linked by their principal ports.
    ///   That link is removed.
    /// - `born`: the kind and the index of each new node, at most four nodes. An index is at most
    ///   one above the greatest index of the net, and 0 for an eraser. The new nodes get the next
    ///   numbers.
    /// - `joins`: pairs of ends. Each auxiliary port of the two nodes, and each port of a new node,
    ///   is in exactly one pair, and nothing else is in a pair.
    ///
    /// The joins become edges, together with the remaining links. Each auxiliary port of the two
    /// removed nodes is then contracted: its two edges become a single edge, and an edge from the
    /// port to itself is removed with it. As a result, two ports are linked exactly if edges joined
    /// them through removed ports (Lafont, Interaction Nets, POPL 1990).
    ///
    /// At most 2,000,000,000 numbers were given before. `NoMemory`: no memory was found, and the
    /// net is unchanged.
    pub fn replace(
        &mut self,
        first: NodeId,
        second: NodeId,
        born: &[(Kind, u32)],
        joins: &[(JoinEnd, JoinEnd)],
    ) -> Result<(), NoMemory>
        requires facing { AreFacing self.old first second }
        requires few_born { length born.now ≤ 4 }
        requires indexes { MayAllBeBorn self.old.nodes born.now }
        requires fit { JoinsFit self.old first second born.now joins.now }
        requires few { length self.old.nodes ≤ 2000000000 }
        ensures ok { OnOk result (Replaces self.old self.new first second born.now joins.now) }
        ensures err { OnErr result (self.new ≡ self.old) }
    {
        replace_in(
            self.free,
            &mut self.nodes,
            &mut self.partners,
            first.0,
            second.0,
            born,
            joins,
        )?;
        self.live = self.live - 2 + born.len() as u32;
        Ok(())
    }
}

fn top_index_in(nodes: &[Option<(Kind, u32)>]) -> u32
    ensures { result ≡ top_index_of nodes.now }
{
    let mut top: u32 = 0;
    for node in nodes {
        if let Some((_, index)) = node {
            top = top.max(*index);
        }
    }
    top
}
