//! A function applied to a line, and what `demand` reads of it.

ghost use Rattle.std.specs.Prelude.{◌≡◌, ◌↔◌, ℕ, true, List, ◌+◌, ◌≤◌, length, IfOk};
ghost use Rattle.ol_limits.specs.Limits.{most_depth, most_nodes};
ghost use Rattle.ol_term.specs.Trees.{tree_of, depth, EachOccurs};
ghost use Rattle.ol_readback.specs.Terms.{HasAllHeads};
ghost use Rattle.ol_derivations.specs.Applied.{IsApplied};
ghost use Rattle.ol_derivations.specs.Reads.{lack_words};
ghost use Rattle.ol_derivations.specs.Applications.{IsFunction, IsInput};
ghost use Rattle.ol_derivations.specs.StudentsSoFar.{IsFound, IsReadOf};

use crate::applying::{Function, Input, applied};
use crate::read_trees::Seen;
use ol_demand::{Demanded, demand};
use ol_limits::{Fuel, Heads, NoMemory};
use ol_net::Net;
use ol_readback::{ReadNode, ReadTree};
use ol_term::{Names, TermFile, Translation};
use ol_translate::{TransFault, translate};
use std::alloc::Global;

/// How far each application is followed.
///
/// - `translation`: the translation of its term.
/// - `fuel`: how many interactions `demand` makes at most.
/// - `heads`: how many subterms it asks for.
#[derive(Clone, Copy)]
pub struct Bounds {
    pub translation: Translation,
    pub fuel: Fuel,
    pub heads: Heads,
}

/// Why there is no tree.
#[derive(Clone, Copy)]
pub enum Lack {
    /// `demand` goes on beyond the fuel.
    Fuel,
    /// The term is deeper than 1,000.
    Depth,
    /// Its net has more than 200,000 nodes.
    Nodes,
}

/// What comes of a function on a line.
#[derive(Drop)]
pub enum Found {
    Tree(Seen),
    Without(Lack),
}

pub fn lack_words(lack: Lack) -> &'static str
    ensures { result.now ≡ lack_words lack }
{
    match lack {
        Lack::Fuel => "beyond the fuel",
        Lack::Depth => "limit depth 1000",
        Lack::Nodes => "limit nodes 200000",
    }
}

// What `demand` reads of a net with these free names.
fn read_net(alloc: Global, net: Net, names: Names, bounds: Bounds) -> Result<Found, NoMemory>
    requires few { length net.nodes ≤ most_nodes }
    requires free { net.free ≡ length names + 1 }
    ensures { IfOk result (IsReadOf net names bounds) }
{
    let mut last = net;
    let demanded = demand(alloc, &mut last, bounds.fuel.most, bounds.heads.most)?;
    match demanded {
        Demanded::Spent { .. } => Ok(Found::Without(Lack::Fuel)),
        Demanded::Done { tree, .. } => Ok(Found::Tree(Seen { tree, names })),
    }
}

// What comes of an application with this term.
fn read_file(alloc: Global, file: TermFile, bounds: Bounds) -> Result<Found, NoMemory>
    requires shallow { depth (tree_of file.term) ≤ most_depth }
    requires each_name { EachOccurs (length file.names) (tree_of file.term) }
    ensures { IfOk result (λ found. (function line : List ℕ) →
        IsApplied function line (tree_of file.term) file.names
        → IsFound bounds function line found) }
{
    match translate(alloc, &file, bounds.translation) {
        Ok(net) => {
            let found = read_net(alloc, net, file.names, bounds)?;
            Ok(found)
        }
        Err(fault) => match fault {
            TransFault::NoMemory => Err(NoMemory),
            TransFault::TooMany => Ok(Found::Without(Lack::Nodes)),
        },
    }
}

/// What `demand` reads of a function applied to an input. `NoMemory`: no memory was found.
pub fn read_on(
    alloc: Global,
    function: &Function<'_>,
    input: &Input<'_>,
    bounds: Bounds,
) -> Result<Found, NoMemory>
    requires function { IsFunction function.now }
    requires input { IsInput input.now }
    ensures { IfOk result (IsFound bounds function.now.text.now input.now.text.now) }
{
    match applied(alloc, function, input)? {
        None => Ok(Found::Without(Lack::Depth)),
        Some(file) => {
            let found = read_file(alloc, file, bounds)?;
            Ok(found)
        }
    }
}

/// Whether each place of a tree has a head.
pub fn is_whole(tree: &ReadTree) -> bool
    ensures { (result ≡ true) ↔ HasAllHeads tree.now }
{
    for place in 0..tree.len() {
        let Some(node) = tree.get(place) else {
            unreachable!()
        };
        match node {
            ReadNode::Head { .. } => {}
            ReadNode::NoHead => return false,
            ReadNode::Cut => return false,
        }
    }
    true
}
