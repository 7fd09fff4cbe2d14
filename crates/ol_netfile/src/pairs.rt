//! The list of a net's stuck pairs.

ghost use Rattle.std.specs.Prelude.{◌≡◌, ◌<◌, ◌≤◌, ◌++◌, ℕ, IfOk, OnOk, MatchOption};
ghost use Rattle.ol_net.specs.Numbered.{net_of};
ghost use Rattle.ol_net.specs.Pairs.{IsStuck};
ghost use Rattle.ol_netfile.specs.StuckPairs.{IsPairsText, pair_line};

use crate::writing::{put, put_shown};
use ol_limits::NoMemory;
use ol_net::{Facing, Net, NodeId, Port};
use std::alloc::Global;

/// The list of a net's stuck pairs: a line `pair A B` for each pair, where A and B are the numbers
/// of its two nodes and A is the smaller number. The lines are in ascending order of A.
///
/// `NoMemory`: no memory was found.
pub fn stuck_text(alloc: Global, net: &Net) -> Result<Vec<u8>, NoMemory>
    ensures pairs { IfOk result (λ text. IsPairsText (net_of net.now) text.items) }
{
    net.is_net();
    let mut text = Vec::new(alloc);
    for number in 0..net.born() {
        if let Some(greater) = stuck_with(net, number) {
            put_pair(alloc, &mut text, number, greater)?;
        }
    }
    Ok(text)
}

// The greater node of a stuck pair, if this is the smaller one of one.
fn stuck_with(net: &Net, number: u32) -> Option<u32>
    ensures { MatchOption result
        ((b : ℕ) → number < b → IsStuck (net_of net.now) number b → ⊥)
        (λ b. (number < b) × IsStuck (net_of net.now) number b) }
{
    net.is_net();
    let Facing::Stuck = net.facing(NodeId(number)) else {
        return None;
    };
    match net.partner(Port::Of {
        node: NodeId(number),
        slot: 0,
    }) {
        Some(Port::Of { node, .. }) => above(number, node.0),
        _ => None,
    }
}

// The other number, if it is above this one.
fn above(number: u32, other: u32) -> Option<u32>
    ensures { MatchOption result (other ≤ number) (λ b. (b ≡ other) × (number < b)) }
{
    if number < other { Some(other) } else { None }
}

// Appends the line of a pair.
fn put_pair(alloc: Global, text: &mut Vec<u8>, a: u32, b: u32) -> Result<(), NoMemory>
    ensures { OnOk result (text.new.items ≡ text.old.items ++ pair_line (a, b)) }
{
    put(text, b"pair ")?;
    put_shown(alloc, text, &a)?;
    put(text, b" ")?;
    put_shown(alloc, text, &b)?;
    put(text, b"\n")?;
    Ok(())
}
