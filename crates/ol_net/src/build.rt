//! The checks of a net's parts, each of which finds the first fault of its sort.

ghost use Rattle.std.specs.Prelude.{◌≡◌, ◌≢◌, ℕ, ◌+◌, ◌-◌, ◌*◌, ◌/◌, ◌%◌, ◌^◌, ◌<◌, ◌≤◌, length, true, false, List, slice_index, slice_set, vec_len, IfNone, IfOk, IsTrue, ◌↔◌, ◌==◌, ◌&&◌, if◌then◌else◌, not};
ghost use Rattle.ol_net.specs.Graph.{has_port, place, IsTabled};
ghost use Rattle.ol_net.specs.Pairing.{IsPaired, other};
ghost use Rattle.ol_net.specs.Linking.{linked, linked_if, can_link};
ghost use Rattle.ol_net.specs.Build.{NoneOf, is_bad_index, BadIndexAt, BadPortAt};
ghost use Rattle.ol_net.specs.Numbered.{all_live};
ghost use Rattle.ol_net.specs.Scans.{FindsFirst};
ghost use Rattle.ol_net.specs.Tabling.{MeetsAt, AreAllLinked, places, FindsAlone, GivesTable, GivesTables};

use crate::parts::{BuildFault, Kind, Port};
use crate::table::{is_port, place_of, port_at};
use std::alloc::{AllocError, Global};

fn is_bad_index(top: u32, node: (Kind, u32)) -> bool
    ensures { result ≡ is_bad_index top node }
{
    if node.0.is_eraser() {
        node.1 != 0
    } else {
        node.1 > top
    }
}

/// The number of the first node whose index exceeds `top`, or that is an eraser with an index other
/// than 0.
pub fn first_bad_index(top: u32, nodes: &[(Kind, u32)]) -> Option<u32>
    requires { length nodes.now < 2 ^ 32 }
    ensures { FindsFirst (BadIndexAt top nodes.now) result }
{
    for (i, node) in nodes.iter().enumerate() {
        if is_bad_index(top, *node) {
            return Some(i as u32);
        }
    }
    None
}

/// The number of the first link that names a port which doesn't exist.
pub fn first_bad_port(
    free: u32,
    nodes: &[Option<(Kind, u32)>],
    links: &[(Port, Port)],
) -> Option<u32>
    requires { length links.now < 2 ^ 32 }
    ensures { FindsFirst (BadPortAt free nodes.now links.now) result }
{
    for (i, link) in links.iter().enumerate() {
        if !is_port(free, nodes, link.0) {
            return Some(i as u32);
        }
        if !is_port(free, nodes, link.1) {
            return Some(i as u32);
        }
    }
    None
}

/// Makes two places partners, if they are two and neither has one.
fn link_pair(partners: &mut Vec<usize>, a: usize, b: usize) -> bool
    requires a_in { a < length partners.old.items }
    requires b_in { b < length partners.old.items }
    ensures done { result ≡ can_link partners.old.items a b }
    ensures after { partners.new.items ≡ linked_if result partners.old.items a b }
{
    if a == b || partners[a] != a || partners[b] != b {
        return false;
    }
    partners[a] = b;
    partners[b] = a;
    true
}

/// Links the two ports of each link, in a table without partners, up to the first link with a port
/// of an earlier link or with the same port at both ends.
pub fn link_all(
    free: u32,
    nodes: &[Option<(Kind, u32)>],
    links: &[(Port, Port)],
    partners: &mut Vec<usize>,
) -> Option<u32>
    requires few { length links.now < 2 ^ 32 }
    requires size { length partners.old.items ≡ free + 3 * length nodes.now }
    requires alone { (k : ℕ) → other partners.old.items k ≡ k }
    requires ports { NoneOf (BadPortAt free nodes.now links.now) }
    ensures meets { FindsFirst (MeetsAt (places free links.now)) result }
    ensures ok { IfNone result (AreAllLinked free nodes.now links.now partners.new.items) }
{
    for (i, link) in links.iter().enumerate() {
        let a = place_of(free, link.0);
        let b = place_of(free, link.1);
        if !link_pair(partners, a, b) {
            return Some(i as u32);
        }
    }
    None
}

/// The first port without a partner.
pub fn first_loose(free: u32, nodes: &[Option<(Kind, u32)>], partners: &[usize]) -> Option<Port>
    requires few { length nodes.now < 2 ^ 31 }
    requires size { length partners.now ≡ free + 3 * length nodes.now }
    ensures { FindsAlone free nodes.now partners.now result }
{
    for (k, partner) in partners.iter().enumerate() {
        let port = port_at(free, k);
        if is_port(free, nodes, port) && *partner == k {
            return Some(port);
        }
    }
    None
}

/// The table of nodes of a new net, all of which are live.
pub fn live_nodes(
    alloc: Global,
    nodes: &[(Kind, u32)],
) -> Result<Vec<Option<(Kind, u32)>>, AllocError>
    ensures { IfOk result (λ v. v.items ≡ all_live nodes.now) }
{
    nodes.iter().map(|node| Some(*node)).collect(alloc)
}

/// A table of `places` places without partners.
pub fn alone(alloc: Global, places: usize) -> Result<Vec<usize>, AllocError>
    ensures size { IfOk result (λ v. length v.items ≡ places) }
    ensures each { IfOk result (λ v. (k : ℕ) → other v.items k ≡ k) }
{
    let mut v = Vec::with_capacity(alloc, places)?;
    for k in 0..places {
        v.push(k)?;
    }
    Ok(v)
}

/// The table of partners for these links, whose ports exist.
pub fn table_of(
    alloc: Global,
    free: u32,
    nodes: &[Option<(Kind, u32)>],
    links: &[(Port, Port)],
) -> Result<Vec<usize>, BuildFault>
    requires few_nodes { length nodes.now < 2 ^ 31 }
    requires few_links { length links.now < 2 ^ 32 }
    requires ports { NoneOf (BadPortAt free nodes.now links.now) }
    ensures { GivesTable free nodes.now links.now result }
{
    let Ok(mut partners) = alone(alloc, free as usize + 3 * nodes.len()) else {
        return Err(BuildFault::NoMemory);
    };
    if let Some(link) = link_all(free, nodes, links, &mut partners) {
        return Err(BuildFault::Twice { link });
    }
    if let Some(port) = first_loose(free, nodes, &partners) {
        return Err(BuildFault::Loose { port });
    }
    Ok(partners)
}

/// The tables of a net with these nodes and links, whose indexes are at most `top`.
pub fn tables(
    alloc: Global,
    top: u32,
    free: u32,
    nodes: &[(Kind, u32)],
    links: &[(Port, Port)],
) -> Result<(Vec<Option<(Kind, u32)>>, Vec<usize>), BuildFault>
    requires few_nodes { length nodes.now < 2 ^ 31 }
    requires few_links { length links.now < 2 ^ 32 }
    ensures { GivesTables top free nodes.now links.now result }
{
    if let Some(node) = first_bad_index(top, nodes) {
        return Err(BuildFault::BadIndex { node });
    }
    let Ok(live) = live_nodes(alloc, nodes) else {
        return Err(BuildFault::NoMemory);
    };
    if let Some(link) = first_bad_port(free, &live, links) {
        return Err(BuildFault::BadPort { link });
    }
    match table_of(alloc, free, &live, links) {
        Ok(partners) => Ok((live, partners)),
        Err(fault) => Err(fault),
    }
}
