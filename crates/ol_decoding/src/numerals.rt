//! Church numerals, found in a row of places: no term is built, and no call is as deep as the term.

ghost use Rattle.std.specs.Prelude.{◌≡◌, ◌<◌, length};
ghost use Rattle.ol_decoding.specs.Numerals.{IsNumeralOf};
ghost use Rattle.ol_decoding.specs.Chains.{end_at, is_own, is_place, numeral_from};

use ol_readback::{HeadVar, ReadNode, ReadTree};

// Whether a variable is this binder of the first place.
fn is_own(var: HeadVar, own: u32) -> bool
    ensures { result ≡ is_own own var }
{
    match var {
        HeadVar::Bound { node, binder } => node == 0 && binder == own,
        HeadVar::Free(_) => false,
    }
}

// Whether a place has so many abstractions, this binder of the first place, and so many arguments.
fn is_place(node: ReadNode, under: u32, own: u32, with: u32) -> bool
    ensures { result ≡ is_place under own with node }
{
    match node {
        ReadNode::Head { lams, var, args } => lams == under && (args == with && is_own(var, own)),
        ReadNode::NoHead => false,
        ReadNode::Cut => false,
    }
}

// The number of a place that ends the row: it has the second binder, and is the last.
fn end_at(tree: &ReadTree, place: u32, node: ReadNode, under: u32) -> Option<u32>
    requires { place < length tree.now }
    ensures { result ≡ end_at tree.now place under node }
{
    tree.is_whole();
    if is_place(node, under, 2, 0) && place + 1 == tree.len() {
        Some(place)
    } else {
        None
    }
}

// How many places with the first binder come before one with the second, which is the last.
fn links(tree: &ReadTree) -> Option<u32>
    ensures { result ≡ numeral_from 0 2 tree.now }
{
    let mut under = 2;
    for place in 0..tree.len() {
        let Some(node) = tree.get(place) else {
            unreachable!()
        };
        if !is_place(node, under, 1, 1) {
            return end_at(tree, place, node, under);
        }
        under = 0;
    }
    None
}

/// The number whose Church numeral a tree stands for, however deep its term is. `None`: it stands
/// for none.
pub fn numeral(tree: &ReadTree) -> Option<u32>
    ensures { IsNumeralOf tree.now result }
{
    tree.is_whole();
    links(tree)
}
