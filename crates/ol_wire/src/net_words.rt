//! A net laid out in words.
ghost use Rattle.std.specs.Prelude.{◌≡◌, suc, ◌<◌, ◌≤◌, [], ◌∷◌, ◌++◌, length, IfOk, OnOk, replicate, vec_len, is_some, count_by, slice_index};
ghost use Rattle.ol_rules.specs.Listed.{each};
ghost use Rattle.ol_wire.specs.References.{wire_ref};
ghost use Rattle.ol_wire.specs.Layout.{port_word, start_node, start_cell, table_size};
ghost use Rattle.ol_wire.specs.Sizes.{IsSmall, IsSmallNet};
ghost use Rattle.ol_wire.specs.Starts.{AreParts, aux_links, facing_pairs, pair_at};
ghost use Rattle.atomic_table.specs.Table.{opening};
ghost use Rattle.ol_wire.specs.Credit.{IsRuled, active_at, active_cells};
ghost use Rattle.ol_wire.specs.Weights.{sum_below};
ghost use Rattle.ol_wire.specs.Openings.{opener, Opens};
ghost use Rattle.ol_wire.specs.declared.plan.Plan.{Plan};
ghost use Rattle.ol_wire.specs.Laid.{node_word, wires_before, field_of};
ghost use Rattle.ol_wire.specs.LaidWords.{word_of_port, cell_words, port_row, field_row, HasFields, IsLaid, Gains, field_rows, cell_row, cell_rows};

use crate::layout::{BLOCK, Parts, port_word};
use crate::reference::{node_ref, wire_ref};
use crate::rewrite::active_in;
use ol_limits::{Fuel, NoMemory};
use ol_net::{Net, NodeId, Port};
use std::alloc::Global;

// The reference of a node, or 0 where no live node has the number.
fn node_word(net: &Net, parts: Parts, node: u32) -> u64
    requires small { IsSmall parts × IsSmallNet net.now }
    ensures { result ≡ node_word net.now parts node }
{
    match net.kind_of(NodeId(node)) {
        Some((kind, index)) => node_ref(kind, index, parts.start_node(node)),
        None => 0,
    }
}

// The reference of a free port.
fn port_ref(port: u32) -> u64
    requires { port < 4294967294 }
    ensures { result ≡ wire_ref (port_word port) }
{
    wire_ref(port_word(port))
}

// The word of a free port.
fn word_of_port(net: &Net, parts: Parts, port: u32) -> u64
    requires small { IsSmall parts × IsSmallNet net.now }
    ensures { result ≡ word_of_port net.now parts port }
{
    match net.partner(Port::Free(port)) {
        Some(Port::Free(other)) if port < other => port_ref(other),
        Some(Port::Free(_)) => 0,
        Some(Port::Of { node, slot: 0 }) => node_word(net, parts, node.0),
        Some(Port::Of { .. }) => 0,
        None => 0,
    }
}

// The field of slot `slot + 1` of a node, and the number of wires that have come so far. Of two
// auxiliary slots the one that comes first has the next wire, and the field of the other one is the
// same word again.
fn field_of(net: &Net, parts: Parts, words: &[u64], node: u32, slot: u8, wires: u32) -> (u64, u32)
    requires small { IsSmall parts × IsSmallNet net.now }
    requires inside { (node < length net.now.nodes) × (slot < 2) }
    requires wires { wires ≡ wires_before net.now node slot }
    requires before { HasFields net.now parts words.now node slot }
    ensures field { result.0 ≡ field_of net.now parts node slot }
    ensures wires { result.1 ≡ wires_before net.now node (suc slot) }
{
    match net.partner(Port::Of {
        node: NodeId(node),
        slot: slot + 1,
    }) {
        Some(Port::Free(port)) => (port_ref(port), wires),
        Some(
            Port::Of {
                node: other,
                slot: to,
            },
        ) => {
            if to == 0 {
                return (node_word(net, parts, other.0), wires);
            }
            if 3 * node + (slot as u32 + 1) < 3 * other.0 + to as u32 {
                return (wire_ref(parts.start_wire(wires)), wires + 1);
            }
            let at = parts.start_node(other.0) as usize + (to as usize - 1);
            (words[at], wires)
        }
        None => (0, wires),
    }
}

// As many words as are laid out, or more, so that none is copied while they are. A node has two
// fields. There are at most as many wires as nodes, and as many words of cells.
fn room_for(net: &Net, fuel: u32) -> usize {
    2 + net.free_ports() as usize + 4 * net.born() as usize + BLOCK as usize * fuel as usize
}

// Adds a word.
fn put(words: &mut Vec<u64>, word: u64) -> Result<(), NoMemory>
    ensures { OnOk result (words.new.items ≡ words.old.items ++ word ∷ []) }
{
    words.push(word)?;
    Ok(())
}

// Adds empty words.
fn put_empty(words: &mut Vec<u64>, count: u32) -> Result<(), NoMemory>
    ensures { OnOk result (words.new.items ≡ words.old.items ++ replicate count 0) }
{
    words.resize(words.len() + count as usize, 0)?;
    Ok(())
}

// Adds the words of the free ports.
fn put_ports(net: &Net, parts: Parts, words: &mut Vec<u64>) -> Result<(), NoMemory>
    requires small { IsSmall parts × IsSmallNet net.now }
    ensures { OnOk result (Gains words.old words.new (each net.now.free (port_row net.now parts))) }
{
    for port in 0..net.free_ports() {
        put(words, word_of_port(net, parts, port))?;
    }
    Ok(())
}

// Adds the two fields of a node, and answers the number of wires that have come so far.
fn put_node(
    net: &Net,
    parts: Parts,
    words: &mut Vec<u64>,
    node: u32,
    wires: u32,
) -> Result<u32, NoMemory>
    requires small { IsSmall parts × IsSmallNet net.now }
    requires inside { node < length net.now.nodes }
    requires wires { wires ≡ wires_before net.now node 0 }
    requires before { HasFields net.now parts words.old.items node 0 }
    ensures added { OnOk result (Gains words.old words.new (field_row net.now parts node)) }
    ensures before { OnOk result (HasFields net.now parts words.new.items (suc node) 0) }
    ensures wires { IfOk result (λ n. n ≡ wires_before net.now (suc node) 0) }
{
    let (one, between) = field_of(net, parts, words, node, 0, wires);
    put(words, one)?;
    let (two, after) = field_of(net, parts, words, node, 1, between);
    put(words, two)?;
    Ok(after)
}

// Adds the fields of all nodes, and answers the number of wires.
fn put_nodes(net: &Net, parts: Parts, words: &mut Vec<u64>) -> Result<u32, NoMemory>
    requires small { IsSmall parts × IsSmallNet net.now }
    requires behind { length words.old.items ≡ start_node parts 0 }
    ensures added { OnOk result (Gains words.old words.new (field_rows net.now parts)) }
    ensures wires { IfOk result (λ n. n ≡ length (aux_links net.now)) }
{
    let mut wires: u32 = 0;
    for node in 0..net.born() {
        wires = put_node(net, parts, words, node, wires)?;
    }
    Ok(wires)
}

// Adds the two words of the cell of a node that faces one of a greater number, and answers how many
// cells that is.
fn put_cell(net: &Net, parts: Parts, words: &mut Vec<u64>, node: u32) -> Result<u32, NoMemory>
    requires small { IsSmall parts × IsSmallNet net.now }
    ensures added { OnOk result (Gains words.old words.new (cell_row net.now parts node)) }
    ensures cells { IfOk result (λ n. n ≡ length (pair_at net.now node)) }
    ensures few { IfOk result (λ n. n ≤ 1) }
{
    match net.partner(Port::Of {
        node: NodeId(node),
        slot: 0,
    }) {
        Some(
            Port::Of {
                node: other,
                slot: 0,
            },
        ) if node < other.0 => {
            put(words, node_word(net, parts, node))?;
            put(words, node_word(net, parts, other.0))?;
            Ok(1)
        }
        Some(Port::Of { .. }) => Ok(0),
        Some(Port::Free(_)) => Ok(0),
        None => Ok(0),
    }
}

// Adds the cells, and answers their number.
fn put_cells(net: &Net, parts: Parts, words: &mut Vec<u64>) -> Result<u32, NoMemory>
    requires small { IsSmall parts × IsSmallNet net.now }
    ensures added { OnOk result (Gains words.old words.new (cell_rows net.now parts)) }
    ensures cells { IfOk result (λ n. n ≡ length (facing_pairs net.now)) }
    ensures few { IfOk result (λ n. n ≤ length net.now.nodes) }
{
    let mut cells: u32 = 0;
    for node in 0..net.born() {
        cells += put_cell(net, parts, words, node)?;
    }
    Ok(cells)
}

// The number of cells of the start whose pair is active.
fn count_active(parts: Parts, words: &[u64]) -> u64
    requires small { IsSmall parts }
    requires wide { length words.now ≡ table_size parts }
    ensures { result ≡ sum_below parts.cells (λ c. active_at words.now (start_cell parts c)) }
{
    let mut live: u64 = 0;
    for cell in 0..parts.cells {
        let left = parts.start_cell(cell) as usize;
        live += active_in(words[left], words[left + 1]) as u64;
    }
    live
}

// The parts, and the words.
fn lay_out(alloc: Global, net: &Net, fuel: Fuel) -> Result<(Parts, Vec<u64>), NoMemory>
    requires small { IsSmallNet net.now }
    ensures parts { IfOk result (λ r. AreParts net.now fuel.most r.0) }
    ensures small { IfOk result (λ r. IsSmall r.0) }
    ensures laid { IfOk result (λ r. IsLaid net.now r.0 r.1.items) }
    ensures live { IfOk result (λ r. slice_index r.1.items 1 ≡ active_cells r.0 r.1.items) }
{
    // Until its wires and cells are counted.
    let early = Parts {
        free: net.free_ports(),
        nodes: net.born(),
        wires: 0,
        cells: 0,
        fuel: fuel.most,
    };
    let mut words: Vec<u64> = Vec::with_capacity(alloc, room_for(net, fuel.most))?;
    put(&mut words, 0)?;
    put(&mut words, 0)?;
    put_ports(net, early, &mut words)?;
    let wires = put_nodes(net, early, &mut words)?;
    put_empty(&mut words, wires)?;
    let cells = put_cells(net, early, &mut words)?;
    put_empty(&mut words, BLOCK * fuel.most)?;
    let parts = Parts {
        wires,
        cells,
        ..early
    };
    words[1] = count_active(parts, words.as_slice());
    Ok((parts, words))
}

/// A net laid out in words, with blocks for so many tickets. Whatever number of seats up to 64 is
/// made over these words, they meet the rule of the table, with no ticket drawn.
///
/// It takes time in proportion to the number of words, and takes memory for them alone. `NoMemory`:
/// no memory was found.
pub(crate) fn lay(alloc: Global, net: &Net, fuel: Fuel) -> Result<(Parts, Vec<u64>), NoMemory>
    requires whole { count_by is_some net.now.nodes ≡ length net.now.nodes }
    requires small { IsSmallNet net.now }
    ensures parts { IfOk result (λ r. AreParts net.now fuel.most r.0) }
    ensures small { IfOk result (λ r. IsSmall r.0) }
    ensures words { IfOk result (λ r. vec_len r.1 ≡ table_size r.0) }
    ensures kept { IfOk result (λ r. Opens net.now r.0 r.1.items) }
{
    net.is_net();
    net.is_tabled();
    let (parts, words) = lay_out(alloc, net, fuel)?;
    Ok((parts, words))
}
