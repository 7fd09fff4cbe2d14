//! The text of a net under the names of a run.

ghost use Rattle.std.specs.Prelude.{◌≡◌, ◌++◌, length, IfSome, OnOk, IfOk, string_bytes, slice_index_or};
ghost use Rattle.std.specs.Fmt.{decimal};
ghost use Rattle.ol_net.specs.Graph.{kind_at, partner_of};
ghost use Rattle.ol_explain.specs.NamedTexts.{named_port, named_partner, named_free, named_node, named_nodes, named_text};
ghost use Rattle.ol_explain.specs.Besides.{port_weight, port_named, beside_words};
ghost use Rattle.ol_orders.specs.Replays.{names_of};

use ol_diamond::Weighing;
use ol_limits::NoMemory;
use ol_net::{IndexOf, NodeId, Port};
use ol_orders::Replay;
use ol_view::put_name;
use std::alloc::Global;
use std::fmt;

/// Appends some words.
pub fn put(text: &mut String, piece: &str) -> Result<(), NoMemory>
    ensures { OnOk result (string_bytes text.new ≡ string_bytes text.old ++ piece.now) }
{
    text.push_str(piece)?;
    Ok(())
}

// Appends what is shown.
fn put_shown<D: fmt::Display>(text: &mut String, shown: &D) -> Result<(), NoMemory>
    ensures { OnOk result (IfSome (D.output shown.now)
        (λ bytes. string_bytes text.new ≡ string_bytes text.old ++ bytes)) }
{
    write!(text, "{shown}")?;
    Ok(())
}

/// Appends a number.
pub fn put_number(text: &mut String, number: u32) -> Result<(), NoMemory>
    ensures { OnOk result (string_bytes text.new ≡ string_bytes text.old ++ decimal number) }
{
    write!(text, "{number}")?;
    Ok(())
}

/// Appends a number.
pub fn put_long(text: &mut String, number: u64) -> Result<(), NoMemory>
    ensures { OnOk result (string_bytes text.new ≡ string_bytes text.old ++ decimal number) }
{
    write!(text, "{number}")?;
    Ok(())
}

// Appends a port, a slot by the name of its node.
fn put_port(text: &mut String, replay: &Replay, port: Port) -> Result<(), NoMemory>
    ensures { OnOk result (string_bytes text.new
        ≡ string_bytes text.old ++ named_port (names_of replay.now) port) }
{
    match port {
        Port::Free(_) => put_shown(text, &port),
        Port::Of { node, slot } => {
            put_name(text, replay.run.names.name_of(node))?;
            put(text, ".")?;
            put_number(text, slot as u32)
        }
    }
}

/// What is written beside the partner of a port.
#[derive(Drop)]
pub enum Beside {
    Nothing,
    /// A colon, and what the link of the two weighs.
    Weights(Weighing),
}

// A weight, or 0 where there is none at this place.
fn weight_at(weights: &[u32], place: usize) -> u32
    ensures { result ≡ slice_index_or weights.now place 0 }
{
    match weights.get(place) {
        Some(weight) => *weight,
        None => 0,
    }
}

// What a port of a run's net weighs, that of a slot by the name of its node.
fn weight_of(weighing: &Weighing, replay: &Replay, port: Port) -> u32
    ensures { result ≡ port_weight weighing.now (port_named replay.now port) }
{
    match port {
        Port::Free(k) => weight_at(&weighing.weights, k as usize),
        Port::Of { node, slot } => {
            let number = match weighing.numbers.node_of(replay.run.names.name_of(node)) {
                Some(there) => there.0,
                None => 0,
            };
            let base = weighing.net.free_ports() as usize + 3 * number as usize;
            weight_at(&weighing.weights, base + slot as usize)
        }
    }
}

// Appends what is written beside the partner of a port.
fn put_beside(
    text: &mut String,
    replay: &Replay,
    beside: &Beside,
    of: Port,
    partner: Port,
) -> Result<(), NoMemory>
    ensures { OnOk result (string_bytes text.new
        ≡ string_bytes text.old ++ beside_words beside.now replay.now of partner) }
{
    match beside {
        Beside::Nothing => Ok(()),
        Beside::Weights(weighing) => {
            let here = weight_of(weighing, replay, of);
            let there = weight_of(weighing, replay, partner);
            put(text, ":")?;
            put_number(text, here.max(there))
        }
    }
}

// Appends a space and the partner of a port, and what is written beside it.
fn put_partner(
    text: &mut String,
    replay: &Replay,
    beside: &Beside,
    of: Port,
) -> Result<(), NoMemory>
    ensures { OnOk result (string_bytes text.new ≡ string_bytes text.old ++ named_partner
        (names_of replay.now) (beside_words beside.now replay.now) of
        (partner_of replay.now.net of)) }
{
    if let Some(partner) = replay.net.partner(of) {
        put(text, " ")?;
        put_port(text, replay, partner)?;
        put_beside(text, replay, beside, of, partner)?;
    }
    Ok(())
}

fn put_free_ports(text: &mut String, replay: &Replay, beside: &Beside) -> Result<(), NoMemory>
    ensures { OnOk result (string_bytes text.new ≡ string_bytes text.old ++ named_free
        (names_of replay.now) (beside_words beside.now replay.now) replay.now.net
        replay.now.net.free) }
{
    for k in 0..replay.net.free_ports() {
        put_shown(text, &Port::Free(k))?;
        put_partner(text, replay, beside, Port::Free(k))?;
        put(text, "\n")?;
    }
    Ok(())
}

// Appends the line of a node, if it is live.
fn put_node(
    text: &mut String,
    replay: &Replay,
    beside: &Beside,
    node: NodeId,
) -> Result<(), NoMemory>
    ensures { OnOk result (string_bytes text.new ≡ string_bytes text.old ++ named_node
        (names_of replay.now) (beside_words beside.now replay.now) replay.now.net node.0
        (kind_at replay.now.net.nodes node.0)) }
{
    let Some((kind, index)) = replay.net.kind_of(node) else {
        return Ok(());
    };
    put_name(text, replay.run.names.name_of(node))?;
    put(text, " ")?;
    put_shown(text, &kind)?;
    put(text, " ")?;
    put_shown(text, &IndexOf { kind, index })?;
    for slot in 0..kind.slots() {
        put_partner(text, replay, beside, Port::Of { node, slot })?;
    }
    put(text, "\n")?;
    Ok(())
}

fn put_nodes(text: &mut String, replay: &Replay, beside: &Beside) -> Result<(), NoMemory>
    ensures { OnOk result (string_bytes text.new ≡ string_bytes text.old ++ named_nodes
        (names_of replay.now) (beside_words beside.now replay.now) replay.now.net
        (length replay.now.net.nodes)) }
{
    for n in 0..replay.net.born() {
        put_node(text, replay, beside, NodeId(n))?;
    }
    Ok(())
}

/// The text of the last net of a run: as `ol view` prints a net, with names in place of numbers. A
/// name is the number of a start node, or `ticket.place` of one that was created, and a port is
/// written behind it with a dot. Beside the partner of each port stands what is asked for. The
/// nodes stand in the order of their names. `NoMemory`: no memory was found.
pub fn named_net(alloc: Global, replay: &Replay, beside: &Beside) -> Result<Vec<u8>, NoMemory>
    ensures { IfOk result (λ text. text.items ≡ named_text (names_of replay.now)
        (beside_words beside.now replay.now) replay.now.net) }
{
    let mut text = String::new(alloc);
    put(&mut text, "nodes ")?;
    put_number(&mut text, replay.net.nodes())?;
    put(&mut text, "\n")?;
    put_free_ports(&mut text, replay, beside)?;
    put_nodes(&mut text, replay, beside)?;
    Ok(text.into_bytes())
}
