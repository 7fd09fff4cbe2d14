//! The text of a net.

ghost use Rattle.std.specs.Prelude.{◌≡◌, ◌++◌, length, OnOk, IfOk, string_bytes};
ghost use Rattle.ol_net.specs.Parts.{slots_of};
ghost use Rattle.ol_net.specs.Graph.{kind_at, partner_of};
ghost use Rattle.ol_view.specs.ShowTexts.{partner_text, node_line, show_text};
ghost use Rattle.ol_view.specs.Showing.{free_lines, partners_text, node_lines};

use crate::pieces::{put, put_number, put_shown};
use ol_limits::NoMemory;
use ol_net::{IndexOf, Net, NodeId, Port};
use std::alloc::Global;

// A space and the partner of a port.
fn put_partner(text: &mut String, net: &Net, of: Port) -> Result<(), NoMemory>
    ensures { OnOk result (string_bytes text.new
        ≡ string_bytes text.old ++ partner_text (partner_of net.now of)) }
{
    if let Some(partner) = net.partner(of) {
        put(text, " ")?;
        put_shown(text, &partner)?;
    }
    Ok(())
}

fn put_free_ports(text: &mut String, net: &Net) -> Result<(), NoMemory>
    ensures { OnOk result (string_bytes text.new
        ≡ string_bytes text.old ++ free_lines net.now net.now.free) }
{
    for k in 0..net.free_ports() {
        put_shown(text, &Port::Free(k))?;
        put_partner(text, net, Port::Free(k))?;
        put(text, "\n")?;
    }
    Ok(())
}

fn put_partners(text: &mut String, net: &Net, node: NodeId, slots: u8) -> Result<(), NoMemory>
    ensures { OnOk result (string_bytes text.new
        ≡ string_bytes text.old ++ partners_text net.now node.0 slots) }
{
    for slot in 0..slots {
        put_partner(text, net, Port::Of { node, slot })?;
    }
    Ok(())
}

// The line of a node, if it is live.
fn put_node(text: &mut String, net: &Net, node: NodeId) -> Result<(), NoMemory>
    ensures { OnOk result (string_bytes text.new
        ≡ string_bytes text.old ++ node_line net.now node.0 (kind_at net.now.nodes node.0)) }
{
    let Some((kind, index)) = net.kind_of(node) else {
        return Ok(());
    };
    put_number(text, node.0)?;
    put(text, " ")?;
    put_shown(text, &kind)?;
    put(text, " ")?;
    put_shown(text, &IndexOf { kind, index })?;
    put_partners(text, net, node, kind.slots())?;
    put(text, "\n")?;
    Ok(())
}

fn put_nodes(text: &mut String, net: &Net) -> Result<(), NoMemory>
    ensures { OnOk result (string_bytes text.new
        ≡ string_bytes text.old ++ node_lines net.now (length net.now.nodes)) }
{
    for n in 0..net.born() {
        put_node(text, net, NodeId(n))?;
    }
    Ok(())
}

/// The text of a net: the line `nodes L`, where L is the number of live nodes; a line `fk P` for
/// each free port k, where P is its partner; and a line `N kind index P0 P1 P2` for each live node
/// N in ascending order, with a partner for each of its slots. A partner is printed as `fk` for
/// free port k, and as `N.S` for slot S of node N. The index of an eraser is printed as `-`. Each
/// line ends with a line feed. `NoMemory`: no memory was found.
pub fn show(alloc: Global, net: &Net) -> Result<Vec<u8>, NoMemory>
    ensures { IfOk result (λ text. text.items ≡ show_text net.now) }
{
    let mut text = String::new(alloc);
    put(&mut text, "nodes ")?;
    put_number(&mut text, net.nodes())?;
    put(&mut text, "\n")?;
    put_free_ports(&mut text, net)?;
    put_nodes(&mut text, net)?;
    Ok(text.into_bytes())
}
