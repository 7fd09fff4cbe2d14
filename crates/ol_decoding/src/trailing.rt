//! The lines of one path.

ghost use Rattle.std.specs.Prelude.{◌≡◌, ◌<◌, ◌++◌, IfOk, OnOk};
ghost use Rattle.ol_net.specs.Nets.{free};
ghost use Rattle.ol_net.specs.Numbered.{net_of, numbered_port};
ghost use Rattle.ol_net.specs.PartTexts.{port_text};
ghost use Rattle.ol_context.specs.Shapes.{AreHeld, Extends, context_of};
ghost use Rattle.ol_context.specs.Crossed.{IsNodePort};
ghost use Rattle.ol_decoding.specs.Lines.{entered_text, gone_line, more_line};
ghost use Rattle.ol_decoding.specs.AddedLines.{AddsBarred, AddsCrossing, AddsTrail};

use crate::writing::put_context;
use ol_context::{Context, Cross, Values, cross};
use ol_limits::NoMemory;
use ol_net::{IndexOf, Kind, Net, NodeId, Port};
use ol_subjects::{put, put_shown};
use std::alloc::Global;

/// How the lines of a path end.
#[derive(Clone, Copy, Debug, PartialEq, Eq)]
pub enum Ending {
    /// At a free port.
    Gone,
    /// At a crossing that is not defined.
    Barred,
    /// As no line was left.
    More,
}

// Appends the port that is entered, and what its node is.
fn put_entered(
    alloc: Global,
    text: &mut Vec<u8>,
    node: NodeId,
    slot: u8,
    of: IndexOf,
) -> Result<(), NoMemory>
    ensures { OnOk result
        (text.new.items ≡ text.old.items ++ entered_text node.0 slot of.kind of.index) }
{
    put_shown(alloc, text, &Port::Of { node, slot })?;
    put(text, b" ")?;
    put_shown(alloc, text, &of.kind)?;
    put(text, b" ")?;
    put_shown(alloc, text, &of)?;
    put(text, b" ")?;
    Ok(())
}

// Appends the line of a crossing from a port of a node, with the port by which the node is left.
fn put_crossing(
    alloc: Global,
    text: &mut Vec<u8>,
    net: &Net,
    values: &Values,
    at: Port,
    out: Port,
    context: &Context,
) -> Result<(), NoMemory>
    requires port { IsNodePort net.now at }
    requires held { AreHeld values.now context.now }
    ensures { OnOk result (AddsCrossing (net_of net.now) (numbered_port at) (port_text out)
        (context_of values.now context.now) text.old.items text.new.items) }
{
    let Port::Of { node, slot } = at else {
        unreachable!()
    };
    let Some((kind, index)) = net.kind_of(node) else {
        unreachable!()
    };
    put_entered(alloc, text, node, slot, IndexOf { kind, index })?;
    put_shown(alloc, text, &out)?;
    put(text, b" ")?;
    put_context(alloc, text, values, context)?;
    put(text, b"\n")?;
    Ok(())
}

// Appends the line of a crossing from a port of a node that is not defined.
fn put_barred(alloc: Global, text: &mut Vec<u8>, net: &Net, at: Port) -> Result<(), NoMemory>
    requires port { IsNodePort net.now at }
    ensures { OnOk result
        (AddsBarred (net_of net.now) (numbered_port at) text.old.items text.new.items) }
{
    let Port::Of { node, slot } = at else {
        unreachable!()
    };
    let Some((kind, index)) = net.kind_of(node) else {
        unreachable!()
    };
    put_entered(alloc, text, node, slot, IndexOf { kind, index })?;
    put(text, b"undefined\n")?;
    Ok(())
}

fn put_gone(alloc: Global, text: &mut Vec<u8>, port: u32) -> Result<(), NoMemory>
    ensures { OnOk result (text.new.items ≡ text.old.items ++ gone_line port) }
{
    put(text, b"out ")?;
    put_shown(alloc, text, &Port::Free(port))?;
    put(text, b"\n")?;
    Ok(())
}

/// Appends the lines of the path from the free port `from`, which the net has, with a context whose
/// levels are of this holder: one for each crossing that is tried, of which there are `lines` at
/// most. How they end, and how many lines are left. `NoMemory`: no memory was found.
#[tactic(auto, using(ol_context::proofs::Walked::node_port, crate::proofs::Trailed::begins, crate::proofs::Trailed::leaves, crate::proofs::Trailed::used_up, crate::proofs::Trailed::stops, crate::proofs::Trailed::goes_on))]
pub fn trail(
    alloc: Global,
    net: &Net,
    values: &mut Values,
    text: &mut Vec<u8>,
    from: u32,
    context: Context,
    lines: u32,
) -> Result<(Ending, u32), NoMemory>
    requires port { from < net.now.free }
    requires held { AreHeld values.old context }
    ensures trail { IfOk result (λ r. AddsTrail (net_of net.now) (free from)
        (context_of values.old context) lines text.old.items text.new.items r.0 r.1) }
    ensures extends { Extends values.old values.new }
{
    net.is_net();
    let mut context = context;
    let mut at = Port::Free(from);
    let mut left = lines;
    loop {
        let Some(next) = net.partner(at) else {
            unreachable!()
        };
        if let Port::Free(port) = next {
            put_gone(alloc, text, port)?;
            return Ok((Ending::Gone, left));
        }
        if left == 0 {
            put(text, b"...\n")?;
            return Ok((Ending::More, 0));
        }
        let crossed = cross(net, values, next, &mut context)?;
        match crossed {
            Cross::Out(out) => {
                put_crossing(alloc, text, net, values, next, out, &context)?;
                at = out;
                left -= 1;
            }
            Cross::Undefined => {
                put_barred(alloc, text, net, next)?;
                return Ok((Ending::Barred, left - 1));
            }
        }
    }
}
