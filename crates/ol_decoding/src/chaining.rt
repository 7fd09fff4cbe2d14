//! Chains: paths from a part up to the first active pair.

ghost use Rattle.std.specs.Prelude.{◌≡◌, ◌<◌, ◌≤◌, ◌*◌, length, map, IfOk, take};
ghost use Rattle.ol_net.specs.Numbered.{net_of};
ghost use Rattle.ol_context.specs.Contexts.{empty};
ghost use Rattle.ol_context.specs.Asked.{os, asked};
ghost use Rattle.ol_context.specs.Shapes.{value, IsNumberOf, AreHeld, Extends, context_of};
ghost use Rattle.ol_decoding.specs.Chaining.{FindsNode, IsEndOf, IsHeldEnd, KeepsFirst};

use ol_context::{Context, Cross, Val, Values, cross};
use ol_limits::NoMemory;
use ol_net::{Facing, Net, NodeId, Port};
use ol_readback::{Frame, Levels};
use std::alloc::Global;

/// How a chain ends.
#[derive(Drop)]
pub enum End {
    /// It stands at the principal port of this node, which is in an active pair.
    Met(NodeId),
    /// It has reached the free port with this number, with this context.
    Left { port: u32, context: Context },
    /// Its next crossing is not defined.
    Undefined,
    /// It has made twice as many crossings as there are nodes, and the next one is defined.
    Budget,
}

// The node whose principal port this is, if it is in an active pair.
fn met_at(net: &Net, at: Port) -> Option<NodeId>
    ensures { FindsNode net.now at result }
{
    let Port::Of { node, slot } = at else {
        return None;
    };
    if slot != 0 {
        return None;
    }
    match net.facing(node) {
        Facing::Active(_) => Some(node),
        _ => None,
    }
}

// The chain from the free port `from` with this context, up to its end.
fn chain(net: &Net, values: &mut Values, from: u32, question: Context) -> Result<End, NoMemory>
    requires port { from < net.now.free }
    requires held { AreHeld values.old question }
    ensures extends { Extends values.old values.new }
    ensures held { IfOk result (λ e. IsHeldEnd values.new e) }
    ensures ends { IfOk result (λ e.
        IsEndOf net.now from (context_of values.old question) values.new e) }
{
    net.is_net();
    let most = 2 * net.nodes() as u64;
    let mut at = Port::Free(from);
    let mut context = question;
    let mut made: u64 = 0;
    loop {
        let Some(next) = net.partner(at) else {
            unreachable!()
        };
        if let Some(node) = met_at(net, at) {
            return Ok(End::Met(node));
        }
        if let Port::Free(port) = next {
            return Ok(End::Left { port, context });
        }
        let crossed = cross(net, values, next, &mut context)?;
        match crossed {
            Cross::Undefined => return Ok(End::Undefined),
            Cross::Out(port) => {
                if made >= most {
                    return Ok(End::Budget);
                }
                at = port;
                made += 1;
            }
        }
    }
}

// The empty value behind so many `o`.
fn mark(values: &mut Values, lams: u32) -> Result<Val, NoMemory>
    ensures extends { Extends values.old values.new }
    ensures is { IfOk result (λ mark. IsNumberOf values.new mark (os lams empty)) }
{
    let mut mark = values.empty();
    for k in 0..lams {
        let next = values.put_o(mark)?;
        mark = next;
    }
    Ok(mark)
}

// The question to these levels for so many abstractions.
fn question(
    alloc: Global,
    values: &mut Values,
    levels: &Levels,
    lams: u32,
) -> Result<Context, NoMemory>
    requires held { AreHeld values.old levels.now }
    ensures extends { Extends values.old values.new }
    ensures held { IfOk result (λ c. AreHeld values.new c) }
    ensures is { IfOk result (λ c.
        context_of values.new c ≡ asked (map (value values.old) levels.now) lams) }
{
    let mark = mark(values, lams)?;
    let mut all = levels.copied(alloc)?;
    all.push(mark)?;
    Ok(Context::of(all))
}

// Takes the values from number `count` on away, unless the chain left: its context refers to them.
fn drop_unless_left(values: &mut Values, count: u32, end: &End)
    requires { 0 < count }
    ensures { KeepsFirst (take count values.old) values.old values.new end.now }
{
    match end {
        End::Left { .. } => {}
        _ => values.cut(count),
    }
}

/// The end of the chain that asks a frame for so many abstractions. Its port is a free port of the
/// net, and its levels are of this holder. Unless the chain leaves, no value stays that it put in.
///
/// `NoMemory`: no memory was found. Earlier values stay.
pub fn end_of(
    alloc: Global,
    net: &Net,
    values: &mut Values,
    frame: &Frame,
    lams: u32,
) -> Result<End, NoMemory>
    requires port { frame.now.port < net.now.free }
    requires held { AreHeld values.old frame.now.levels }
    ensures extends { Extends values.old values.new }
    ensures kept { IfOk result (λ e. KeepsFirst values.old values.new values.new e) }
    ensures held { IfOk result (λ e. IsHeldEnd values.new e) }
    ensures ends { IfOk result (λ e.
        IsEndOf net.now frame.now.port (asked (map (value values.old) frame.now.levels) lams)
        values.new e) }
{
    let count = values.count();
    let question = question(alloc, values, &frame.levels, lams)?;
    let end = chain(net, values, frame.port, question)?;
    drop_unless_left(values, count, &end);
    Ok(end)
}
