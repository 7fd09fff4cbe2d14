//! Chains: paths up to the first active pair.

ghost use Rattle.std.specs.Prelude.{◌≡◌, ◌<◌, ◌+◌, IfOk, length};
ghost use Rattle.ol_net.specs.Nets.{IsPort};
ghost use Rattle.ol_net.specs.Numbered.{net_of, numbered_port, PortsLinked};
ghost use Rattle.ol_context.specs.Shapes.{AreHeld, Extends};
ghost use Rattle.ol_demand.specs.Chaining.{FindsPair, GoesOnTo, IsHeldEnd, IsQuestion, IsAtPrincipal, StepsBack};

use crate::answers::{End, Walker};
use ol_context::{Context, Cross, Val, Values, cross};
use ol_limits::NoMemory;
use ol_net::{Facing, Net, NodeId, Port};
use ol_readback::Levels;
use std::alloc::Global;

// The active pair whose principal ports the link of these two ports joins.
fn pair_at(net: &Net, at: Port, next: Port) -> Option<(NodeId, NodeId)>
    requires { PortsLinked net.now at next }
    ensures { FindsPair net.now at result }
{
    net.is_net();
    let Port::Of { node: first, slot } = at else {
        return None;
    };
    if slot != 0 {
        return None;
    }
    let Port::Of {
        node: second,
        slot: entered,
    } = next
    else {
        return None;
    };
    if entered != 0 {
        return None;
    }
    let Facing::Active(_) = net.facing(first) else {
        return None;
    };
    Some((first, second))
}

/// Continues a chain to its end. Its port is a port of the net, and its context is of this holder.
///
/// `NoMemory`: no memory was found. Values held before are unchanged.
pub fn chain(net: &Net, values: &mut Values, walker: Walker) -> Result<End, NoMemory>
    requires port { IsPort (net_of net.now) (numbered_port walker.at) }
    requires held { AreHeld values.old walker.context }
    ensures extends { Extends values.old values.new }
    ensures held { IfOk result (λ e. IsHeldEnd values.new e) }
    ensures ends { IfOk result (λ e. GoesOnTo net.now values.old walker values.new e) }
{
    net.is_net();
    let most = 2 * net.nodes() as u64;
    let mut at = walker.at;
    let mut made = walker.made;
    let mut context = walker.context;
    loop {
        let Some(next) = net.partner(at) else {
            unreachable!()
        };
        if let Some(pair) = pair_at(net, at, next) {
            let walker = Walker { at, context, made };
            return Ok(End::Met { pair, walker });
        }
        if let Port::Free(port) = next {
            return Ok(End::Left { port, context });
        }
        let crossed = cross(net, values, next, &mut context)?;
        match crossed {
            Cross::Undefined => return Ok(End::Undefined),
            Cross::Out(port) => {
                if made >= most {
                    return Ok(End::Budget);
                }
                at = port;
                made += 1;
            }
        }
    }
}

/// The chain from the free port `from` with these levels, for as many abstractions as `mark` has
/// `o` before the empty value, before its first crossing.
pub fn begin(alloc: Global, from: u32, levels: &Levels, mark: Val) -> Result<Walker, NoMemory>
    ensures { IfOk result (λ w. IsQuestion from levels.now mark w) }
{
    let mut levels = levels.copied(alloc)?;
    levels.push(mark)?;
    Ok(Walker {
        at: Port::Free(from),
        context: Context::of(levels),
        made: 0,
    })
}

/// The chain at the link of an active pair, before its last crossing: it is about to enter the
/// first node of the pair, by an auxiliary port. The interaction of the pair preserves all nodes
/// traversed before.
pub fn step_back(net: &Net, values: &mut Values, walker: Walker) -> Result<Walker, NoMemory>
    requires held { AreHeld values.old walker.context }
    requires at { IsAtPrincipal net.now values.old walker }
    ensures extends { Extends values.old values.new }
    ensures back { IfOk result (λ w. StepsBack net.now values.old walker values.new w) }
{
    net.is_net();
    let mut context = walker.context;
    let crossed = cross(net, values, walker.at, &mut context)?;
    let Cross::Out(port) = crossed else {
        unreachable!()
    };
    let Some(at) = net.partner(port) else {
        unreachable!()
    };
    let made = walker.made - 1;
    Ok(Walker { at, context, made })
}
