//! Crossings and walks with open contexts.

ghost use Rattle.std.specs.Prelude.{◌≡◌, ◌^◌, ◌+◌, ◌-◌, ◌<◌, ◌≤◌, IfOk, OnErr};
ghost use Rattle.ol_context.specs.Shapes.{AreHeld, Extends};
ghost use Rattle.ol_context.specs.Crossed.{IsNodePort};
ghost use Rattle.ol_context.specs.Open.{IsHeldOpen};
ghost use Rattle.ol_context.specs.Passed.{GoesOut, IsBarredExactly};
ghost use Rattle.ol_context.specs.OpenWalkAnswers.{OpenExits, OpenStops, OpenStands, IsHeldOpenExit};

use crate::answers::{Cross, OpenWalk};
use crate::arena::{Val, Values};
use crate::open::OpenContext;
use crate::steps::Steps;
use ol_limits::NoMemory;
use ol_net::{Net, Port};
use std::sync::ledger::Ledger;

/// Enters a live node by its port `at`, with all contexts at once that an open context represents.
/// The values are of this holder, and `lams` is below 2^64 - 1. Counts a crossing.
///
/// The path leaves by the returned port exactly for those n for which the crossing is defined, and
/// the context represents the contexts for these n afterwards. `Undefined` is returned exactly if
/// the crossing isn't defined for any n, and the context is then unchanged. `NoMemory`: no memory
/// was found, and the context is unchanged.
pub fn cross_open<L: Ledger>(
    net: &Net,
    values: &mut Values,
    at: Port,
    context: &mut OpenContext,
    steps: &mut Steps<L>,
) -> Result<Cross, NoMemory>
    requires port { IsNodePort net.now at }
    requires held { IsHeldOpen values.old context.old }
    requires few { context.old.lams < 2 ^ 64 - 1 }
    ensures extends { Extends values.old values.new }
    ensures held { IsHeldOpen values.new context.new }
    ensures out { IfOk result (GoesOut net.now at values.old values.new context.old context.new) }
    ensures undefined { IfOk result (IsBarredExactly net.now at values.old context.old) }
    ensures unchanged { IfOk result (λ r. r ≡ Cross.Undefined → context.new ≡ context.old) }
    ensures err { OnErr result (context.new ≡ context.old) }
    ensures lams { context.new.lams ≤ context.old.lams + 1 }
    ensures ticks { steps.new ≡ steps.old + 1 }
{
    steps.tick();
    let Port::Of { node, slot } = at else {
        unreachable!()
    };
    let Some((kind, index)) = net.kind_of(node) else {
        unreachable!()
    };
    let crossed = context.pass(values, kind, index, slot)?;
    let Some(slot) = crossed else {
        return Ok(Cross::Undefined);
    };
    Ok(Cross::Out(Port::Of { node, slot }))
}

/// Walks from the free port `from`, which the net has, for all numbers of abstractions at once: the
/// walk for n starts with these levels, which are of this holder, followed by a level of n times
/// `o` before the empty value, and by empty levels. Tries, and counts, at most `edges` crossings.
///
/// `Exit` and `Budget` are returned exactly if `walk` for `lams` abstractions returns the same
/// answer and a crossing isn't defined for each smaller number. `Undefined` is returned exactly if
/// a crossing isn't defined for every number. `NoMemory`: no memory was found.
pub fn walk_open<L: Ledger>(
    net: &Net,
    values: &mut Values,
    from: u32,
    levels: Vec<Val>,
    edges: u64,
    steps: &mut Steps<L>,
) -> Result<OpenWalk, NoMemory>
    requires port { from < net.now.free }
    requires held { AreHeld values.old levels.items }
    ensures extends { Extends values.old values.new }
    ensures held { IfOk result (IsHeldOpenExit values.new) }
    ensures exit { IfOk result (OpenExits net.now from values.old levels.items edges values.new) }
    ensures undefined { IfOk result (OpenStops net.now from values.old levels.items edges) }
    ensures budget { IfOk result (OpenStands net.now from values.old levels.items edges) }
    ensures ticks { steps.new ≤ steps.old + edges }
{
    net.is_net();
    let mut context = OpenContext::of(levels);
    let mut at = Port::Free(from);
    let mut made: u64 = 0;
    loop {
        let Some(next) = net.partner(at) else {
            unreachable!()
        };
        if let Port::Free(port) = next {
            let lams = context.lams();
            let context = context.closed(values)?;
            return Ok(OpenWalk::Exit {
                lams,
                port,
                context,
                crossings: made,
            });
        }
        if made >= edges {
            let lams = context.lams();
            return Ok(OpenWalk::Budget { lams });
        }
        let crossed = cross_open(net, values, next, &mut context, steps)?;
        match crossed {
            Cross::Out(port) => {
                at = port;
                made += 1;
            }
            Cross::Undefined => {
                return Ok(OpenWalk::Undefined {
                    lams: context.lams(),
                    crossings: made + 1,
                });
            }
        }
    }
}
