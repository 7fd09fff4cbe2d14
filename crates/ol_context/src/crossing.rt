//! Crossings: the traversal of a node.

ghost use Rattle.std.specs.Prelude.{◌≡◌, ◌≤◌, IfOk, OnErr};
ghost use Rattle.ol_net.specs.Parts.{arity};
ghost use Rattle.ol_context.specs.Shapes.{AreHeld, Extends};
ghost use Rattle.ol_context.specs.Crossed.{IsNodePort, LeavesNode, IsUndefinedExactly};
ghost use Rattle.ol_context.specs.Crossings.{IsCrossed};

use crate::answers::Cross;
use crate::arena::{Val, Values};
use crate::changes::{fall, rise};
use crate::row::Context;
use ol_limits::NoMemory;
use ol_net::{Kind, Net, Port};

// Enters a node of this kind and index by a slot, and changes the levels. The answer is the slot by
// which the walk leaves.
pub fn cross_node(
    values: &mut Values,
    levels: &mut Vec<Val>,
    kind: Kind,
    index: u32,
    slot: u8,
) -> Result<Option<u8>, NoMemory>
    requires held { AreHeld values.old levels.old.items }
    requires slot { slot ≤ arity kind }
    ensures extends { Extends values.old values.new }
    ensures held { AreHeld values.new levels.new.items }
    ensures crossed { IfOk result (λ r.
        IsCrossed kind index slot values.old values.new levels.old.items levels.new.items r) }
    ensures err { OnErr result (levels.new.items ≡ levels.old.items) }
{
    let i = index as usize;
    if slot == 0 {
        let fallen = fall(values, levels, kind, i)?;
        if let Some(s) = fallen {
            return Ok(Some(s + 1));
        }
        return Ok(None);
    }
    rise(values, levels, kind, i, slot - 1)?;
    Ok(Some(0))
}

/// Enters a live node by its port `at`, and changes the context, whose levels are of this holder.
///
/// `Undefined` is returned exactly if the node has no crossing from this port with this context,
/// and the context is then unchanged. `NoMemory`: no memory was found, and the context is
/// unchanged.
pub fn cross(
    net: &Net,
    values: &mut Values,
    at: Port,
    context: &mut Context,
) -> Result<Cross, NoMemory>
    requires port { IsNodePort net.now at }
    requires held { AreHeld values.old context.old }
    ensures extends { Extends values.old values.new }
    ensures held { AreHeld values.new context.new }
    ensures out { IfOk result
        (LeavesNode net.now at values.old values.new context.old context.new) }
    ensures undefined { IfOk result (IsUndefinedExactly net.now at values.old context.old) }
    ensures unchanged { IfOk result (λ r. r ≡ Cross.Undefined → context.new ≡ context.old) }
    ensures err { OnErr result (context.new ≡ context.old) }
{
    let Port::Of { node, slot } = at else {
        unreachable!()
    };
    let Some((kind, index)) = net.kind_of(node) else {
        unreachable!()
    };
    let crossed = cross_node(values, &mut context.levels, kind, index, slot)?;
    let Some(slot) = crossed else {
        return Ok(Cross::Undefined);
    };
    Ok(Cross::Out(Port::Of { node, slot }))
}
