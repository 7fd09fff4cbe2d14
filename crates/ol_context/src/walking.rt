//! Walks with a budget.

ghost use Rattle.std.specs.Prelude.{◌<◌, IfOk};
ghost use Rattle.ol_net.specs.Numbered.{net_of};
ghost use Rattle.ol_context.specs.Shapes.{AreHeld, Extends, context_of};
ghost use Rattle.ol_context.specs.WalkAnswers.{ExitsExactly, StopsExactly, StandsExactly, IsHeldExit};
ghost use Rattle.ol_context.specs.Short.{LeavesIfEnough};

use crate::answers::{Cross, Walk};
use crate::arena::Values;
use crate::crossing::cross;
use crate::row::Context;
use ol_limits::NoMemory;
use ol_net::{Net, Port};

/// Walks from the free port `from`, which the net has, with a context whose levels are of this
/// holder: follows the link and traverses node after node, trying at most `edges` crossings.
///
/// `Exit` is returned exactly if a path of at most `edges` crossings leads to a free port; with
/// that port, the context there and the number of crossings. `Undefined` is returned exactly if the
/// crossing with number `crossings`, from 1, isn't defined. `Budget` is returned exactly if `edges`
/// crossings were made and the walk is at a node. `NoMemory`: no memory was found.
///
/// If no two principal ports are linked and `edges` is at least twice the number of nodes, `Exit`
/// is returned exactly if a path of any length leads to a free port.
pub fn walk(
    net: &Net,
    values: &mut Values,
    from: u32,
    context: Context,
    edges: u64,
) -> Result<Walk, NoMemory>
    requires port { from < net.now.free }
    requires held { AreHeld values.old context }
    ensures extends { Extends values.old values.new }
    ensures held { IfOk result (λ w. IsHeldExit values.new w) }
    ensures exit { IfOk result (λ w.
        ExitsExactly (net_of net.now) from (context_of values.old context) edges values.new w) }
    ensures undefined { IfOk result (λ w.
        StopsExactly (net_of net.now) from (context_of values.old context) edges w) }
    ensures budget { IfOk result (λ w.
        StandsExactly (net_of net.now) from (context_of values.old context) edges w) }
    ensures leaves { IfOk result (λ w.
        LeavesIfEnough (net_of net.now) from (context_of values.old context) edges values.new w) }
{
    net.is_net();
    let mut context = context;
    let mut at = Port::Free(from);
    let mut made: u64 = 0;
    loop {
        let Some(next) = net.partner(at) else {
            unreachable!()
        };
        if let Port::Free(port) = next {
            return Ok(Walk::Exit {
                port,
                context,
                crossings: made,
            });
        }
        if made >= edges {
            return Ok(Walk::Budget);
        }
        let crossed = cross(net, values, next, &mut context)?;
        match crossed {
            Cross::Out(port) => {
                at = port;
                made += 1;
            }
            Cross::Undefined => {
                return Ok(Walk::Undefined {
                    crossings: made + 1,
                });
            }
        }
    }
}
