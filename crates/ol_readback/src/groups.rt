//! Arguments that are still to be read.

ghost use Rattle.std.specs.Prelude.{◌≡◌, IfOk};
ghost use Rattle.ol_context.specs.Shapes.{AreHeld, Extends};
ghost use Rattle.ol_readback.specs.Groups.{AreHeldGroups, HasTaken, IsGroupOf};

use crate::frames::Frame;
use crate::leaving::push_level;
use crate::levels::Levels;
use ol_context::{Val, Values};
use ol_limits::NoMemory;
use std::alloc::Global;

/// The arguments of a head from argument `done + 1` on. Their frames have the free port `port` and
/// the parent frame `parent`. The levels of each frame start with `at`, and the next frame's levels
/// continue with `mark`.
#[derive(Drop)]
pub struct Group {
    pub parent: u32,
    pub port: u32,
    pub at: Levels,
    pub args: u32,
    pub done: u32,
    pub mark: Val,
}

/// All arguments of a head, or `None` if it has no arguments.
pub fn group_of(
    values: &mut Values,
    parent: u32,
    port: u32,
    args: u32,
    at: Levels,
) -> Result<Option<Group>, NoMemory>
    requires { AreHeld values.old at }
    ensures group { IfOk result (λ r. IsGroupOf values.old values.new parent port args at r) }
    ensures extends { Extends values.old values.new }
{
    if args == 0 {
        return Ok(None);
    }
    let empty = values.empty();
    let mark = values.put_star(empty)?;
    Ok(Some(Group {
        parent,
        port,
        at,
        args,
        done: 0,
        mark,
    }))
}

/// The frame of the next argument, which is an argument of the last group. The number of its
/// abstractions isn't known yet.
pub fn next(
    alloc: Global,
    values: &mut Values,
    pending: &mut Vec<Group>,
) -> Result<Option<Frame>, NoMemory>
    requires { AreHeldGroups values.old pending.old.items }
    ensures next { IfOk result
        (HasTaken values.old values.new pending.old.items pending.new.items) }
    ensures extends { Extends values.old values.new }
{
    let last = pending.pop();
    match last {
        None => Ok(None),
        Some(group) => {
            let mut group = group;
            let levels = push_level(alloc, &group.at, group.mark)?;
            let frame = Frame {
                port: group.port,
                levels,
                parent: Some(group.parent),
                lams: 0,
            };
            let done = group.done + 1;
            if done >= group.args {
                return Ok(Some(frame));
            }
            group.done = done;
            group.mark = values.put_o(group.mark)?;
            pending.push(group)?;
            Ok(Some(frame))
        }
    }
}
