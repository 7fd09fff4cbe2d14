//! One part asked for its head, and those who ask part by part.

ghost use Rattle.std.specs.Prelude.{◌≡◌, ◌+◌, ◌*◌, ◌<◌, ◌≤◌, List, length, IfOk, OnOk};
ghost use Rattle.ol_net.specs.declared.parts.Rule.{Rule};
ghost use Rattle.ol_context.specs.Contexts.{Level};
ghost use Rattle.ol_context.specs.Shapes.{Extends};
ghost use Rattle.ol_readback.specs.Askers.{IsLastAsked};
ghost use Rattle.ol_readback.specs.Frames.{frame_at, frames_of};
ghost use Rattle.ol_readback.specs.Skipping.{AreParentsFirst};
ghost use Rattle.ol_rules.specs.Steps.{StepsAt};
ghost use Rattle.ol_decoding.specs.Parts.{HasDepth, IsLesser};
ghost use Rattle.ol_decoding.specs.Chaining.{IsInPair};
ghost use Rattle.ol_decoding.specs.Asking.{HasRoom, IsPartFound, IsReply, KeepsUnlessFound};

use crate::chaining::{End, end_of};
use ol_context::Values;
use ol_invariance::step_kept;
use ol_limits::NoMemory;
use ol_net::{Net, NodeId};
use ol_readback::{Asked, Asks, Frame, Head, leave_by};
use ol_rules::StepFault;
use std::alloc::Global;

// How many frames stand round frame `at`.
fn depth_of(frames: &Vec<Frame>, at: u32) -> u32
    requires at { at < length frames.now.items }
    requires parents { AreParentsFirst frames.now.items }
    ensures { (vs : List Level) → HasDepth (frames_of vs frames.now.items)
        (frame_at (frames_of vs frames.now.items) at).parent result }
{
    let mut depth: u32 = 0;
    let mut here = at;
    loop {
        let frame = &frames[here as usize];
        let Some(parent) = frame.parent else {
            return depth;
        };
        here = parent;
        depth += 1;
    }
}

// Rewrites the active pair of this node. `NoMemory`: no memory was found, and the net is as it was.
fn rewrite(net: &mut Net, at: NodeId) -> Result<(), NoMemory>
    requires few { length net.old.nodes ≤ 2000000000 }
    requires pair { IsInPair net.old at }
    ensures steps { OnOk result ((r : Rule) × StepsAt net.old net.new at.0 r) }
{
    match step_kept(net, at) {
        Ok(_) => Ok(()),
        Err(StepFault::NotActive) => unreachable!(),
        Err(StepFault::NoMemory) => Err(NoMemory),
    }
}

// The lesser of two numbers.
fn lesser(a: u32, b: u32) -> u32
    ensures { IsLesser a b result }
{
    if a <= b { a } else { b }
}

/// What comes of asking a part once.
#[derive(Drop)]
pub enum Reply {
    /// The active pair that its chain met was rewritten.
    Rewritten,
    /// The chain broke off, and there are more abstractions to be asked for.
    OneMore,
    /// It is found to be this.
    Found(Head),
}

// Asks the last of the frames once for so many abstractions. An active pair that its chain meets is
// rewritten if a step is left.
fn ask_once(
    alloc: Global,
    net: &mut Net,
    values: &mut Values,
    asked: &Asked<'_>,
    lams: u32,
    left: u32,
) -> Result<Reply, NoMemory>
    requires few { length net.old.nodes ≤ 2000000000 }
    requires asked { IsLastAsked net.old.free values.old asked.now.frames.now.items
        asked.now.skips.now.items asked.now.at }
    ensures reply { IfOk result (IsReply net.old net.new
        (frames_of values.old asked.now.frames.now.items) lams left values.new) }
    ensures kept { IfOk result (KeepsUnlessFound values.old values.new) }
    ensures extends { Extends values.old values.new }
{
    net.is_net();
    let end = end_of(alloc, net, values, &asked.frames[asked.at as usize], lams)?;
    match end {
        End::Met(node) => {
            if left == 0 {
                return Ok(Reply::Found(Head::NoHead));
            }
            rewrite(net, node)?;
            Ok(Reply::Rewritten)
        }
        End::Left { port, context } => {
            let head = leave_by(alloc, values, asked, lams, port, &context)?;
            Ok(Reply::Found(head))
        }
        End::Undefined => {
            if lams >= net.nodes() {
                return Ok(Reply::Found(Head::NoHead));
            }
            Ok(Reply::OneMore)
        }
        End::Budget => Ok(Reply::Found(Head::NoHead)),
    }
}

// What the last of the frames is found to be within so many steps, and how many were made. The net
// is what these leave.
fn ask_part(
    alloc: Global,
    net: &mut Net,
    values: &mut Values,
    asked: &Asked<'_>,
    fuel: u32,
) -> Result<(Head, u32), NoMemory>
    requires room { HasRoom net.old fuel }
    requires asked { IsLastAsked net.old.free values.old asked.now.frames.now.items
        asked.now.skips.now.items asked.now.at }
    ensures found { IfOk result (λ r.
        IsPartFound net.old net.new (frames_of values.old asked.now.frames.now.items) fuel
        values.new r.0 r.1) }
    ensures extends { Extends values.old values.new }
{
    let mut lams: u32 = 0;
    let mut made: u32 = 0;
    loop {
        let reply = ask_once(alloc, net, values, asked, lams, fuel - made)?;
        match reply {
            Reply::Rewritten => made += 1,
            Reply::OneMore => lams += 1,
            Reply::Found(head) => return Ok((head, made)),
        }
    }
}

/// Those who ask parts that are less deep than `depth`, each with so much fuel, and all of them
/// with what is left.
#[derive(Drop)]
pub struct Parts {
    pub depth: u32,
    pub fuel: u32,
    pub left: u32,
}

impl Asks<Net> for Parts {
    ghost use Rattle.std.specs.Prelude.{⊤};
    ghost use Rattle.ol_decoding.specs.Asking.{HasRoom, IsReadByParts};

    ghost free = { λ g. g.free };

    ghost ready = { λ p g. HasRoom g p.left };

    ghost reads = { λ p g p' g' heads r.
        IsReadByParts p.depth p.fuel g p.left p'.depth p'.fuel g' p'.left heads r };

    ghost ends = { λ p g p' g' heads. ⊥ };

    ghost stops = { λ p g p' g' heads. ⊤ };

    fn ask(
        &mut self,
        alloc: Global,
        net: &mut Net,
        values: &mut Values,
        asked: &Asked<'_>,
    ) -> Result<Option<Head>, NoMemory> {
        let depth = depth_of(asked.frames, asked.at);
        if depth >= self.depth {
            return Ok(Some(Head::Budget));
        }
        let fuel = lesser(self.fuel, self.left);
        let found = ask_part(alloc, net, values, asked, fuel)?;
        self.left -= found.1;
        Ok(Some(found.0))
    }

    ghost may_stop = { λ s n s' n' heads r h. tt };
}
