//! Reading the places of a term, and a whole net.

ghost use Rattle.std.specs.Prelude.{◌≡◌, ℕ, ◌+◌, ◌-◌, ◌^◌, ◌<◌, ◌≤◌, ◌++◌, [], ◌∷◌, List, length, replicate, option_to_list, None, Some, IfOk, OnOk, OnErr, IfSome, MatchOption, true, false};
ghost use Rattle.ol_net.specs.Numbered.{net_of};
ghost use Rattle.ol_context.specs.Contexts.{Level};
ghost use Rattle.ol_context.specs.Shapes.{Extends};
ghost use Rattle.ol_context.specs.Short.{HasNoFacing};
ghost use Rattle.ol_readback.specs.Askers.{the_start, IsReadTo};
ghost use Rattle.ol_readback.specs.Frames.{frames_of};
ghost use Rattle.ol_readback.specs.Skipping.{AreSkipsOf, HaveSkip, AreParentsFirst};
ghost use Rattle.ol_readback.specs.Texts.{AreNamed};
ghost use Rattle.ol_readback.specs.ReadTrees.{IsTree, port_of};
ghost use Rattle.ol_readback.specs.Groups.{IsNextFrame};
ghost use Rattle.ol_readback.specs.NextPlaces.{IsReader, IsReadNext, StopsNext, AreHeldIfSome, ArePlacedIfSome};
ghost use Rattle.ol_readback.specs.Sources.{HasHeadsOf};
ghost use Rattle.ol_readback.specs.Reading.{IsKnown, cuts_of};
ghost use Rattle.ol_readback.specs.declared.answers.ReadNode.TheVariants.{Cut};

use crate::answers::{Head, HeadVar, ReadNode};
use crate::askers::{Asks, Walks};
use crate::frames::{Asked, Frame};
use crate::groups::{Group, group_of, next};
use crate::levels::Levels;
use crate::skipping::skip_from;
use crate::tree::ReadTree;
use ol_context::Values;
use ol_limits::NoMemory;
use ol_net::Net;
use std::alloc::Global;

/// The port by which the walk of a head with this variable left, which is free or a binder of one
/// of these frames.
fn exit_port(frames: &Vec<Frame>, var: HeadVar) -> u32
    requires { IsKnown (length frames.now.items) var }
    ensures { (vs : List Level) → result ≡ port_of (frames_of vs frames.now.items) var }
{
    match var {
        HeadVar::Bound { node, .. } => frames[node as usize].port,
        HeadVar::Free(port) => port,
    }
}

/// Adds the frame, and to the skips the nearest frame round it that has abstractions. `NoMemory`: no
/// memory was found.
fn add_frame(
    frames: &mut Vec<Frame>,
    skips: &mut Vec<Option<u32>>,
    frame: Frame,
) -> Result<(), NoMemory>
    requires parents { AreParentsFirst frames.old.items }
    requires parent { (p : ℕ) → frame.parent ≡ Some p → p < length frames.old.items }
    requires skips { AreSkipsOf frames.old.items skips.old.items }
    requires each { length skips.old.items ≡ length frames.old.items }
    ensures frames { OnOk result (frames.new.items ≡ frames.old.items ++ frame ∷ []) }
    ensures skips { OnOk result (HaveSkip frames.old.items frame skips.new.items) }
    ensures each { OnOk result (length skips.new.items ≡ length frames.new.items) }
{
    let skip = skip_from(frames, skips, frame.parent);
    skips.push(skip)?;
    frames.push(frame)?;
    Ok(())
}

/// A reading on its way: level values, the frames of the places that were asked, and their skips.
#[derive(Drop)]
struct Reader {
    values: Values,
    frames: Vec<Frame>,
    skips: Vec<Option<u32>>,
}

impl Reader {
    fn new(alloc: Global) -> Reader
        ensures frames { result.frames.items ≡ [] }
        ensures skips { result.skips.items ≡ [] }
    {
        Reader {
            values: Values::new(alloc),
            frames: Vec::new(alloc),
            skips: Vec::new(alloc),
        }
    }

    // Adds the frame and asks it: what stands at its place, and the arguments of its head. `None`:
    // the reading ends without a tree.
    fn read_frame<N, A: Asks<N>>(
        &mut self,
        alloc: Global,
        asker: &mut A,
        net: &mut N,
        frame: Frame,
    ) -> Result<Option<(ReadNode, Option<Group>)>, NoMemory>
        requires ready { A.ready asker.old net.old }
        requires reader { IsReader (A.free net.old) self.old.values self.old.frames.items
            self.old.skips.items }
        requires frame { IsNextFrame (A.free net.old) (length self.old.frames.items)
            self.old.values frame }
        requires few { length self.old.frames.items + 1 < 2 ^ 32 }
        ensures read { IfOk result
            (IsReadNext A.reads A.ends asker.old net.old asker.new net.new self.old.values
            self.new.values self.old.frames.items frame self.new.frames.items) }
        ensures stopped { OnErr result
            (StopsNext A.reads A.stops asker.old net.old asker.new net.new self.old.values
            self.old.frames.items frame) }
        ensures ready { IfOk result (λ r. A.ready asker.new net.new) }
        ensures free { IfOk result (λ r. A.free net.new ≡ A.free net.old) }
        ensures reader { IfOk result (λ r.
            IsReader (A.free net.old) self.new.values self.new.frames.items self.new.skips.items) }
        ensures held { IfOk result (AreHeldIfSome self.new.values) }
        ensures placed { IfOk result
            (ArePlacedIfSome (A.free net.old) (length self.new.frames.items)) }
        ensures longer { OnOk result
            (length self.new.frames.items ≡ length self.old.frames.items + 1) }
        ensures extends { Extends self.old.values self.new.values }
    {
        let at = self.frames.len() as u32;
        add_frame(&mut self.frames, &mut self.skips, frame)?;
        let asked = Asked {
            frames: &self.frames,
            skips: &self.skips,
            at,
        };
        let answer = asker.ask(alloc, net, &mut self.values, &asked)?;
        let Some(head) = answer else {
            return Ok(None);
        };
        match head {
            Head::NoHead => Ok(Some((ReadNode::NoHead, None))),
            Head::Budget => Ok(Some((ReadNode::Cut, None))),
            Head::Is {
                lams,
                var,
                args,
                at: levels,
            } => {
                let port = exit_port(&self.frames, var);
                let group = group_of(&mut self.values, at, port, args, levels)?;
                let read = &mut self.frames[at as usize];
                read.lams = lams;
                Ok(Some((ReadNode::Head { lams, var, args }, group)))
            }
        }
    }
}

/// Adds a place. There are fewer than 4294967296. `NoMemory`: no memory was found, or there would be
/// more.
fn put(nodes: &mut Vec<ReadNode>, node: ReadNode) -> Result<(), NoMemory>
    ensures last { OnOk result (nodes.new.items ≡ nodes.old.items ++ node ∷ []) }
    ensures few { OnOk result (length nodes.new.items < 2 ^ 32) }
{
    if nodes.len() >= 4294967295 {
        return Err(NoMemory);
    }
    nodes.push(node)?;
    Ok(())
}

/// Adds the group, if there is one. `NoMemory`: no memory was found.
fn add(pending: &mut Vec<Group>, group: Option<Group>) -> Result<(), NoMemory>
    ensures { OnOk result (pending.new.items ≡ pending.old.items ++ option_to_list group) }
{
    match group {
        None => Ok(()),
        Some(group) => {
            pending.push(group)?;
            Ok(())
        }
    }
}

// Cuts as many places.
fn cut(nodes: &mut Vec<ReadNode>, count: u32) -> Result<(), NoMemory>
    requires { length nodes.old.items < 2 ^ 32 }
    ensures cut { OnOk result (nodes.new.items ≡ nodes.old.items ++ replicate count Cut) }
    ensures few { OnOk result (length nodes.new.items < 2 ^ 32) }
{
    for place in 0..count {
        put(nodes, ReadNode::Cut)?;
    }
    Ok(())
}

/// Cuts all arguments that are left. `NoMemory`: no memory was found, or there would be too many
/// places.
fn cut_all(nodes: &mut Vec<ReadNode>, pending: &mut Vec<Group>) -> Result<(), NoMemory>
    requires { length nodes.old.items < 2 ^ 32 }
    ensures cut { OnOk result
        ((vs : List Level) → nodes.new.items ≡ nodes.old.items ++ cuts_of vs pending.old.items) }
    ensures few { OnOk result (length nodes.new.items < 2 ^ 32) }
{
    while let Some(group) = pending.pop() {
        cut(nodes, group.args.saturating_sub(group.done))?;
    }
    Ok(())
}

// The frame of the whole term, which is read from free port 0.
fn first_frame(alloc: Global) -> Frame
    ensures { result ≡ record { port = 0; levels = []; parent = None; lams = 0 } }
{
    Frame {
        port: 0,
        levels: Levels::of(Vec::new(alloc)),
        parent: None,
        lams: 0,
    }
}

// Reads one place after another from free port 0 on, and adds what they are. `false`: the reading
// ends without a tree. The reader is new, and no place and no group is there yet.
fn read_on<N, A: Asks<N>>(
    alloc: Global,
    asker: &mut A,
    net: &mut N,
    heads: u32,
    reader: &mut Reader,
    nodes: &mut Vec<ReadNode>,
    pending: &mut Vec<Group>,
) -> Result<bool, NoMemory>
    requires heads { 1 ≤ heads }
    requires root { 0 < A.free net.old }
    requires ready { A.ready asker.old net.old }
    requires begins { A.reads asker.old net.old asker.old net.old heads the_start }
    requires frames { reader.old.frames.items ≡ [] }
    requires skips { reader.old.skips.items ≡ [] }
    requires nodes { nodes.old.items ≡ [] }
    requires pending { pending.old.items ≡ [] }
    ensures read { IfOk result (λ is_read. is_read ≡ true →
        IsReadTo A.reads asker.old net.old asker.new net.new heads nodes.new.items) }
    ensures ends { IfOk result (λ is_read. is_read ≡ false →
        A.ends asker.old net.old asker.new net.new heads) }
    ensures few { OnOk result (length nodes.new.items < 2 ^ 32) }
    ensures free { OnOk result (A.free net.new ≡ A.free net.old) }
    ensures stopped { OnErr result (A.stops asker.old net.old asker.new net.new heads) }
{
    let mut frame = first_frame(alloc);
    let most = heads as usize;
    'places: loop {
        let Some((node, group)) = reader.read_frame(alloc, asker, net, frame)? else {
            return Ok(false);
        };
        put(nodes, node)?;
        add(pending, group)?;
        if reader.frames.len() >= most {
            cut_all(nodes, pending)?;
            return Ok(true);
        }
        let Some(argument) = next(alloc, &mut reader.values, pending)? else {
            return Ok(true);
        };
        frame = argument;
    }
}

// As `read_on`, with a new reader.
fn read_into<N, A: Asks<N>>(
    alloc: Global,
    asker: &mut A,
    net: &mut N,
    heads: u32,
    nodes: &mut Vec<ReadNode>,
) -> Result<bool, NoMemory>
    requires heads { 1 ≤ heads }
    requires root { 0 < A.free net.old }
    requires ready { A.ready asker.old net.old }
    requires begins { A.reads asker.old net.old asker.old net.old heads the_start }
    requires nodes { nodes.old.items ≡ [] }
    ensures read { IfOk result (λ is_read. is_read ≡ true →
        IsReadTo A.reads asker.old net.old asker.new net.new heads nodes.new.items) }
    ensures ends { IfOk result (λ is_read. is_read ≡ false →
        A.ends asker.old net.old asker.new net.new heads) }
    ensures few { OnOk result (length nodes.new.items < 2 ^ 32) }
    ensures free { OnOk result (A.free net.new ≡ A.free net.old) }
    ensures stopped { OnErr result (A.stops asker.old net.old asker.new net.new heads) }
{
    let mut reader = Reader::new(alloc);
    let mut pending: Vec<Group> = Vec::new(alloc);
    read_on(alloc, asker, net, heads, &mut reader, nodes, &mut pending)
}

/// The places of the term at free port 0, in preorder. `asker` finds the heads of the first `heads`
/// places. Every later place is `Cut`, and so is each place with the answer `Head::Budget`.
///
/// `None`: the reading ends without a tree. `NoMemory`: no memory was found. `heads` is at least 1,
/// there is a free port, and the precondition of the asker holds.
pub fn read<N, A: Asks<N>>(
    alloc: Global,
    asker: &mut A,
    net: &mut N,
    heads: u32,
) -> Result<Option<Vec<ReadNode>>, NoMemory>
    requires heads { 1 ≤ heads }
    requires root { 0 < A.free net.old }
    requires ready { A.ready asker.old net.old }
    requires begins { A.reads asker.old net.old asker.old net.old heads the_start }
    ensures read { IfOk result (λ r.
        MatchOption r (A.ends asker.old net.old asker.new net.new heads)
        (λ ns. IsReadTo A.reads asker.old net.old asker.new net.new heads ns.items)) }
    ensures few { IfOk result (λ r. IfSome r (λ ns. length ns.items < 2 ^ 32)) }
    ensures free { IfOk result (λ r. A.free net.new ≡ A.free net.old) }
    ensures stopped { OnErr result (A.stops asker.old net.old asker.new net.new heads) }
{
    let mut nodes: Vec<ReadNode> = Vec::new(alloc);
    let is_read = read_into(alloc, asker, net, heads, &mut nodes)?;
    if is_read {
        return Ok(Some(nodes));
    }
    Ok(None)
}

/// The term that a net represents, read from free port 0.
///
/// The heads of the first `heads` places are computed, each by walks of at most `edges` crossings.
/// Every later place is `Cut`, and so is each place with the answer `Head::Budget`. `NoMemory`: no
/// memory was found. `heads` is at least 1, and the net has a free port. The free names of the tree
/// are the free ports of the net from port 1 on.
///
/// Each head of the tree is the head of its place by paths of any length. If no two principal ports
/// are linked, a place without a head has no head by paths of any length either.
pub fn read_back(alloc: Global, net: &Net, heads: u32, edges: u64) -> Result<ReadTree, NoMemory>
    requires heads { 1 ≤ heads }
    requires root { 0 < net.now.free }
    ensures tree { IfOk result (λ t. IsTree (net_of net.now) heads edges t) }
    ensures names { IfOk result (λ t. AreNamed (net.now.free - 1) t) }
    ensures heads { IfOk result (λ t. HasHeadsOf (net_of net.now) false t) }
    ensures lost { IfOk result (λ t.
        HasNoFacing (net_of net.now) → HasHeadsOf (net_of net.now) true t) }
{
    net.is_net();
    let mut walks = Walks { edges };
    let mut seen = net;
    let Some(nodes) = read(alloc, &mut walks, &mut seen, heads)? else {
        unreachable!()
    };
    Ok(ReadTree::of(nodes))
}
