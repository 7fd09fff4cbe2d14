//! The head of a frame by a walk.

ghost use Rattle.std.specs.Prelude.{◌≡◌, ◌<◌, ◌≤◌, ◌+◌, length, IfOk};
ghost use Rattle.ol_context.specs.Shapes.{Extends};
ghost use Rattle.ol_readback.specs.Frames.{frames_of, ParentsFirst, AreHeldFrames, AreAtPorts};
ghost use Rattle.ol_readback.specs.Heads.{IsHeldHead};
ghost use Rattle.ol_readback.specs.Skipping.{AreSkipsOf};
ghost use Rattle.ol_readback.specs.Asking.{IsAnswerOfAsking, IsHeadIfFound, IsLostIfNoHead, IsRingIfBudget, IsUnchangedUnlessFound};
ghost use Rattle.ol_readback.specs.Searches.{IsAsked, KeepsFirst};

use crate::answers::Head;
use crate::frames::{Asked, Frame};
use crate::leaving::leave_by;
use ol_context::{OpenWalk, Steps, Values, walk_open};
use ol_limits::NoMemory;
use ol_net::Net;
use std::alloc::Global;
use std::marker::Brand;
use std::sync::ledger::{Blank, Ledger};

// What one walk for all numbers of abstractions says of frame `at`.
fn ask_by_walk<L: Ledger>(
    alloc: Global,
    net: &Net,
    values: &mut Values,
    asked: &Asked<'_>,
    edges: u64,
    steps: &mut Steps<L>,
) -> Result<Head, NoMemory>
    requires at { asked.now.at < length asked.now.frames.now.items }
    requires parents { ParentsFirst (frames_of values.old asked.now.frames.now.items) }
    requires frames { AreHeldFrames values.old asked.now.frames.now.items }
    requires ports { AreAtPorts net.now.free asked.now.frames.now.items }
    requires skips { AreSkipsOf asked.now.frames.now.items asked.now.skips.now.items }
    ensures answer { IfOk result
        (IsAsked net.now values.old asked.now.frames.now.items asked.now.at edges values.new) }
    ensures held { IfOk result (IsHeldHead values.new) }
    ensures extends { Extends values.old values.new }
    ensures ticks { steps.new ≤ steps.old + edges }
{
    net.is_net();
    let frame = &asked.frames[asked.at as usize];
    let top = net.nodes();
    let levels = frame.levels.copied(alloc)?;
    let walked = walk_open(net, values, frame.port, levels, edges, steps)?;
    match walked {
        OpenWalk::Exit {
            lams,
            port,
            context,
            ..
        } => {
            if lams > top as u64 {
                return Ok(Head::NoHead);
            }
            let left = leave_by(alloc, values, asked, lams as u32, port, &context)?;
            Ok(left)
        }
        OpenWalk::Budget { lams } => {
            if lams > top as u64 {
                return Ok(Head::NoHead);
            }
            Ok(Head::Budget)
        }
        OpenWalk::Undefined { .. } => Ok(Head::NoHead),
    }
}

// Takes the values from number `count` on away, unless a head was found, which may refer to them.
fn drop_unused(values: &mut Values, count: u32, answer: &Head)
    requires { 0 < count }
    ensures { KeepsFirst count values.old values.new answer.now }
{
    match answer {
        Head::Is { .. } => {}
        Head::NoHead => values.cut(count),
        Head::Budget => values.cut(count),
    }
}

// The same, and where no head was found, no value stays that the walk put in.
fn ask_and_drop<L: Ledger>(
    alloc: Global,
    net: &Net,
    values: &mut Values,
    asked: &Asked<'_>,
    edges: u64,
    steps: &mut Steps<L>,
) -> Result<Head, NoMemory>
    requires at { asked.now.at < length asked.now.frames.now.items }
    requires parents { ParentsFirst (frames_of values.old asked.now.frames.now.items) }
    requires frames { AreHeldFrames values.old asked.now.frames.now.items }
    requires ports { AreAtPorts net.now.free asked.now.frames.now.items }
    requires skips { AreSkipsOf asked.now.frames.now.items asked.now.skips.now.items }
    ensures answer { IfOk result
        (IsAsked net.now values.old asked.now.frames.now.items asked.now.at edges values.new) }
    ensures held { IfOk result (IsHeldHead values.new) }
    ensures unchanged { IfOk result (IsUnchangedUnlessFound values.old values.new) }
    ensures extends { Extends values.old values.new }
    ensures ticks { steps.new ≤ steps.old + edges }
{
    let count = values.count();
    let answer = ask_by_walk(alloc, net, values, asked, edges, steps)?;
    drop_unused(values, count, &answer);
    Ok(answer)
}

// The same, on a counter of its own: a ledger of at least one part.
fn head_by<L: Ledger>(
    alloc: Global,
    net: &Net,
    values: &mut Values,
    asked: &Asked<'_>,
    edges: u64,
    blank: Blank,
) -> Result<Head, NoMemory>
    requires at { asked.now.at < length asked.now.frames.now.items }
    requires parents { ParentsFirst (frames_of values.old asked.now.frames.now.items) }
    requires frames { AreHeldFrames values.old asked.now.frames.now.items }
    requires ports { AreAtPorts net.now.free asked.now.frames.now.items }
    requires skips { AreSkipsOf asked.now.frames.now.items asked.now.skips.now.items }
    requires name { blank.name ≡ L.name }
    requires parts { blank.parts ≡ L.parts }
    requires some { 0 < blank.parts }
    ensures answer { IfOk result
        (IsAsked net.now values.old asked.now.frames.now.items asked.now.at edges values.new) }
    ensures held { IfOk result (IsHeldHead values.new) }
    ensures unchanged { IfOk result (IsUnchangedUnlessFound values.old values.new) }
    ensures extends { Extends values.old values.new }
{
    let mut steps: Steps<L> = Steps::new(blank);
    ask_and_drop(alloc, net, values, asked, edges, &mut steps)
}

/// The head of a frame by a single walk for all numbers of abstractions, of at most `edges`
/// crossings. If no head is found, the values that the walk added are removed. `NoMemory`: no
/// memory was found.
pub fn walk_frame(
    alloc: Global,
    net: &Net,
    values: &mut Values,
    asked: &Asked<'_>,
    edges: u64,
) -> Result<Head, NoMemory>
    requires at { asked.now.at < length asked.now.frames.now.items }
    requires parents { ParentsFirst (frames_of values.old asked.now.frames.now.items) }
    requires frames { AreHeldFrames values.old asked.now.frames.now.items }
    requires ports { AreAtPorts net.now.free asked.now.frames.now.items }
    requires skips { AreSkipsOf asked.now.frames.now.items asked.now.skips.now.items }
    ensures answer { IfOk result
        (IsAsked net.now values.old asked.now.frames.now.items asked.now.at edges values.new) }
    ensures held { IfOk result (IsHeldHead values.new) }
    ensures unchanged { IfOk result (IsUnchangedUnlessFound values.old values.new) }
    ensures extends { Extends values.old values.new }
{
    let blank = Blank::new(1);
    head_by::<Brand>(alloc, net, values, asked, edges, blank)
}

/// The head of frame `at`, by a single walk for all numbers of abstractions, whose crossings, at
/// most `edges`, are counted.
///
/// The answers and the preconditions are the same as for `head`.
pub fn head_counted<L: Ledger>(
    alloc: Global,
    net: &Net,
    values: &mut Values,
    frames: &Vec<Frame>,
    at: u32,
    edges: u64,
    steps: &mut Steps<L>,
) -> Result<Head, NoMemory>
    requires at { at < length frames.now.items }
    requires parents { ParentsFirst (frames_of values.old frames.now.items) }
    requires frames { AreHeldFrames values.old frames.now.items }
    requires ports { AreAtPorts net.now.free frames.now.items }
    ensures answer { IfOk result
        (IsAnswerOfAsking net.now values.old frames.now.items at edges values.new) }
    ensures found { IfOk result (IsHeadIfFound net.now values.old frames.now.items at values.new) }
    ensures lost { IfOk result (IsLostIfNoHead net.now values.old frames.now.items at) }
    ensures ring { IfOk result (IsRingIfBudget net.now values.old frames.now.items at edges) }
    ensures held { IfOk result (IsHeldHead values.new) }
    ensures unchanged { IfOk result (IsUnchangedUnlessFound values.old values.new) }
    ensures extends { Extends values.old values.new }
    ensures ticks { steps.new ≤ steps.old + edges }
{
    net.is_net();
    let skips: Vec<Option<u32>> = Vec::new(alloc);
    let asked = Asked {
        frames,
        skips: &skips,
        at,
    };
    let answer = ask_and_drop(alloc, net, values, &asked, edges, steps)?;
    Ok(answer)
}

// As `head_counted`, on a counter of its own: a ledger of at least one part.
fn head_on<L: Ledger>(
    alloc: Global,
    net: &Net,
    values: &mut Values,
    frames: &Vec<Frame>,
    at: u32,
    edges: u64,
    blank: Blank,
) -> Result<Head, NoMemory>
    requires at { at < length frames.now.items }
    requires parents { ParentsFirst (frames_of values.old frames.now.items) }
    requires frames { AreHeldFrames values.old frames.now.items }
    requires ports { AreAtPorts net.now.free frames.now.items }
    requires name { blank.name ≡ L.name }
    requires parts { blank.parts ≡ L.parts }
    requires some { 0 < blank.parts }
    ensures answer { IfOk result
        (IsAnswerOfAsking net.now values.old frames.now.items at edges values.new) }
    ensures found { IfOk result (IsHeadIfFound net.now values.old frames.now.items at values.new) }
    ensures lost { IfOk result (IsLostIfNoHead net.now values.old frames.now.items at) }
    ensures ring { IfOk result (IsRingIfBudget net.now values.old frames.now.items at edges) }
    ensures held { IfOk result (IsHeldHead values.new) }
    ensures unchanged { IfOk result (IsUnchangedUnlessFound values.old values.new) }
    ensures extends { Extends values.old values.new }
{
    let mut steps: Steps<L> = Steps::new(blank);
    head_counted(alloc, net, values, frames, at, edges, &mut steps)
}

/// The head of frame `at`: the exit of the walk from it for the least number of abstractions for
/// which the walk leaves the net. The numbers 0, 1, 2 and so on, up to the number of live nodes,
/// are considered up to the first number whose walk leaves the net or makes all its `edges`
/// crossings; a single walk covers all of them.
///
/// `Is` is the meaning of the first exit. `Budget` is returned exactly if one of these walks made
/// all its crossings without an exit. `NoHead` is returned exactly if none did, and either no walk
/// leaves the net or no frame binds the exit. The holder is unchanged, unless the answer is `Is`.
/// `NoMemory`: no memory was found. `at` is less than the length of the list, each parent precedes
/// its child, the port of each frame is a free port of the net, and all values are of this holder.
/// Values held before are unchanged.
///
/// The head in `Is` is also the head by paths of any length. If no two principal ports are linked,
/// the same is true of `NoHead`, and with a budget of at least twice the number of nodes `Budget`
/// is returned only if a walk is infinite.
pub fn head(
    alloc: Global,
    net: &Net,
    values: &mut Values,
    frames: &Vec<Frame>,
    at: u32,
    edges: u64,
) -> Result<Head, NoMemory>
    requires at { at < length frames.now.items }
    requires parents { ParentsFirst (frames_of values.old frames.now.items) }
    requires frames { AreHeldFrames values.old frames.now.items }
    requires ports { AreAtPorts net.now.free frames.now.items }
    ensures answer { IfOk result
        (IsAnswerOfAsking net.now values.old frames.now.items at edges values.new) }
    ensures found { IfOk result (IsHeadIfFound net.now values.old frames.now.items at values.new) }
    ensures lost { IfOk result (IsLostIfNoHead net.now values.old frames.now.items at) }
    ensures ring { IfOk result (IsRingIfBudget net.now values.old frames.now.items at edges) }
    ensures held { IfOk result (IsHeldHead values.new) }
    ensures unchanged { IfOk result (IsUnchangedUnlessFound values.old values.new) }
    ensures extends { Extends values.old values.new }
{
    let blank = Blank::new(1);
    head_on::<Brand>(alloc, net, values, frames, at, edges, blank)
}
