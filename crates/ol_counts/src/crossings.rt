//! The number of crossings of the readback of a net.

ghost use Rattle.std.specs.Prelude.{◌≡◌, ◌+◌, ◌<◌, ◌≤◌, length, IfOk};
ghost use Rattle.ol_net.specs.Numbered.{net_of};
ghost use Rattle.ol_context.specs.Shapes.{Extends};
ghost use Rattle.ol_readback.specs.Frames.{frames_of, ParentsFirst, AreHeldFrames, AreAtPorts};
ghost use Rattle.ol_readback.specs.Heads.{IsHeldHead};
ghost use Rattle.ol_readback.specs.Skipping.{AreSkipsOf};
ghost use Rattle.ol_counts.specs.Crossings.{IsReadBackBy};
ghost use Rattle.ol_counts.specs.ReadingCounted.{IsWalked, crossings_if};

use ol_context::{OpenWalk, Steps, Values, walk_open};
use ol_limits::NoMemory;
use ol_net::Net;
use ol_readback::{Asked, Asks, Head, leave_by, read};
use std::alloc::Global;
use std::marker::Brand;
use std::sync::ledger::{Blank, Ledger};

// The crossings of a walk that left the net, if its exit is a head.
fn crossings_if(head: &Head, crossings: u64) -> u64
    ensures { result ≡ crossings_if head.now crossings }
{
    match head {
        Head::Is { .. } => crossings,
        Head::NoHead => 0,
        Head::Budget => 0,
    }
}

// The head of the last frame by a single walk for all numbers of abstractions, and its crossings.
fn head_walked<L: Ledger>(
    alloc: Global,
    net: &Net,
    values: &mut Values,
    asked: &Asked<'_>,
    edges: u64,
    steps: &mut Steps<L>,
) -> Result<(Head, u64), NoMemory>
    requires at { asked.now.at < length asked.now.frames.now.items }
    requires parents { ParentsFirst (frames_of values.old asked.now.frames.now.items) }
    requires frames { AreHeldFrames values.old asked.now.frames.now.items }
    requires ports { AreAtPorts net.now.free asked.now.frames.now.items }
    requires skips { AreSkipsOf asked.now.frames.now.items asked.now.skips.now.items }
    ensures walked { IfOk result (λ r.
        IsWalked net.now values.old asked.now.frames.now.items asked.now.at edges
        values.new r.0 r.1) }
    ensures held { IfOk result (λ r. IsHeldHead values.new r.0) }
    ensures extends { Extends values.old values.new }
{
    net.is_net();
    let frame = &asked.frames[asked.at as usize];
    let top = net.nodes();
    let levels = frame.levels.copied(alloc)?;
    let walked = walk_open(net, values, frame.port, levels, edges, steps)?;
    match walked {
        OpenWalk::Exit {
            lams,
            port,
            context,
            crossings,
        } => {
            if lams > top as u64 {
                return Ok((Head::NoHead, 0));
            }
            let head = leave_by(alloc, values, asked, lams as u32, port, &context)?;
            let made = crossings_if(&head, crossings);
            Ok((head, made))
        }
        OpenWalk::Budget { lams } => {
            if lams > top as u64 {
                return Ok((Head::NoHead, 0));
            }
            Ok((Head::Budget, 0))
        }
        OpenWalk::Undefined { .. } => Ok((Head::NoHead, 0)),
    }
}

// The same, on a counter of its own: a ledger of at least one part.
fn head_by<L: Ledger>(
    alloc: Global,
    net: &Net,
    values: &mut Values,
    asked: &Asked<'_>,
    edges: u64,
    blank: Blank,
) -> Result<(Head, u64), NoMemory>
    requires at { asked.now.at < length asked.now.frames.now.items }
    requires parents { ParentsFirst (frames_of values.old asked.now.frames.now.items) }
    requires frames { AreHeldFrames values.old asked.now.frames.now.items }
    requires ports { AreAtPorts net.now.free asked.now.frames.now.items }
    requires skips { AreSkipsOf asked.now.frames.now.items asked.now.skips.now.items }
    requires name { blank.name ≡ L.name }
    requires parts { blank.parts ≡ L.parts }
    requires some { 0 < blank.parts }
    ensures walked { IfOk result (λ r.
        IsWalked net.now values.old asked.now.frames.now.items asked.now.at edges
        values.new r.0 r.1) }
    ensures held { IfOk result (λ r. IsHeldHead values.new r.0) }
    ensures extends { Extends values.old values.new }
{
    let mut steps: Steps<L> = Steps::new(blank);
    head_walked(alloc, net, values, asked, edges, &mut steps)
}

fn walk_counted(
    alloc: Global,
    net: &Net,
    values: &mut Values,
    asked: &Asked<'_>,
    edges: u64,
) -> Result<(Head, u64), NoMemory>
    requires at { asked.now.at < length asked.now.frames.now.items }
    requires parents { ParentsFirst (frames_of values.old asked.now.frames.now.items) }
    requires frames { AreHeldFrames values.old asked.now.frames.now.items }
    requires ports { AreAtPorts net.now.free asked.now.frames.now.items }
    requires skips { AreSkipsOf asked.now.frames.now.items asked.now.skips.now.items }
    ensures walked { IfOk result (λ r.
        IsWalked net.now values.old asked.now.frames.now.items asked.now.at edges
        values.new r.0 r.1) }
    ensures held { IfOk result (λ r. IsHeldHead values.new r.0) }
    ensures extends { Extends values.old values.new }
{
    let blank = Blank::new(1);
    head_by::<Brand>(alloc, net, values, asked, edges, blank)
}

/// Finds heads by walks of at most `edges` crossings, over a net that doesn't change, and counts the
/// crossings of the walks that lead to a head.
#[derive(Drop)]
pub struct CountedWalks {
    pub edges: u64,
    pub crossings: u64,
}

impl<'a> Asks<&'a Net> for CountedWalks {
    ghost use Rattle.std.specs.Prelude.{⊤};
    ghost use Rattle.ol_counts.specs.ReadingCounted.{IsReadByCounting};

    ghost free = { λ n. n.now.free };

    ghost ready = { λ w n. ⊤ };

    ghost reads = { λ w n w' n' heads r.
        IsReadByCounting n.now w.edges w.crossings n'.now w'.edges w'.crossings heads r };

    ghost ends = { λ w n w' n' heads. ⊥ };

    ghost stops = { λ w n w' n' heads. ⊤ };

    fn ask(
        &mut self,
        alloc: Global,
        net: &mut &'a Net,
        values: &mut Values,
        asked: &Asked<'_>,
    ) -> Result<Option<Head>, NoMemory> {
        let seen: &Net = net;
        seen.is_net();
        let walked = walk_counted(alloc, seen, values, asked, self.edges)?;
        let Some(crossings) = self.crossings.checked_add(walked.1) else {
            return Err(NoMemory);
        };
        self.crossings = crossings;
        Ok(Some(walked.0))
    }

    ghost may_stop = { λ s n s' n' heads r h. tt };
}

/// The number of crossings of the readback of a net from free port 0: the sum over the first `heads`
/// places of the crossings of the path that leads to the head. Each path has at most twice as many
/// crossings as the net has nodes. `heads` is at least 1, and the net has a free port. `NoMemory`: no
/// memory was found, or the sum is 2^64 or more.
pub fn crossings(alloc: Global, net: &Net, heads: u32) -> Result<u64, NoMemory>
    requires heads { 1 ≤ heads }
    requires root { 0 < net.now.free }
    ensures { IfOk result (IsReadBackBy (net_of net.now) heads) }
{
    net.is_net();
    let mut walks = CountedWalks {
        edges: 2 * net.nodes() as u64,
        crossings: 0,
    };
    let mut seen = net;
    let Some(_places) = read(alloc, &mut walks, &mut seen, heads)? else {
        unreachable!()
    };
    Ok(walks.crossings)
}
