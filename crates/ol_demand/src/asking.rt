//! Heads found by chains, whose active pairs are rewritten.

ghost use Rattle.std.specs.Prelude.{◌≡◌, ◌<◌, ◌≤◌, ◌+◌, ◌*◌, ◌^◌, length, IfOk, OnOk, OnErr};
ghost use Rattle.ol_net.specs.declared.parts.Rule.{Rule};
ghost use Rattle.ol_net.specs.Numbered.{net_of};
ghost use Rattle.ol_rules.specs.UnderWay.{IsPair};
ghost use Rattle.ol_context.specs.Shapes.{Extends};
ghost use Rattle.ol_readback.specs.Askers.{IsHeldIfSome, IsKnownIfSome};
ghost use Rattle.ol_readback.specs.Frames.{frames_of, ParentsFirst, AreHeldFrames, AreAtPorts};
ghost use Rattle.ol_readback.specs.Heads.{IsHeldHead};
ghost use Rattle.ol_readback.specs.Skipping.{AreSkipsOf};
ghost use Rattle.ol_demand.specs.Chaining.{IsKeptOrCut, GoesOnOrBegins};
ghost use Rattle.ol_demand.specs.Asking.{IsRunning, IsAnswered, IsSpentIfNone, IsStopped, AdvancesEither, StopsEither};

use crate::answers::{End, Walker};
use crate::chaining::{begin, chain, step_back};
use ol_context::{Val, Values};
use ol_limits::NoMemory;
use ol_net::{Net, NodeId};
use ol_readback::{Asked, Asks, Frame, Head, leave_by};
use ol_rules::UnderWay;
use std::alloc::Global;

// How many level values a chain may have made for each of its crossings.
const VALUES_PER_CROSSING: u64 = 8;

// How many it may have made besides, so that a short chain doesn't begin anew again and again.
const VALUES_BESIDES: u64 = 64;

// The chain in the net after the step of the pair that it met. It goes on from `before`, if these
// crossings are within its new budget, and not too many values were made since number `count`. Else
// it begins anew, and these values are taken away.
//
// A crossing makes one value at most, and one that is taken back leaves its value behind. So where
// a chain begins anew, more than eight times as many crossings were made since it last began as are
// now made again.
fn resume(
    alloc: Global,
    net: &Net,
    values: &mut Values,
    frame: &Frame,
    mark: Val,
    count: u32,
    before: Walker,
) -> Result<Walker, NoMemory>
    requires some { 0 < count }
    requires counted { count ≤ length values.old }
    ensures kept { IsKeptOrCut count values.old values.new }
    ensures resumes { IfOk result (λ w.
        GoesOnOrBegins net.now frame.now.port frame.now.levels mark before values.old w values.new) }
{
    if before.made <= 2 * net.nodes() as u64 {
        let since = (values.count() - count) as u64;
        if since <= VALUES_PER_CROSSING * before.made + VALUES_BESIDES {
            return Ok(before);
        }
    }
    values.cut(count);
    let anew = begin(alloc, frame.port, &frame.levels, mark)?;
    Ok(anew)
}

// Rewrites the active pair of these two nodes, and writes it down, the one with the smaller number
// first. `NoMemory`: no memory was found, and the net is as it was, or one step on.
fn rewrite_met(run: &mut UnderWay, net: &mut Net, x: NodeId, y: NodeId) -> Result<(), NoMemory>
    requires few { length net.old.nodes ≤ 2000000000 }
    requires pair { (r : Rule) × IsPair (net_of net.old) x.0 y.0 r }
    requires journal { length run.old.journal < 4294967295 }
    ensures ok { OnOk result (AdvancesEither run.old run.new net.old net.new x.0 y.0) }
    ensures err { OnErr result (StopsEither net.old net.new x.0 y.0) }
{
    net.is_net();
    if x.0 < y.0 {
        run.rewrite_pair(net, x, y)
    } else {
        run.rewrite_pair(net, y, x)
    }
}

// What the last frame is asked for, by chains for 0 abstractions, for 1, and so on. Each pair that
// a chain meets is rewritten and written down, and the same is asked again.
//
// `None`: a chain meets a pair, and the journal has `fuel` entries. `NoMemory`: no memory was found.
fn ask(
    alloc: Global,
    net: &mut Net,
    run: &mut UnderWay,
    fuel: u32,
    values: &mut Values,
    asked: &Asked<'_>,
) -> Result<Option<Head>, NoMemory>
    requires running { IsRunning net.old run.old fuel }
    requires last { asked.now.at + 1 ≡ length asked.now.frames.now.items }
    requires parents { ParentsFirst (frames_of values.old asked.now.frames.now.items) }
    requires frames { AreHeldFrames values.old asked.now.frames.now.items }
    requires ports { AreAtPorts net.old.free asked.now.frames.now.items }
    requires skips { AreSkipsOf asked.now.frames.now.items asked.now.skips.now.items }
    ensures answered { IfOk result
        (IsAnswered net.old net.new run.old run.new
        (frames_of values.old asked.now.frames.now.items) values.new) }
    ensures spent { IfOk result (IsSpentIfNone run.new fuel) }
    ensures running { IfOk result (λ r. IsRunning net.new run.new fuel) }
    ensures free { IfOk result (λ r. net.new.free ≡ net.old.free) }
    ensures stopped { OnErr result
        (IsStopped net.old net.new run.old (frames_of values.old asked.now.frames.now.items) fuel) }
    ensures held { IfOk result (IsHeldIfSome values.new) }
    ensures known { IfOk result
        (IsKnownIfSome net.new.free (frames_of values.old asked.now.frames.now.items)) }
    ensures extends { Extends values.old values.new }
{
    let frame = &asked.frames[asked.at as usize];
    let mut lams: u32 = 0;
    let mut mark = values.empty();
    let mut count = values.count();
    let mut walker = begin(alloc, frame.port, &frame.levels, mark)?;
    loop {
        net.is_net();
        let end = chain(net, values, walker)?;
        match end {
            End::Met { pair, walker: met } => {
                if run.journal.len() == fuel {
                    return Ok(None);
                }
                let before = step_back(net, values, met)?;
                rewrite_met(run, net, pair.0, pair.1)?;
                walker = resume(alloc, net, values, frame, mark, count, before)?;
            }
            End::Left { port, context } => {
                let left = leave_by(alloc, values, asked, lams, port, &context)?;
                return Ok(Some(left));
            }
            End::Undefined => {
                values.cut(count);
                if lams >= net.nodes() {
                    return Ok(Some(Head::NoHead));
                }
                mark = values.put_o(mark)?;
                lams += 1;
                count = values.count();
                walker = begin(alloc, frame.port, &frame.levels, mark)?;
            }
            End::Budget => {
                values.cut(count);
                return Ok(Some(Head::Budget));
            }
        }
    }
}

/// Finds heads by chains, rewrites the active pairs that they meet, up to a number of interactions,
/// and records these in a trace.
#[derive(Drop)]
pub struct Chains {
    pub run: UnderWay,
    pub fuel: u32,
}

impl Asks<Net> for Chains {
    ghost use Rattle.ol_demand.specs.Answers.{StopsOnTheWay};
    ghost use Rattle.ol_demand.specs.Asking.{IsRunning};
    ghost use Rattle.ol_demand.specs.Readings.{IsReadByChains, IsSpentReading, may_stop_there};

    ghost free = { λ g. g.free };

    ghost ready = { λ c g. IsRunning g c.run c.fuel };

    ghost reads = { λ c g c' g' heads r. IsReadByChains g c.fuel g' c'.run c'.fuel heads r };

    ghost ends = { λ c g c' g' heads. IsSpentReading g c.fuel g' c'.run heads };

    ghost stops = { λ c g c' g' heads. StopsOnTheWay g heads c.fuel g' };

    fn ask(
        &mut self,
        alloc: Global,
        net: &mut Net,
        values: &mut Values,
        asked: &Asked<'_>,
    ) -> Result<Option<Head>, NoMemory> {
        let answer = ask(alloc, net, &mut self.run, self.fuel, values, asked)?;
        Ok(answer)
    }

    ghost may_stop = { λ c g c' g' heads r h.
        may_stop_there g c.fuel g' c'.run c'.fuel heads r h };
}
