//! A run from a net, pair by pair.

ghost use Rattle.std.specs.Prelude.{◌≡◌, ◌<◌, ◌≤◌, [], true, false, length, IfOk};
ghost use Rattle.ol_net.specs.Numbered.{net_of};
ghost use Rattle.ol_diamond.specs.Replaying.{AreIdle};
ghost use Rattle.ol_orders.specs.Replays.{IsReplay, ReplaysPair, ReplaysNamed, AreApart};

use ol_limits::NoMemory;
use ol_net::{Facing, Net, NodeId};
use ol_rules::{NodeName, Numbers, UnderWay, are_facing};
use std::alloc::Global;

/// A run on its way, with its last net: that net's numbers have names, and the names have numbers.
#[derive(Drop)]
pub struct Replay {
    pub net: Net,
    /// The names of the numbers, and the trace so far.
    pub run: UnderWay,
    /// The numbers of the names.
    pub numbers: Numbers,
}

impl Replay {
    /// Before the first pair. The net stays as it is.
    pub fn new(alloc: Global, net: &Net) -> Result<Replay, NoMemory>
        ensures replay { IfOk result (IsReplay net.now) }
        ensures journal { IfOk result (λ r. r.run.journal ≡ []) }
    {
        net.is_net();
        Ok(Replay {
            net: net.copy()?,
            run: UnderWay::new(alloc, net),
            numbers: Numbers::new(alloc, net)?,
        })
    }

    /// Rewrites the pair of these two nodes, where it is active and the first one has the smaller
    /// number, and writes it down. `false`: it isn't so, and the run is as it was. After
    /// `NoMemory`, the run is of no use.
    pub fn rewrite(&mut self, x: NodeId, y: NodeId) -> Result<bool, NoMemory>
        requires few { length self.old.net.nodes ≤ 2000000000 }
        requires journal { length self.old.run.journal < 4294967295 }
        ensures made { IfOk result (λ made. made ≡ true → ReplaysPair self.old self.new x.0 y.0) }
        ensures stays { IfOk result (λ made. made ≡ false → self.new ≡ self.old) }
        ensures idle { IfOk result (λ made. made ≡ false
            → x.0 < y.0 → AreIdle (net_of self.old.net) x.0 y.0) }
    {
        if y.0 <= x.0 {
            return Ok(false);
        }
        if !are_facing(&self.net, x, y) {
            return Ok(false);
        }
        let Facing::Active(_) = self.net.facing(x) else {
            return Ok(false);
        };
        self.net.is_net();
        self.run.rewrite_pair(&mut self.net, x, y)?;
        self.numbers.push(&self.net)?;
        Ok(true)
    }

    /// Rewrites the pair of these names, as `rewrite` does.
    pub fn rewrite_named(&mut self, first: NodeName, second: NodeName) -> Result<bool, NoMemory>
        requires few { length self.old.net.nodes ≤ 2000000000 }
        requires journal { length self.old.run.journal < 4294967295 }
        ensures made { IfOk result (λ made. made ≡ true
            → ReplaysNamed self.old self.new first second) }
        ensures stays { IfOk result (λ made. made ≡ false → self.new ≡ self.old) }
        ensures apart { IfOk result (λ made. made ≡ false → AreApart self.old first second) }
    {
        let Some(x) = self.numbers.node_of(first) else {
            return Ok(false);
        };
        let Some(y) = self.numbers.node_of(second) else {
            return Ok(false);
        };
        let made = self.rewrite(x, y)?;
        Ok(made)
    }
}
