//! The waves (parallel steps) of a trace, found by a replay on a net whose ports have weights.

ghost use Rattle.std.specs.Prelude.{◌≡◌, ◌↔◌, IsNone, ℕ, suc, max, ◌+◌, ◌*◌, ◌≤◌, [], ◌∷◌, ◌++◌, length, true, false, slice_get, slice_index_or, IfOk, OnOk, IfSome, IfNone};
ghost use Rattle.ol_net.specs.declared.parts.Facing.TheVariants.{Active};
ghost use Rattle.ol_net.specs.Graph.{place, kind_at, facing_at};
ghost use Rattle.ol_net.specs.Nets.{slot, Linked, NamedNet, net_under};
ghost use Rattle.ol_net.specs.Numbered.{net_of};
ghost use Rattle.ol_net.specs.Pairs.{IsComplete, HasActive};
ghost use Rattle.ol_rules.specs.declared.journal.NodeName.{NodeName};
ghost use Rattle.ol_rules.specs.declared.journal.NodeName.TheVariants.{Init};
ghost use Rattle.ol_rules.specs.declared.journal.Entry.{Entry};
ghost use Rattle.ol_rules.specs.Rewriting.{is_meeting};
ghost use Rattle.ol_rules.specs.Runs.{IsRun};
ghost use Rattle.ol_diamond.specs.Replaying.{AreIdle, AreIdleNumbers};
ghost use Rattle.ol_diamond.specs.Waves.{IsWavesOf};
ghost use Rattle.ol_diamond.specs.PortWeights.{weight_at, raised_if, joined_weights, copied, copies_at, arity_of, acts_on, crossed_weights, weights_after, WeighsEntry};

use ol_limits::NoMemory;
use ol_net::{Facing, Net, NodeId, Port, Rule, rule_of};
use ol_rules::{Entry, Journal, NodeName, Numbers, are_facing, is_meeting, step};
use std::alloc::Global;
use std::marker::Model;

/// The waves of a trace's entries, in order.
#[derive(Drop)]
pub struct WaveList {
    waves: Vec<u32>,
}

impl Model for WaveList {
    ghost use Rattle.std.specs.Prelude.{List, ℕ, ◌^◌, ◌<◌, length};

    ghost Value = { List ℕ };

    ghost view = { λ w. w.waves.items };

    ghost invariant = { λ w. length w.waves.items < 2 ^ 32 };
}

impl WaveList {
    /// The number of entries of the trace.
    pub fn len(&self) -> u32
        ensures { result ≡ length self.now }
    {
        self.waves.len() as u32
    }

    /// The wave of the entry with ticket `k`. `None`: `k` isn't less than `len`.
    pub fn get(&self, k: u32) -> Option<u32>
        ensures wave { result ≡ slice_get self.now k }
        ensures none { IsNone result ↔ (length self.now ≤ k) }
    {
        self.waves.get(k as usize).copied()
    }
}

/// An interaction of the replay: its rule, and its wave, which is the number of its parallel step,
/// from 1.
#[derive(Clone, Copy, Debug, PartialEq, Eq)]
pub struct Rewritten {
    pub rule: Rule,
    pub wave: u32,
}

/// The net during the replay of a trace, with the node numbers of its names and the weights of its
/// links, as `waves` defines them. `weights` has a weight for each port, at the place of the port:
/// free ports are first, by number, followed by three places for each node number. The weight of a
/// link is the greater weight of its two ports.
#[derive(Drop)]
pub struct Weighing {
    /// The net so far.
    pub net: Net,
    /// The node numbers of the names.
    pub numbers: Numbers,
    /// The weights of the ports, each at the place of its port.
    pub weights: Vec<u32>,
}

/// The waves of a trace's entries: the number, from 1, of the parallel step in which each pair is
/// rewritten if each step rewrites all active pairs of the net at once. The links of the initial
/// net have weight 0. The wave of an entry is the weight of the link between its two nodes plus 1,
/// the joins that it makes have its wave as weight, and a contraction of two edges keeps the
/// greater weight. It follows that the wave of a pair is greater than the waves of the pairs whose
/// interactions made the link of its two nodes.
///
/// The trace is of a reduction of `net`, whose nodes are named by their numbers. The net is
/// unchanged. `NoMemory`: no memory was found.
pub fn waves(alloc: Global, net: &Net, journal: &Journal) -> Result<WaveList, NoMemory>
    requires few { length net.now.nodes + 4 * length journal.now ≤ 2000000000 }
    requires run { (M : NamedNet NodeName)
        × IsRun (net_under Init (net_of net.now)) 0 journal.now M }
    ensures waves { IfOk result (λ list. IsWavesOf net.now journal.now list) }
    ensures count { IfOk result (λ list. length list ≡ length journal.now) }
{
    net.is_net();
    let mut weighing = Weighing::new(alloc, net)?;
    let mut waves = Vec::new(alloc);
    for k in 0..journal.len() {
        let Some(entry) = journal.get(k) else {
            unreachable!()
        };
        let wave = weighing.rewrite_entry(entry)?;
        waves.push(wave)?;
    }
    Ok(WaveList { waves })
}

fn slot(node: NodeId, slot: u8) -> Port
    ensures { result ≡ Port.Of node slot }
{
    Port::Of { node, slot }
}

fn same_rule(a: Rule, b: Rule) -> bool
    ensures { result ≡ true → a ≡ b }
{
    a == b
}

// The rule by which the two nodes are an active pair, if they are one.
fn rule_between(net: &Net, f: NodeId, g: NodeId) -> Option<Rule>
    ensures linked { IfSome result (λ rule. Linked (net_of net.now) (slot f.0 0) (slot g.0 0)) }
    ensures active { IfSome result (λ rule. facing_at net.now f ≡ Active rule) }
    ensures idle { IfNone result (AreIdle (net_of net.now) f.0 g.0) }
{
    let Facing::Active(rule) = net.facing(f) else {
        return None;
    };
    if !are_facing(net, f, g) {
        return None;
    }
    Some(rule)
}

impl Weighing {
    /// The replay before its first entry, on a copy of the net: nodes are named by their numbers,
    /// and all weights are 0. `NoMemory`: no memory was found.
    pub fn new(alloc: Global, net: &Net) -> Result<Weighing, NoMemory>
        ensures net { IfOk result (λ w. w.net ≡ net.now) }
        ensures numbers { IfOk result (λ w. w.numbers.bases.items ≡ length net.now.nodes ∷ []) }
        ensures sized { IfOk result (λ w.
            length w.weights.items ≡ net.now.free + 3 * length net.now.nodes) }
        ensures weights { IfOk result (λ w. (k : ℕ) → slice_index_or w.weights.items k 0 ≡ 0) }
    {
        let net = net.copy()?;
        let numbers = Numbers::new(alloc, &net)?;
        let mut weights = Vec::new(alloc);
        weights.resize(net.free_ports() as usize + 3 * net.born() as usize, 0)?;
        Ok(Weighing {
            net,
            numbers,
            weights,
        })
    }

    fn place(&self, port: Port) -> usize
        ensures { result ≡ place self.now.net.free port }
    {
        match port {
            Port::Free(k) => k as usize,
            Port::Of { node, slot } => {
                self.net.free_ports() as usize + 3 * node.0 as usize + slot as usize
            }
        }
    }

    fn weight(&self, port: Port) -> u32
        ensures { result ≡ weight_at self.now.net.free self.now.weights.items port }
    {
        match self.weights.get(self.place(port)) {
            Some(weight) => *weight,
            None => 0,
        }
    }

    // The wave of the pair of two nodes.
    fn wave_of(&self, a: NodeId, b: NodeId) -> Option<u32>
        ensures { IfSome result (λ wave. wave
            ≡ suc (max (weight_at self.now.net.free self.now.weights.items (Port.Of a 0))
            (weight_at self.now.net.free self.now.weights.items (Port.Of b 0)))) }
    {
        let weight = self.weight(slot(a, 0)).max(self.weight(slot(b, 0)));
        weight.checked_add(1)
    }

    // The port, if there is one, weighs this at least.
    fn raise(&mut self, port: Option<Port>, least: u32)
        ensures net { self.new.net ≡ self.old.net }
        ensures numbers { self.new.numbers ≡ self.old.numbers }
        ensures weights { self.new.weights.items
            ≡ raised_if self.old.net.free self.old.weights.items port least }
    {
        let Some(port) = port else {
            return;
        };
        let weight = self.weight(port).max(least);
        let place = self.place(port);
        if place < self.weights.len() {
            self.weights[place] = weight;
        }
    }

    // Two slots are joined: what they were linked to weighs as much as both, and as the wave.
    fn join(&mut self, a: Port, b: Port, wave: u32)
        ensures net { self.new.net ≡ self.old.net }
        ensures numbers { self.new.numbers ≡ self.old.numbers }
        ensures weights { self.new.weights.items
            ≡ joined_weights self.old.net self.old.weights.items a b wave }
    {
        let both = self.weight(a).max(self.weight(b));
        let least = wave.max(both);
        let x = self.net.partner(a);
        let y = self.net.partner(b);
        self.raise(x, least);
        self.raise(y, least);
    }

    fn push(&mut self, weight: u32) -> Result<(), NoMemory>
        ensures net { self.new.net ≡ self.old.net }
        ensures numbers { self.new.numbers ≡ self.old.numbers }
        ensures weights { OnOk result (self.new.weights.items
            ≡ self.old.weights.items ++ weight ∷ []) }
    {
        self.weights.push(weight)?;
        Ok(())
    }

    // A copy comes at a slot: its principal port weighs as much as the slot, and as the wave; its
    // other ports as the wave.
    fn copy(&mut self, at: Port, wave: u32) -> Result<(), NoMemory>
        ensures net { self.new.net ≡ self.old.net }
        ensures numbers { self.new.numbers ≡ self.old.numbers }
        ensures weights { OnOk result (self.new.weights.items
            ≡ copied self.old.net.free self.old.weights.items at wave) }
    {
        let first = wave.max(self.weight(at));
        self.push(first)?;
        self.push(wave)?;
        self.push(wave)
    }

    fn arity(&self, at: NodeId) -> u8
        ensures { result ≡ arity_of (kind_at self.now.net.nodes at.0) }
    {
        match self.net.kind_of(at) {
            Some((kind, _)) => kind.arity(),
            None => 0,
        }
    }

    // Copies come at the slots of the node but the principal one.
    fn copies(&mut self, at: NodeId, wave: u32) -> Result<(), NoMemory>
        ensures net { self.new.net ≡ self.old.net }
        ensures numbers { self.new.numbers ≡ self.old.numbers }
        ensures weights { OnOk result (self.new.weights.items
            ≡ copies_at self.old.net.free self.old.weights.items at
            (arity_of (kind_at self.old.net.nodes at.0)) wave) }
    {
        let slots = self.arity(at);
        if slots == 0 {
            return Ok(());
        }
        self.copy(slot(at, 1), wave)?;
        if slots == 1 {
            return Ok(());
        }
        self.copy(slot(at, 2), wave)
    }

    // Whether a acts on b.
    fn acts(&self, a: NodeId, b: NodeId) -> bool
        ensures { result
            ≡ acts_on (kind_at self.now.net.nodes a.0) (kind_at self.now.net.nodes b.0) }
    {
        match (self.net.kind_of(a), self.net.kind_of(b)) {
            (Some(here), Some(there)) => rule_of(here, there).is_some(),
            _ => false,
        }
    }

    // f and h cross: copies of f come at the slots of h, and then copies of h at those of f.
    fn cross(&mut self, f: NodeId, h: NodeId, wave: u32) -> Result<(), NoMemory>
        ensures net { self.new.net ≡ self.old.net }
        ensures numbers { self.new.numbers ≡ self.old.numbers }
        ensures weights { OnOk result (self.new.weights.items
            ≡ crossed_weights self.old.net self.old.weights.items f h wave) }
    {
        self.copies(h, wave)?;
        self.copies(f, wave)
    }

    // The weights once the pair was rewritten, which it isn't yet.
    fn weigh(&mut self, a: NodeId, b: NodeId, rule: Rule, wave: u32) -> Result<(), NoMemory>
        ensures net { self.new.net ≡ self.old.net }
        ensures numbers { self.new.numbers ≡ self.old.numbers }
        ensures weights { OnOk result (self.new.weights.items
            ≡ weights_after self.old.net self.old.weights.items a b rule wave) }
    {
        if is_meeting(rule) {
            self.join(slot(a, 1), slot(b, 1), wave);
            self.join(slot(a, 2), slot(b, 2), wave);
            return Ok(());
        }
        if self.acts(a, b) {
            self.cross(a, b, wave)
        } else {
            self.cross(b, a, wave)
        }
    }

    /// Rewrites the pair of the nodes with these names, if it is active, and returns its rule and
    /// its wave. `None`: the two nodes aren't an active pair; the net is unchanged. `NoMemory`: no
    /// memory was found, or the wave exceeds 4,294,967,295.
    pub fn rewrite(
        &mut self,
        first: NodeName,
        second: NodeName,
    ) -> Result<Option<Rewritten>, NoMemory>
        requires few { length self.old.net.nodes ≤ 2000000000 }
        ensures made { IfOk result (λ made. IfSome made (λ of. WeighsEntry
            self.old.net self.new.net self.old.numbers.bases.items self.new.numbers.bases.items
            self.old.weights.items self.new.weights.items
            (record { rule = of.rule; first = first; second = second }) of.wave)) }
        ensures idle { IfOk result (λ made. IfNone made
            (AreIdleNumbers self.old.net self.old.numbers.bases.items first second)) }
        ensures stays { IfOk result (λ made. IfNone made (self.new ≡ self.old)) }
    {
        self.net.is_net();
        self.net.is_tabled();
        let Some(a) = self.numbers.node_of(first) else {
            return Ok(None);
        };
        let Some(b) = self.numbers.node_of(second) else {
            return Ok(None);
        };
        let Some(rule) = rule_between(&self.net, a, b) else {
            return Ok(None);
        };
        let Some(wave) = self.wave_of(a, b) else {
            return Err(NoMemory);
        };
        self.weigh(a, b, rule, wave)?;
        let Ok(_) = step(&mut self.net, a) else {
            return Err(NoMemory);
        };
        self.net.is_net();
        self.numbers.push(&self.net)?;
        Ok(Some(Rewritten { rule, wave }))
    }

    // Rewrites the pair of an entry, and answers its wave. Of a run each entry's pair is active, and
    // no wave is above the number of entries; for other entries the answer is `NoMemory`.
    fn rewrite_entry(&mut self, entry: Entry) -> Result<u32, NoMemory>
        requires few { length self.old.net.nodes ≤ 2000000000 }
        ensures weighed { IfOk result (λ wave. WeighsEntry self.old.net self.new.net
            self.old.numbers.bases.items self.new.numbers.bases.items
            self.old.weights.items self.new.weights.items entry wave) }
    {
        let Some(made) = self.rewrite(entry.first, entry.second)? else {
            return Err(NoMemory);
        };
        if !same_rule(made.rule, entry.rule) {
            return Err(NoMemory);
        }
        Ok(made.wave)
    }

    /// Whether no active pair is left.
    pub fn is_complete(&self) -> bool
        ensures complete { result ≡ true → IsComplete (net_of self.now.net) }
        ensures active { result ≡ false → HasActive (net_of self.now.net) }
    {
        for n in 0..self.net.born() {
            if let Facing::Active(_) = self.net.facing(NodeId(n)) {
                return false;
            }
        }
        true
    }
}
