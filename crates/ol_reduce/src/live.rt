//! The remaining nodes: the nodes that were created, or initial, and that no ticket rewrote.
ghost use Rattle.std.specs.Prelude.{◌≡◌, ℕ, Bool, true, false, Some, ◌⊎◌, ◌+◌, ◌-◌, ◌*◌, ◌<◌, ◌≤◌, ◌++◌, [], ◌∷◌, length, slice_index, slice_get, if◌then◌else◌, IfOk, OnOk, MatchOption, ◌↔◌, vec_len, replicate};
ghost use Rattle.ol_limits.specs.Limits.{most_fuel};
ghost use Rattle.ol_rules.specs.declared.journal.NodeName.{NodeName};
ghost use Rattle.ol_rules.specs.Rewriting.{is_meeting};
ghost use Rattle.ol_wire.specs.Blocks.{copies_of_f, copies_of_g};
ghost use Rattle.ol_wire.specs.Closed.{ClosedTable, events_in, event_at, events_drawn, journal_drawn, pairs_drawn};
ghost use Rattle.ol_wire.specs.Layout.{place_of, table_size, IsPlaced};
ghost use Rattle.ol_wire.specs.Sizes.{IsSmall};
ghost use Rattle.ol_reduce.specs.Left.{rank_of, AreMarked, births_at, IsSmallTable, IsWithinFuel, IsMarkedToo, IsPlaceOfSome, IsRankAt, IsRankOf, IsPlaceLeft, births_by};
ghost use Rattle.ol_reduce.specs.Linked.{AreAllLeft, AreLeftTo, IsTally, AddsPlace, AddsNumber};

use ol_limits::NoMemory;
use ol_net::Rule;
use ol_rules::{Counts, NodeName, counted, is_meeting, no_counts};
use ol_wire::{BLOCK, Parts, Words, kind_in};
use std::alloc::Global;

/// The nodes that are left, numbered from 0 by ascending place.
#[derive(Drop)]
pub(crate) struct Live {
    // By number: the place of the node.
    pub(crate) places: Vec<u32>,
    // By rank: 1 more than the number of the node, or 0 where it isn't left.
    pub(crate) numbers: Vec<u32>,
}

// The rank of a name. `None`: no node can have the name after so many tickets.
#[inline(always)]
fn rank_of(parts: Parts, events: u32, name: NodeName) -> Option<u32>
    requires { IsSmall parts × (events ≤ most_fuel) }
    ensures { MatchOption result (IsPlaced parts events name → ⊥) (IsRankOf parts events name) }
{
    match name {
        NodeName::Init(node) => {
            if node < parts.nodes {
                return Some(node);
            }
            None
        }
        NodeName::Born { ticket, place } => {
            if ticket < events && place < 4 {
                return Some(parts.nodes + 4 * ticket + place as u32);
            }
            None
        }
    }
}

// How many nodes a ticket made that rewrote these two by this rule.
fn births(rule: Rule, pair: (u64, u64)) -> u32
    ensures { result ≡ births_by rule pair.0 pair.1 }
{
    if is_meeting(rule) {
        return 0;
    }
    kind_in(pair.0).arity() as u32 + kind_in(pair.1).arity() as u32
}

// Marks a name.
#[inline(always)]
fn mark(parts: Parts, events: u32, marks: &mut Vec<bool>, name: NodeName)
    requires small { IsSmall parts × (events ≤ most_fuel) }
    requires long { length marks.old.items ≡ parts.nodes + 4 * events }
    ensures long { length marks.new.items ≡ length marks.old.items }
    ensures marked { IsMarkedToo parts events marks.old.items name marks.new.items }
{
    if let Some(rank) = rank_of(parts, events, name) {
        marks[rank as usize] = true;
    }
}

/// What the tickets did.
#[derive(Drop)]
pub(crate) struct Tally {
    // By rank, whether a ticket rewrote the node.
    pub(crate) marks: Vec<bool>,
    // By ticket, how many nodes it made.
    pub(crate) births: Vec<u32>,
    // How often each rule was used.
    pub(crate) counts: Counts,
}

impl Tally {
    /// What the tickets did, in one pass over their pairs.
    pub(crate) fn of(
        alloc: Global,
        words: &Words,
        pairs: &Vec<(u64, u64)>,
    ) -> Result<Tally, NoMemory>
        requires small { IsSmallTable words.now }
        requires pairs { pairs.now.items ≡ pairs_drawn words.now }
        requires drawn { IsWithinFuel words.now }
        ensures { IfOk result (IsTally words.now) }
    {
        let parts = words.parts();
        let events = words.events();
        let mut marks = Vec::new(alloc);
        marks.resize((parts.nodes + 4 * events) as usize, false)?;
        let mut made = Vec::with_capacity(alloc, events as usize)?;
        let mut counts = no_counts();
        for ticket in 0..events {
            let pair = pairs[ticket as usize];
            let entry = words.entry(ticket, pair);
            mark(parts, events, &mut marks, entry.first);
            mark(parts, events, &mut marks, entry.second);
            put(&mut made, births(entry.rule, pair))?;
            counts = counted(counts, entry.rule);
        }
        Ok(Tally {
            marks,
            births: made,
            counts,
        })
    }
}

// The rank of the node with that place.
fn rank_at(parts: Parts, place: u32) -> u32
    requires small { IsSmall parts }
    requires place { IsPlaceOfSome parts place }
    ensures { IsRankAt parts place result }
{
    if place < parts.start_wire(0) {
        return (place - parts.start_node(0)) / 2;
    }
    let behind = place - parts.block(0);
    parts.nodes + 4 * (behind / BLOCK) + (behind % BLOCK - 2) / 2
}

fn put(numbers: &mut Vec<u32>, number: u32) -> Result<(), NoMemory>
    ensures { OnOk result (numbers.new.items ≡ numbers.old.items ++ number ∷ []) }
{
    numbers.push(number)?;
    Ok(())
}

impl Live {
    /// The nodes that the words tell as left.
    pub(crate) fn find(alloc: Global, words: &Words, tally: &Tally) -> Result<Live, NoMemory>
        requires small { IsSmallTable words.now }
        requires drawn { IsWithinFuel words.now }
        requires tally { IsTally words.now tally.now }
        ensures { IfOk result (AreAllLeft words.now) }
    {
        let parts = words.parts();
        let mut live = Live {
            places: Vec::new(alloc),
            numbers: Vec::new(alloc),
        };
        live.numbers.resize(tally.marks.len(), 0)?;
        for node in 0..parts.nodes {
            live.add(!tally.marks[node as usize], node, parts.start_node(node))?;
        }
        for ticket in 0..words.events() {
            live.add_born(words, tally, ticket)?;
        }
        Ok(live)
    }

    // The four ranks of a ticket.
    fn add_born(&mut self, words: &Words, tally: &Tally, ticket: u32) -> Result<(), NoMemory>
        requires small { IsSmallTable words.now }
        requires drawn { IsWithinFuel words.now × (ticket < events_drawn words.now) }
        requires tally { IsTally words.now tally.now }
        requires before { AreLeftTo words.now ticket self.old }
        ensures { OnOk result (AreLeftTo words.now (ticket + 1) self.new) }
    {
        let parts = words.parts();
        let births = tally.births[ticket as usize];
        for place in 0..4 {
            let rank = parts.nodes + 4 * ticket + place;
            let is_left = place < births && !tally.marks[rank as usize];
            self.add(is_left, rank, parts.block(ticket) + 2 + 2 * place)?;
        }
        Ok(())
    }

    // The next rank.
    fn add(&mut self, is_left: bool, rank: u32, place: u32) -> Result<(), NoMemory>
        requires rank { rank < length self.old.numbers.items }
        requires few { length self.old.places.items < 400000000 }
        ensures places { OnOk result (AddsPlace self.old is_left place self.new) }
        ensures numbers { OnOk result (AddsNumber self.old is_left rank self.new) }
    {
        if is_left {
            put(&mut self.places, place)?;
            self.numbers[rank as usize] = self.places.len() as u32;
        }
        Ok(())
    }

    /// How many there are.
    pub(crate) fn count(&self) -> u32
        requires few { length self.now.places.items < 400000000 }
        ensures { result ≡ length self.now.places.items }
    {
        self.places.len() as u32
    }

    /// The number of the node with that place.
    pub(crate) fn number_at(&self, words: &Words, place: u32) -> u32
        requires small { IsSmall words.now.plan.parts × IsWithinFuel words.now }
        requires live { AreAllLeft words.now self.now }
        requires place { IsPlaceLeft words.now place }
        ensures below { result < length self.now.places.items }
        ensures place { slice_index self.now.places.items result ≡ place }
    {
        self.numbers[rank_at(words.parts(), place) as usize] - 1
    }
}
