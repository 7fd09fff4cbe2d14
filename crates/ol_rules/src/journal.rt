//! Traces: the active pairs of a reduction, in order, with names that don't depend on the order.

ghost use Rattle.std.specs.Prelude.{◌≡◌, ℕ, ◌+◌, ◌-◌, ◌<◌, ◌^◌, ◌++◌, [], ◌∷◌, length, OnOk, OnErr, slice_get, get_or};

use ol_limits::NoMemory;
use ol_net::Rule;
use std::alloc::Global;
use std::marker::Model;

/// The name of a node in a reduction: the node that had number `k` in the initial net, or the node
/// that the interaction with number `ticket` (its place in the trace, from 0) created at place
/// `place` (0 to 3).
#[derive(Clone, Copy, Debug, PartialEq, Eq)]
pub enum NodeName {
    Init(u32),
    Born { ticket: u32, place: u8 },
}

/// An interaction of a trace: its rule and the names of its two nodes, the smaller name first.
#[derive(Clone, Copy, Debug, PartialEq, Eq)]
pub struct Entry {
    pub rule: Rule,
    pub first: NodeName,
    pub second: NodeName,
}

/// A trace: the interactions of a reduction, in order. The ticket (sequence number) of an
/// interaction is its number, from 0.
#[derive(Drop)]
pub struct Journal {
    entries: Vec<Entry>,
}

impl Model for Journal {
    ghost use Rattle.std.specs.Prelude.{List, ℕ, ◌^◌, ◌<◌, length};
    ghost use Rattle.ol_rules.specs.declared.journal.Entry.{Entry};

    ghost Value = { List Entry };

    ghost view = { λ j. j.entries.items };

    ghost invariant = { λ j. length j.entries.items < 2 ^ 32 };
}

impl Journal {
    /// The empty trace. Takes no memory.
    pub fn new(alloc: Global) -> Journal
        ensures empty { result ≡ [] }
    {
        Journal {
            entries: Vec::new(alloc),
        }
    }

    /// Appends an entry. After `NoMemory` the trace is unchanged.
    pub fn push(&mut self, entry: Entry) -> Result<(), NoMemory>
        requires few { length self.old < 4294967295 }
        ensures ok { OnOk result (self.new ≡ self.old ++ entry ∷ []) }
        ensures err { OnErr result (self.new ≡ self.old) }
    {
        self.entries.push(entry)?;
        Ok(())
    }

    /// The number of entries.
    pub fn len(&self) -> u32
        ensures { result ≡ length self.now }
    {
        self.entries.len() as u32
    }

    /// The entry with ticket `k`. `None`: the trace has at most `k` entries.
    pub fn get(&self, k: u32) -> Option<Entry>
        ensures { result ≡ slice_get self.now k }
    {
        self.entries.get(k as usize).copied()
    }

    /// The entry with ticket `k`, which is there.
    pub(crate) fn entry(&self, k: u32) -> Entry
        requires { k < length self.now }
        ensures { result ≡ get_or self.now k result }
    {
        self.entries[k as usize]
    }
}

/// The number of interactions of each rule in a trace.
#[derive(Clone, Copy, Debug, PartialEq, Eq)]
pub struct Counts {
    pub beta: u32,
    pub fan: u32,
    pub croissant: u32,
    pub bracket: u32,
    pub cross_fan: u32,
    pub cross_croissant: u32,
    pub cross_bracket: u32,
    pub erase: u32,
}
