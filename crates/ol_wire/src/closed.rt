//! The words of a table that no thread shares any more, and the trace and the net that they
//! contain.
ghost use Rattle.std.specs.Prelude.{◌≡◌, ℕ, ◌+◌, ◌<◌, ◌≤◌, ◌++◌, [], length, MatchOption, IfOk, OnOk, slice_get, slice_index};
ghost use Rattle.core.specs.Mem.Slots.{slots_items, slots_len, IsFull};
ghost use Rattle.ol_wire.specs.Closed.{ClosedTable, events_in, event_at, journal_in, journal_drawn, pair_at, pairs_drawn, filled_row, filled_below, filled_before, cells_filled, entry_at, HasWord, closed_of};
ghost use Rattle.ol_wire.specs.Layout.{table_size as size_of, left_word, cells_of};
ghost use Rattle.ol_wire.specs.Sizes.{IsSmall};
ghost use Rattle.ol_wire.specs.ClosedRule.{IsClosed, IsClosedOf};

use crate::law::Law;
use crate::layout::Parts;
use crate::plan::Plan;
use crate::seat::Token;
use crate::view::View;
use ol_limits::NoMemory;
use ol_rules::{Entry, Journal};
use std::alloc::Global;
use std::marker::Model;
use std::snapshot::Snapshot;

/// The words of a table that no thread shares any more. They contain a trace, and the net after it.
pub struct Words {
    pub(crate) closed: atomic_table::Closed<(), Global>,
    pub(crate) parts: Parts,
    // What the table and the last seat were. They take no memory.
    pub(crate) was: Snapshot<atomic_table::Shared<(), View, Plan, Law>>,
    pub(crate) last: Snapshot<Token>,
}

impl Model for Words {
    ghost Value = { ClosedTable };

    ghost view = { λ w. closed_of w.closed w.was.value.key w.last.value.me.0 };

    ghost invariant = { λ w. IsClosedOf w.closed w.was.value.key w.parts w.last.value.me.0 };
}

/// The contents of the blocks of the tickets.
#[derive(Drop)]
pub struct Blocks {
    /// For each ticket, the references of the two nodes of its interaction, in the order of their
    /// places.
    pub pairs: Vec<(u64, u64)>,
    /// The numbers of the cells that aren't empty, in ascending order.
    pub cells: Vec<u32>,
}

impl Words {
    /// The layout of the words.
    pub fn parts(&self) -> Parts
        ensures { result ≡ self.now.plan.parts }
    {
        self.parts
    }

    /// The word with number `at`. `None`: there are at most `at` words.
    pub fn word(&self, at: u32) -> Option<u64>
        ensures { MatchOption result (length self.now.words ≤ at) (HasWord self.now.words at) }
    {
        if at < self.parts.size() {
            Some(self.closed.word(at as usize))
        } else {
            None
        }
    }

    // The word of that number.
    fn at(&self, at: u32) -> u64
        requires { at < size_of self.now.plan.parts }
        ensures { result ≡ slice_index self.now.words at }
    {
        self.closed.word(at as usize)
    }

    /// The number of entries of the trace.
    pub fn events(&self) -> u32
        ensures { result ≡ events_in self.now.plan.parts self.now.words }
    {
        let drawn = self.at(0);
        if drawn < self.parts.fuel as u64 {
            drawn as u32
        } else {
            self.parts.fuel
        }
    }

    /// The entry with number `k`, from 0. `None`: the trace has at most `k` entries.
    pub fn journal(&self, k: u32) -> Option<Entry>
        ensures { result ≡ slice_get (journal_in self.now.plan.parts self.now.words) k }
    {
        if k >= self.events() {
            return None;
        }
        let start = self.parts.block(k);
        let first = self.at(start);
        let second = self.at(start + 1);
        Some(self.parts.entry(first, second))
    }

    // The pair of a ticket.
    fn pair(&self, k: u32) -> (u64, u64)
        requires { k < events_in self.now.plan.parts self.now.words }
        ensures { result ≡ pair_at self.now.plan.parts self.now.words k }
    {
        let start = self.parts.block(k);
        (self.at(start), self.at(start + 1))
    }

    // Notes a cell if it isn't empty. `at` is the number of its left word.
    fn note(&self, cells: &mut Vec<u32>, cell: u32, at: u32) -> Result<(), NoMemory>
        requires cell { cell < cells_of self.now.plan.parts }
        requires at { at ≡ left_word self.now.plan.parts cell }
        ensures { OnOk result (cells.new.items ≡ cells.old.items ++ filled_row self.now cell) }
    {
        if self.at(at) == 0 {
            return Ok(());
        }
        cells.push(cell)?;
        Ok(())
    }

    // Notes the cells of the start that aren't empty.
    fn note_start(&self, cells: &mut Vec<u32>) -> Result<(), NoMemory>
        requires before { cells.old.items ≡ [] }
        ensures { OnOk result (cells.new.items ≡ filled_below self.now self.now.plan.parts.cells) }
    {
        for cell in 0..self.parts.cells {
            self.note(cells, cell, self.parts.start_cell(cell))?;
        }
        Ok(())
    }

    // Notes the cells of a ticket that aren't empty, behind those of the start and of the tickets
    // before it.
    fn note_block(&self, cells: &mut Vec<u32>, k: u32) -> Result<(), NoMemory>
        requires drawn { k < events_in self.now.plan.parts self.now.words }
        requires before { cells.old.items ≡ filled_before self.now k }
        ensures { OnOk result (cells.new.items ≡ filled_before self.now (k + 1)) }
    {
        let first = self.parts.cells + 4 * k;
        let start = self.parts.block(k) + 14;
        for j in 0..4 {
            self.note(cells, first + j, start + 2 * j)?;
        }
        Ok(())
    }

    /// The contents of the blocks of all tickets: their pairs, and the cells that aren't empty.
    /// `NoMemory`: no memory was found for them.
    ///
    /// The call reads each block once, in order, so that the processor can load several blocks at
    /// once.
    pub fn blocks(&self, alloc: Global) -> Result<Blocks, NoMemory>
        ensures pairs { IfOk result (λ blocks. blocks.pairs.items ≡ pairs_drawn self.now) }
        ensures cells { IfOk result (λ blocks. blocks.cells.items ≡ cells_filled self.now) }
    {
        let mut cells = Vec::new(alloc);
        self.note_start(&mut cells)?;
        let events = self.events();
        let mut pairs = Vec::with_capacity(alloc, events as usize)?;
        for k in 0..events {
            pairs.push(self.pair(k))?;
            self.note_block(&mut cells, k)?;
        }
        Ok(Blocks { pairs, cells })
    }

    /// The entry of a ticket, from the pair of its interaction.
    #[inline(always)]
    pub fn entry(&self, k: u32, pair: (u64, u64)) -> Entry
        requires drawn { k < events_in self.now.plan.parts self.now.words }
        requires pair { pair ≡ pair_at self.now.plan.parts self.now.words k }
        ensures { result ≡ entry_at self.now k }
    {
        self.parts.entry(pair.0, pair.1)
    }

    /// The whole trace. `NoMemory`: no memory was found for it.
    pub fn whole_journal(&self, alloc: Global) -> Result<Journal, NoMemory>
        ensures { IfOk result (λ journal. journal ≡ journal_drawn self.now) }
    {
        let blocks = self.blocks(alloc)?;
        let journal = self.journal_by(alloc, &blocks.pairs)?;
        Ok(journal)
    }

    /// The whole trace, from the pairs of the tickets, without reading the blocks again.
    /// `NoMemory`: no memory was found for it.
    pub fn journal_by(&self, alloc: Global, pairs: &Vec<(u64, u64)>) -> Result<Journal, NoMemory>
        requires pairs { pairs.now.items ≡ pairs_drawn self.now }
        ensures { IfOk result (λ journal. journal ≡ journal_drawn self.now) }
    {
        let events = self.events();
        let mut journal = Journal::new(alloc);
        for k in 0..events {
            let pair = pairs[k as usize];
            journal.push(self.entry(k, pair))?;
        }
        Ok(journal)
    }
}

impl Drop for Words {
    fn drop(self) {
        let Self {
            closed,
            parts: _,
            was: _,
            last: _,
        } = self;
        closed.free();
    }
}
