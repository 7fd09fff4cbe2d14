//! The net of the words of a closed table.
ghost use Rattle.std.specs.Prelude.{◌≡◌, ◌≢◌, ℕ, Bool, List, ◌+◌, ◌-◌, ◌*◌, ◌<◌, ◌≤◌, ◌⊎◌, length, slice_index, slice_set, IfOk, OnOk};
ghost use Rattle.ol_net.specs.Nets.{NamedNet};
ghost use Rattle.ol_net.specs.Linking.{linked};
ghost use Rattle.ol_rules.specs.Counting.{counts_of};
ghost use Rattle.ol_rules.specs.declared.journal.NodeName.{NodeName};
ghost use Rattle.ol_wire.specs.Layout.{table_size, cells_of};
ghost use Rattle.ol_wire.specs.Sizes.{IsSmall};
ghost use Rattle.ol_wire.specs.Closed.{EachAfter, journal_drawn, pairs_drawn, cells_filled};
ghost use Rattle.ol_reduce.specs.Left.{ranks_in, AreLeft};
ghost use Rattle.ol_reduce.specs.Frozen.{IsFrozen};
ghost use Rattle.ol_reduce.specs.Used.{wires_used};
ghost use Rattle.ol_reduce.specs.Found.{wire_word, IsStartWire, IsBornWire, IsPartly, AreMetTo, AreCelledTo, AreCells, IsNodeIn, IsSiteIn, IsWordAt, KeepsKnown, KeepsPartners};
ghost use Rattle.ol_reduce.specs.Linked.{AreAllLeft, IsRight, AreCellsLinked, HasListed, HasCells, HasPorts, HasFree, HasNodes, HasAll, AreAllMet, KeepsKinds, KeepsLinks, IsOwner, IsOtherIn, WaitsThere, MeetsThere};

use crate::chains::{Goal, follow};
use crate::draft::Draft;
use crate::live::{Live, Tally};
use crate::reading::word_at;
use ol_limits::NoMemory;
use ol_net::Net;
use ol_rules::{Counts, Journal};
use ol_wire::{BLOCK, Blocks, Parts, Words, index_in, kind_in, place_in, port_word};
use std::alloc::Global;

/// The net that the words of a closed table represent. Its nodes are numbered from 0 in the
/// ascending order of their names: nodes of the initial net first, followed by the nodes that each
/// ticket created. The call reads only the words of the initial net and of drawn tickets, however
/// great the fuel was. `NoMemory`: no memory was found for the net.
pub fn freeze(alloc: Global, words: &Words) -> Result<Net, NoMemory>
    ensures frozen { IfOk result (λ g. EachAfter words.now (λ net. IsFrozen net g)) }
{
    let (net, _counts) = freeze_counted(alloc, words)?;
    Ok(net)
}

/// The same, with the journal of the words.
pub(crate) fn freeze_with_journal(alloc: Global, words: &Words) -> Result<(Net, Journal), NoMemory>
    ensures frozen { IfOk result (λ r. EachAfter words.now (λ net. IsFrozen net r.0)) }
    ensures journal { IfOk result (λ r. r.1 ≡ journal_drawn words.now) }
{
    let blocks = words.blocks(alloc)?;
    let (net, _counts) = freeze_by(alloc, words, &blocks)?;
    let journal = words.journal_by(alloc, &blocks.pairs)?;
    Ok((net, journal))
}

/// The same, with the counts of the journal of the words, which isn't made.
pub(crate) fn freeze_counted(alloc: Global, words: &Words) -> Result<(Net, Counts), NoMemory>
    ensures frozen { IfOk result (λ r. EachAfter words.now (λ net. IsFrozen net r.0)) }
    ensures counts { IfOk result (λ r. r.1 ≡ counts_of (journal_drawn words.now)) }
{
    let blocks = words.blocks(alloc)?;
    let (net, counts) = freeze_by(alloc, words, &blocks)?;
    Ok((net, counts))
}

// The same, by what the blocks hold, so that it isn't looked for again.
fn freeze_by(alloc: Global, words: &Words, blocks: &Blocks) -> Result<(Net, Counts), NoMemory>
    requires pairs { blocks.now.pairs.items ≡ pairs_drawn words.now }
    requires cells { blocks.now.cells.items ≡ cells_filled words.now }
    ensures frozen { IfOk result (λ r. EachAfter words.now (λ net. IsFrozen net r.0)) }
    ensures counts { IfOk result (λ r. r.1 ≡ counts_of (journal_drawn words.now)) }
{
    words.stands();
    words.runs();
    let tally = Tally::of(alloc, words, &blocks.pairs)?;
    let live = Live::find(alloc, words, &tally)?;
    let mut draft = Draft::new(alloc, words.parts().free, live.count())?;
    link_cells(words, &live, &mut draft, &blocks.cells);
    link_chains(alloc, words, &live, &mut draft)?;
    let net = draft.build(alloc)?;
    Ok((net, tally.counts))
}

// The place of slot 0 of the node of a reference, whose kind and index are told by it.
fn arrive(words: &Words, live: &Live, draft: &mut Draft, reference: u64) -> usize
    requires live { AreAllLeft words.now live.now }
    requires free { draft.old.free ≡ words.now.plan.parts.free }
    requires before { IsRight words.now live.now draft.old }
    requires node { IsNodeIn words.now reference }
    ensures free { draft.new.free ≡ draft.old.free }
    ensures partners { draft.new.partners.items ≡ draft.old.partners.items }
    ensures within { result < length draft.old.partners.items }
    ensures after { IsRight words.now live.now draft.new }
    ensures site { IsSiteIn words.now live.now.places.items draft.new.kinds.items reference result }
    ensures keeps { KeepsKinds words.now live.now draft.old draft.new }
{
    words.stands();
    let node = live.number_at(words, place_in(reference));
    draft.set_kind(node, kind_in(reference), index_in(reference));
    draft.place_of(node, 0)
}

// Links the two nodes of the cell that is number k of these, if it isn't empty.
fn link_cell(words: &Words, live: &Live, draft: &mut Draft, cells: &Vec<u32>, k: usize)
    requires live { AreAllLeft words.now live.now }
    requires free { draft.old.free ≡ words.now.plan.parts.free }
    requires cells { AreCells words.now cells.now.items }
    requires k { k < length cells.now.items }
    requires before { HasListed words.now live.now draft.old cells.now.items k }
    ensures free { draft.new.free ≡ draft.old.free }
    ensures after { HasListed words.now live.now draft.new cells.now.items (k + 1) }
{
    words.stands();
    let cell = cells[k];
    let at = words.parts().left_word(cell);
    let left = word_at(words, at);
    if left == 0 {
        return;
    }
    let right = word_at(words, at + 1);
    let one = arrive(words, live, draft, left);
    let other = arrive(words, live, draft, right);
    draft.link(one, other);
}

// The number of wires in use, which grows with the tickets that were drawn and not with the fuel.
fn wires_used(words: &Words) -> u32
    ensures { result ≡ wires_used words.now }
{
    words.stands();
    words.parts().wires + 4 * words.events()
}

// The number of the wire whose word this is: first those of the start, then four for each ticket.
fn wire_number(parts: Parts, at: u32) -> u32
    requires small { IsSmall parts }
    requires wire { IsStartWire parts at ⊎ IsBornWire parts at }
    ensures { wire_word parts result ≡ at }
{
    if at < parts.start_cell(0) {
        return at - parts.start_wire(0);
    }
    let behind = at - parts.block(0);
    parts.wires + 4 * (behind / BLOCK) + (behind % BLOCK - 10)
}

// Links the two nodes of each cell that isn't empty. The cells of tickets that weren't drawn are
// empty.
fn link_cells(words: &Words, live: &Live, draft: &mut Draft, cells: &Vec<u32>)
    requires cells { cells.now.items ≡ cells_filled words.now }
    requires live { AreAllLeft words.now live.now }
    requires free { draft.old.free ≡ words.now.plan.parts.free }
    requires before { IsRight words.now live.now draft.old }
    ensures free { draft.new.free ≡ draft.old.free }
    ensures after { HasCells words.now live.now draft.new (cells_of words.now.plan.parts) }
{
    words.stands();
    words.undrawn();
    for k in 0..cells.len() {
        link_cell(words, live, draft, cells, k);
    }
}

// Of two chains that lead to one wire, the one that comes second links both ports: `met` has for
// each wire 1 more than the place of the port that came first, or 0.
fn meet(draft: &mut Draft, met: &mut Vec<u32>, place: usize, wire: u32)
    requires wire { wire < length met.old.items }
    requires place { (place < length draft.old.partners.items) × (place < 400000000) }
    requires other { IsOtherIn draft.old met.old.items wire }
    ensures free { draft.new.free ≡ draft.old.free }
    ensures kinds { draft.new.kinds.items ≡ draft.old.kinds.items }
    ensures waits { WaitsThere draft.old met.old.items place wire draft.new met.new.items }
    ensures links { MeetsThere draft.old met.old.items place wire draft.new met.new.items }
{
    let before = met[wire as usize];
    if before == 0 {
        met[wire as usize] = place as u32 + 1;
    } else {
        draft.link(place, before as usize - 1);
    }
}

// Links the port at `place`, whose word is `at`, or lets it wait.
fn link_one(
    words: &Words,
    live: &Live,
    draft: &mut Draft,
    met: &mut Vec<u32>,
    place: usize,
    at: u32,
)
    requires live { AreAllLeft words.now live.now }
    requires free { draft.old.free ≡ words.now.plan.parts.free }
    requires met { length met.old.items ≡ wires_used words.now }
    requires at { at < table_size words.now.plan.parts }
    requires place { IsOwner words.now draft.old place }
    requires word { IsWordAt words.now live.now.places.items place at }
    requires before { HasPorts words.now live.now draft.old met.old.items place }
    ensures free { draft.new.free ≡ draft.old.free }
    ensures met { length met.new.items ≡ length met.old.items }
    ensures keeps { KeepsLinks draft.old draft.new }
    ensures after { HasPorts words.now live.now draft.new met.new.items (place + 1) }
{
    words.stands();
    let first = word_at(words, at);
    if first == 0 {
        return;
    }
    match follow(words, words.parts(), first) {
        Goal::Node(reference) => {
            let other = arrive(words, live, draft, reference);
            draft.link(place, other);
        }
        Goal::Port(port) => draft.link(place, port as usize),
        Goal::Wire(wire) => {
            let number = wire_number(words.parts(), wire);
            meet(draft, met, place, number)
        }
    }
}

// Walks the chain of each free port that has a word.
fn link_ports(words: &Words, live: &Live, draft: &mut Draft, met: &mut Vec<u32>)
    requires live { AreAllLeft words.now live.now }
    requires free { draft.old.free ≡ words.now.plan.parts.free }
    requires met { length met.old.items ≡ wires_used words.now }
    requires before { HasPorts words.now live.now draft.old met.old.items 0 }
    ensures free { draft.new.free ≡ draft.old.free }
    ensures met { length met.new.items ≡ length met.old.items }
    ensures keeps { KeepsLinks draft.old draft.new }
    ensures after { HasFree words.now live.now draft.new met.new.items }
{
    words.stands();
    for port in 0..words.parts().free {
        link_one(words, live, draft, met, port as usize, port_word(port));
    }
}

// Walks the chains of the fields of a node.
fn link_node(words: &Words, live: &Live, draft: &mut Draft, met: &mut Vec<u32>, node: u32)
    requires live { AreAllLeft words.now live.now }
    requires free { draft.old.free ≡ words.now.plan.parts.free }
    requires met { length met.old.items ≡ wires_used words.now }
    requires node { node < length live.now.places.items }
    requires before { HasNodes words.now live.now draft.old met.old.items node }
    ensures free { draft.new.free ≡ draft.old.free }
    ensures met { length met.new.items ≡ length met.old.items }
    ensures keeps { KeepsLinks draft.old draft.new }
    ensures after { HasNodes words.now live.now draft.new met.new.items (node + 1) }
{
    words.stands();
    let at = live.places[node as usize];
    let one = draft.place_of(node, 1);
    link_one(words, live, draft, met, one, at);
    let two = draft.place_of(node, 2);
    link_one(words, live, draft, met, two, at + 1);
}

// Walks the chains of the fields of all nodes.
fn link_nodes(words: &Words, live: &Live, draft: &mut Draft, met: &mut Vec<u32>)
    requires live { AreAllLeft words.now live.now }
    requires free { draft.old.free ≡ words.now.plan.parts.free }
    requires met { length met.old.items ≡ wires_used words.now }
    requires before { HasFree words.now live.now draft.old met.old.items }
    ensures free { draft.new.free ≡ draft.old.free }
    ensures keeps { KeepsLinks draft.old draft.new }
    ensures after { HasAll words.now live.now draft.new met.new.items }
{
    words.stands();
    for node in 0..live.count() {
        link_node(words, live, draft, met, node);
    }
}

// Walks all chains.
fn link_chains(alloc: Global, words: &Words, live: &Live, draft: &mut Draft) -> Result<(), NoMemory>
    requires live { AreAllLeft words.now live.now }
    requires free { draft.old.free ≡ words.now.plan.parts.free }
    requires before { HasCells words.now live.now draft.old (cells_of words.now.plan.parts) }
    ensures free { OnOk result (draft.new.free ≡ draft.old.free) }
    ensures after { OnOk result (IsRight words.now live.now draft.new) }
    ensures celled { OnOk result (AreCellsLinked words.now live.now draft.new) }
    ensures walked { OnOk result (AreAllMet words.now live.now draft.new) }
{
    words.stands();
    let mut met = Vec::new(alloc);
    met.resize(wires_used(words) as usize, 0)?;
    link_ports(words, live, draft, &mut met);
    link_nodes(words, live, draft, &mut met);
    Ok(())
}
