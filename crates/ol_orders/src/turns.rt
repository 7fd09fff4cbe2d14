//! One step, and what is told of it.

ghost use Rattle.std.specs.Prelude.{◌≡◌, ◌+◌, ◌-◌, ◌<◌, ◌≤◌, ◌++◌, length, true, OnOk, IfOk};
ghost use Rattle.ol_orders.specs.Replays.{names_of};
ghost use Rattle.ol_orders.specs.Turns.{born_lines, born_text, both_text};
ghost use Rattle.ol_orders.specs.Made.{IsMade, IsToldOf};

use crate::pairs::{put_left, put_or};
use crate::replaying::Replay;
use crate::words::{put_entry, put_node};
use ol_limits::NoMemory;
use ol_net::NodeId;
use ol_rules::Entry;
use ol_subjects::{put, put_number};
use std::alloc::Global;

// Appends the line of a pair's two nodes.
fn put_both(
    alloc: Global,
    text: &mut Vec<u8>,
    replay: &Replay,
    x: NodeId,
    y: NodeId,
) -> Result<(), NoMemory>
    ensures { OnOk result (text.new.items
        ≡ text.old.items ++ both_text (names_of replay.now) replay.now.net x.0 y.0) }
{
    put(text, b"  ")?;
    put_node(alloc, text, replay, x)?;
    put(text, b" and ")?;
    put_node(alloc, text, replay, y)?;
    put(text, b"\n")
}

// Appends the nodes from this number on, a line each.
fn put_born(alloc: Global, text: &mut Vec<u8>, replay: &Replay, from: u32) -> Result<(), NoMemory>
    requires from { from ≤ length replay.now.net.nodes }
    ensures { OnOk result (text.new.items ≡ text.old.items
        ++ born_text (names_of replay.now) replay.now.net from) }
{
    let mut lines = Vec::new(alloc);
    for k in 0..replay.net.born() - from {
        put(&mut lines, b"  created: ")?;
        put_number(alloc, &mut lines, (from + k) as u64)?;
        put(&mut lines, b" is ")?;
        put_node(alloc, &mut lines, replay, NodeId(from + k))?;
        put(&mut lines, b"\n")?;
    }
    put_or(text, &lines, b"  no node is created\n")
}

fn same_entry(a: Entry, b: Entry) -> bool
    ensures { result ≡ true → a ≡ b }
{
    a == b
}

// Rewrites the pair of an entry, by the numbers of its nodes. Of a run it is active; for other
// entries the answer is `NoMemory`.
fn make(replay: &mut Replay, entry: Entry, x: NodeId, y: NodeId) -> Result<(), NoMemory>
    requires few { length replay.old.net.nodes ≤ 2000000000 }
    requires journal { length replay.old.run.journal < 4294967295 }
    ensures { OnOk result (IsMade replay.old replay.new entry x.0 y.0) }
{
    let ticket = replay.run.journal.len();
    if !replay.rewrite(x, y)? {
        return Err(NoMemory);
    }
    let Some(made) = replay.run.journal.get(ticket) else {
        return Err(NoMemory);
    };
    if !same_entry(made, entry) {
        return Err(NoMemory);
    }
    Ok(())
}

/// Makes the step of an entry in its wave, and appends what is told of it. Of a run the pair of
/// each entry is active; for other entries the answer is `NoMemory`.
pub fn put_turn(
    alloc: Global,
    text: &mut Vec<u8>,
    replay: &mut Replay,
    entry: Entry,
    wave: u32,
) -> Result<(), NoMemory>
    requires few { length replay.old.net.nodes ≤ 2000000000 }
    requires journal { length replay.old.run.journal < 4294967295 }
    ensures { OnOk result
        (IsToldOf replay.old replay.new entry wave text.old.items text.new.items) }
{
    let Some(x) = replay.numbers.node_of(entry.first) else {
        return Err(NoMemory);
    };
    let Some(y) = replay.numbers.node_of(entry.second) else {
        return Err(NoMemory);
    };
    let from = replay.net.born();
    put_entry(alloc, text, entry, wave)?;
    put_both(alloc, text, replay, x, y)?;
    make(replay, entry, x, y)?;
    if replay.net.born() < from {
        return Err(NoMemory);
    }
    put_born(alloc, text, replay, from)?;
    put_left(alloc, text, replay)
}
