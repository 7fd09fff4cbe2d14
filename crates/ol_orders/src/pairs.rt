//! The active pairs of a net, as lines.

ghost use Rattle.std.specs.Prelude.{◌≡◌, ◌++◌, length, option_map, OnOk, IfOk};
ghost use Rattle.ol_orders.specs.Replays.{names_of};
ghost use Rattle.ol_orders.specs.Turns.{greater_at, left_lines, left_text, or_words, pair_line};

use crate::replaying::Replay;
use crate::words::put_named;
use ol_limits::NoMemory;
use ol_net::{Facing, Net, NodeId, Port};
use ol_subjects::put;
use std::alloc::Global;

// The other node of a node's active pair, where it has the greater number.
fn greater_of(net: &Net, at: NodeId) -> Option<u32>
    ensures { result ≡ greater_at net.now at.0 }
{
    let Facing::Active(_) = net.facing(at) else {
        return None;
    };
    let Some(Port::Of { node, .. }) = net.partner(Port::Of { node: at, slot: 0 }) else {
        return None;
    };
    if at.0 < node.0 { Some(node.0) } else { None }
}

// Appends the line of the pair of two nodes, if there is another.
fn put_pair(
    alloc: Global,
    text: &mut Vec<u8>,
    replay: &Replay,
    at: NodeId,
    other: Option<u32>,
) -> Result<(), NoMemory>
    ensures { OnOk result (text.new.items
        ≡ text.old.items ++ pair_line (names_of replay.now) at.0 other) }
{
    let Some(other) = other else {
        return Ok(());
    };
    put(text, b"  active: ")?;
    put_named(alloc, text, replay.run.names.name_of(at))?;
    put(text, b" and ")?;
    put_named(alloc, text, replay.run.names.name_of(NodeId(other)))?;
    put(text, b"\n")
}

/// Appends these lines, or these words where there are none.
pub fn put_or(text: &mut Vec<u8>, lines: &[u8], words: &[u8]) -> Result<(), NoMemory>
    ensures { OnOk result (text.new.items ≡ text.old.items ++ or_words lines.now words.now) }
{
    if lines.is_empty() {
        put(text, words)
    } else {
        put(text, lines)
    }
}

/// Appends the active pairs of the last net of a run, a line each, in the order of their smaller
/// names.
pub fn put_left(alloc: Global, text: &mut Vec<u8>, replay: &Replay) -> Result<(), NoMemory>
    ensures { OnOk result (text.new.items
        ≡ text.old.items ++ left_text (names_of replay.now) replay.now.net) }
{
    let mut lines = Vec::new(alloc);
    for n in 0..replay.net.born() {
        let other = greater_of(&replay.net, NodeId(n));
        put_pair(alloc, &mut lines, replay, NodeId(n), other)?;
    }
    put_or(text, &lines, b"  no active pair\n")
}
