//! Names, nodes and lines of traces, as pieces of texts.

ghost use Rattle.std.specs.Prelude.{◌≡◌, ◌++◌, OnOk};
ghost use Rattle.ol_net.specs.Graph.{kind_at};
ghost use Rattle.ol_view.specs.declared.forms.Form.TheVariants.{Two};
ghost use Rattle.ol_view.specs.Forms.{line_of};
ghost use Rattle.ol_view.specs.TraceTexts.{line_text, name_text};
ghost use Rattle.ol_orders.specs.Replays.{names_of};
ghost use Rattle.ol_orders.specs.Turns.{kind_words, node_text};

use crate::replaying::Replay;
use ol_limits::NoMemory;
use ol_net::{IndexOf, Kind, NodeId};
use ol_rules::{Entry, NodeName};
use ol_subjects::{put, put_number, put_shown};
use ol_view::{put_name, rule_word};
use std::alloc::Global;

/// Appends a name.
pub fn put_named(alloc: Global, text: &mut Vec<u8>, name: NodeName) -> Result<(), NoMemory>
    ensures { OnOk result (text.new.items ≡ text.old.items ++ name_text name) }
{
    let mut piece = String::new(alloc);
    put_name(&mut piece, name)?;
    put(text, piece.as_bytes())
}

// Appends the two names of an entry, which end a line.
fn put_names(alloc: Global, text: &mut Vec<u8>, entry: Entry) -> Result<(), NoMemory>
    ensures { OnOk result (text.new.items
        ≡ text.old.items ++ line_text entry.first entry.second) }
{
    put_named(alloc, text, entry.first)?;
    put(text, b" ")?;
    put_named(alloc, text, entry.second)?;
    put(text, b"\n")
}

/// Appends the line of an entry in its wave, as a trace has it.
pub fn put_entry(alloc: Global, text: &mut Vec<u8>, entry: Entry, wave: u32) -> Result<(), NoMemory>
    ensures { OnOk result (text.new.items ≡ text.old.items ++ line_of Two entry wave) }
{
    put(text, rule_word(entry.rule).as_bytes())?;
    put(text, b" ")?;
    put_number(alloc, text, wave as u64)?;
    put(text, b" ")?;
    put_names(alloc, text, entry)
}

// Appends a kind and an index, if there are some.
fn put_kind(alloc: Global, text: &mut Vec<u8>, node: Option<(Kind, u32)>) -> Result<(), NoMemory>
    ensures { OnOk result (text.new.items ≡ text.old.items ++ kind_words node) }
{
    let Some((kind, index)) = node else {
        return Ok(());
    };
    put_shown(alloc, text, &kind)?;
    put(text, b" ")?;
    put_shown(alloc, text, &IndexOf { kind, index })
}

/// Appends a node of the last net of a run: its name, its kind and its index.
pub fn put_node(
    alloc: Global,
    text: &mut Vec<u8>,
    replay: &Replay,
    at: NodeId,
) -> Result<(), NoMemory>
    ensures { OnOk result (text.new.items
        ≡ text.old.items ++ node_text (names_of replay.now) replay.now.net at.0) }
{
    put_named(alloc, text, replay.run.names.name_of(at))?;
    put(text, b" (")?;
    put_kind(alloc, text, replay.net.kind_of(at))?;
    put(text, b")")
}
