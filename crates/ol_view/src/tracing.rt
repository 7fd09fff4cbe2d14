//! The text of a trace.

ghost use Rattle.std.specs.Prelude.{◌≡◌, ◌++◌, [], OnOk, IfOk, string_bytes};
ghost use Rattle.ol_view.specs.declared.forms.Form.TheVariants.{One};
ghost use Rattle.ol_view.specs.TraceTexts.{name_text, line_text};
ghost use Rattle.ol_view.specs.Forms.{text_of};

use crate::pieces::{put, put_number};
use ol_limits::NoMemory;
use ol_rules::{Entry, Journal, NodeName};
use std::alloc::Global;

// The first line of a trace text.
pub(crate) const HEADER: &str = "ol trace 1\n";

/// Appends a node name. `NoMemory`: no memory was found.
pub fn put_name(text: &mut String, name: NodeName) -> Result<(), NoMemory>
    ensures { OnOk result (string_bytes text.new ≡ string_bytes text.old ++ name_text name) }
{
    match name {
        NodeName::Init(k) => put_number(text, k),
        NodeName::Born { ticket, place } => {
            put_number(text, ticket)?;
            put(text, ".")?;
            put_number(text, place as u32)
        }
    }
}

pub(crate) fn put_line(text: &mut String, entry: Entry) -> Result<(), NoMemory>
    ensures { OnOk result (string_bytes text.new
        ≡ string_bytes text.old ++ line_text entry.first entry.second) }
{
    put_name(text, entry.first)?;
    put(text, " ")?;
    put_name(text, entry.second)?;
    put(text, "\n")
}

/// The text of a trace: the line `ol trace 1`, and then a line for each entry, in the order of
/// tickets, with its two names, separated by a space. A node of the initial net is written as its
/// number, and a created node as `ticket.place`. Each line ends with a line feed. `NoMemory`: no
/// memory was found.
pub fn trace_text(alloc: Global, journal: &Journal) -> Result<Vec<u8>, NoMemory>
    ensures { IfOk result (λ text. text.items ≡ text_of One journal.now []) }
{
    let mut text = String::new(alloc);
    put(&mut text, HEADER)?;
    for k in 0..journal.len() {
        let Some(entry) = journal.get(k) else {
            unreachable!()
        };
        put_line(&mut text, entry)?;
    }
    Ok(text.into_bytes())
}
