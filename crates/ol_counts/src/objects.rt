//! The columns as an object: a member for each way that is shown.

ghost use Rattle.std.specs.Prelude.{◌≡◌, ◌++◌, [], IfOk, OnOk};
ghost use Rattle.std.specs.List.{flat_map};
ghost use Rattle.ol_counts.specs.Objects.{column_member, ended_member, key, known_member, members_after, net_members, number_member, object_text, tally_object, text_in};

use crate::tables::{Column, NET_ROWS, Row, in_row, table};
use crate::tallies::{Numbers, Readback, Tally};
use crate::ways::title;
use ol_limits::NoMemory;
use ol_rules::Counts;
use ol_subjects::{Layout, put, put_number};
use std::alloc::Global;

fn key(row: Row) -> &'static str
    ensures { result.now ≡ key row }
{
    match row {
        Row::Beta => "\"beta\":",
        Row::Fan => "\"fan\":",
        Row::Croissant => "\"croissant\":",
        Row::Bracket => "\"bracket\":",
        Row::CrossFan => "\"cross-fan\":",
        Row::CrossCroissant => "\"cross-croissant\":",
        Row::CrossBracket => "\"cross-bracket\":",
        Row::Erase => "\"erase\":",
        Row::Interactions => "\"interactions\":",
        Row::Stuck => "\"stuck\":",
        Row::Places => "\"places\":",
        Row::Crossings => "\"crossings\":",
    }
}

// Appends the member of a row, behind some bytes.
fn put_number_member(
    alloc: Global,
    text: &mut Vec<u8>,
    before: &[u8],
    row: Row,
    number: u64,
) -> Result<(), NoMemory>
    ensures { OnOk result
        (text.new.items ≡ text.old.items ++ (before.now ++ number_member row number)) }
{
    put(text, before)?;
    put(text, key(row).as_bytes())?;
    put_number(alloc, text, number)
}

// Appends the member of a row that only runs of a net have, if its number is known.
fn put_net_member(
    alloc: Global,
    text: &mut Vec<u8>,
    row: Row,
    number: Option<u64>,
) -> Result<(), NoMemory>
    ensures { OnOk result (text.new.items ≡ text.old.items ++ known_member row number) }
{
    match number {
        Some(number) => put_number_member(alloc, text, b",", row, number),
        None => Ok(()),
    }
}

// Appends the members of the rows that only runs of a net have.
fn put_net_members(
    alloc: Global,
    text: &mut Vec<u8>,
    counts: Counts,
    stuck: u32,
    read: Option<Readback>,
) -> Result<(), NoMemory>
    ensures { OnOk result (text.new.items ≡ text.old.items ++ net_members counts stuck read) }
{
    for row in NET_ROWS {
        put_net_member(alloc, text, row, in_row(row, counts, stuck, read))?;
    }
    Ok(())
}

// Whether a way has ended, as the last member of its object.
fn ended_member(ended: bool) -> &'static str
    ensures { result.now ≡ ended_member ended }
{
    if ended {
        ",\"ended\":true}"
    } else {
        ",\"ended\":false}"
    }
}

// Appends what a way comes to.
fn put_tally(alloc: Global, text: &mut Vec<u8>, tally: Tally) -> Result<(), NoMemory>
    ensures { OnOk result
        (text.new.items ≡ text.old.items ++ tally_object tally.numbers tally.ended) }
{
    match tally.numbers {
        Numbers::Net {
            counts,
            stuck,
            read,
        } => {
            put_number_member(alloc, text, b"{", Row::Beta, counts.beta as u64)?;
            put_net_members(alloc, text, counts, stuck, read)?;
            put(text, ended_member(tally.ended).as_bytes())
        }
        Numbers::Steps(steps) => {
            put_number_member(alloc, text, b"{", Row::Beta, steps as u64)?;
            put(text, ended_member(tally.ended).as_bytes())
        }
        Numbers::Nothing => put(text, b"null"),
    }
}

// Appends the member of a column.
fn put_member(alloc: Global, text: &mut Vec<u8>, column: Column) -> Result<(), NoMemory>
    ensures { OnOk result (text.new.items ≡ text.old.items ++ column_member column) }
{
    put(text, b"\"")?;
    put(text, title(column.way).as_bytes())?;
    put(text, b"\":")?;
    put_tally(alloc, text, column.tally)
}

// Appends the members of the columns, a comma between each two.
fn put_members(alloc: Global, text: &mut Vec<u8>, columns: &[Column]) -> Result<(), NoMemory>
    ensures { OnOk result (text.new.items ≡ text.old.items ++ members_after [] columns.now) }
{
    let mut before: &[u8] = b"";
    for column in columns {
        put(text, before)?;
        put_member(alloc, text, *column)?;
        before = b",";
    }
    Ok(())
}

// The object with these columns.
fn object(alloc: Global, columns: &[Column]) -> Result<Vec<u8>, NoMemory>
    ensures { IfOk result (λ text. text.items ≡ object_text columns.now) }
{
    let mut text = Vec::new(alloc);
    put(&mut text, b"{\"columns\":{")?;
    put_members(alloc, &mut text, columns)?;
    put(&mut text, b"}}\n")?;
    Ok(text)
}

/// The text with these columns: a table, or a JSON object on one line. `NoMemory`: no memory was
/// found.
pub fn text_in(alloc: Global, layout: Layout, columns: &[Column]) -> Result<Vec<u8>, NoMemory>
    ensures { IfOk result (λ text. text.items ≡ text_in layout columns.now) }
{
    match layout {
        Layout::Lines => {
            let text = table(alloc, columns)?;
            Ok(text)
        }
        Layout::Object => {
            let text = object(alloc, columns)?;
            Ok(text)
        }
    }
}
