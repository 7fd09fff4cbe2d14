//! The text of a table: a row for each rule, and a column for each way that is shown.

ghost use Rattle.std.specs.Prelude.{◌≡◌, ◌++◌, IfOk, OnOk};
ghost use Rattle.std.specs.List.{flat_map};
ghost use Rattle.ol_counts.specs.Tables.{at_right, cell, crossings_in, digits, end_of, has_net, have_ended, head, in_row, net_rows, number_in, places_in, row_name, row_text, sign, steps_in, table_text};

use crate::sums::interactions;
use crate::tallies::{Numbers, Readback, Tally};
use crate::ways::{Way, is_of_net, title};
use ol_limits::NoMemory;
use ol_rules::Counts;
use ol_subjects::{End, put, put_number};
use std::alloc::Global;

/// A column: a way of reducing, and what it comes to.
#[derive(Clone, Copy)]
pub struct Column {
    pub way: Way,
    pub tally: Tally,
}

/// The rows of a table. Each of the first eight tells how often a rule was applied.
#[derive(Clone, Copy)]
pub enum Row {
    /// An application and an abstraction of one index. Of a way that reduces the term, its beta
    /// steps: that has no other row.
    Beta,
    /// Two fans of one index.
    Fan,
    /// Two croissants of one index.
    Croissant,
    /// Two brackets of one index.
    Bracket,
    /// A fan and a node of a greater index, which is no eraser.
    CrossFan,
    /// A croissant and a node of a greater index, which is no eraser.
    CrossCroissant,
    /// A bracket and a node of a greater index, which is no eraser.
    CrossBracket,
    /// An eraser and any node.
    Erase,
    /// All eight rules together.
    Interactions,
    /// How many pairs are left that have no rule.
    Stuck,
    /// How many subterms of the normal form were read.
    Places,
    /// How many crossings the paths to the heads of these subterms have.
    Crossings,
}

/// The rows that only runs of a net have.
pub const NET_ROWS: [Row; 11] = [
    Row::Fan,
    Row::Croissant,
    Row::Bracket,
    Row::CrossFan,
    Row::CrossCroissant,
    Row::CrossBracket,
    Row::Erase,
    Row::Interactions,
    Row::Stuck,
    Row::Places,
    Row::Crossings,
];

// As many spaces as a column is wide.
const SPACES: &[u8; 12] = b"            ";

fn row_name(row: Row) -> &'static str
    ensures { result.now ≡ row_name row }
{
    match row {
        Row::Beta => "beta            ",
        Row::Fan => "fan             ",
        Row::Croissant => "croissant       ",
        Row::Bracket => "bracket         ",
        Row::CrossFan => "cross-fan       ",
        Row::CrossCroissant => "cross-croissant ",
        Row::CrossBracket => "cross-bracket   ",
        Row::Erase => "erase           ",
        Row::Interactions => "interactions    ",
        Row::Stuck => "stuck           ",
        Row::Places => "places          ",
        Row::Crossings => "crossings       ",
    }
}

fn places_in(read: Option<Readback>) -> Option<u64>
    ensures { result ≡ places_in read }
{
    match read {
        Some(read) => Some(read.places as u64),
        None => None,
    }
}

fn crossings_in(read: Option<Readback>) -> Option<u64>
    ensures { result ≡ crossings_in read }
{
    match read {
        Some(read) => Some(read.crossings),
        None => None,
    }
}

/// The number that a reduction of a net has in a row, if the number is known.
pub fn in_row(row: Row, counts: Counts, stuck: u32, read: Option<Readback>) -> Option<u64>
    ensures { result ≡ in_row row counts stuck read }
{
    match row {
        Row::Beta => Some(counts.beta as u64),
        Row::Fan => Some(counts.fan as u64),
        Row::Croissant => Some(counts.croissant as u64),
        Row::Bracket => Some(counts.bracket as u64),
        Row::CrossFan => Some(counts.cross_fan as u64),
        Row::CrossCroissant => Some(counts.cross_croissant as u64),
        Row::CrossBracket => Some(counts.cross_bracket as u64),
        Row::Erase => Some(counts.erase as u64),
        Row::Interactions => Some(interactions(counts)),
        Row::Stuck => Some(stuck as u64),
        Row::Places => places_in(read),
        Row::Crossings => crossings_in(read),
    }
}

// The number of a row of a way that has beta steps alone.
fn steps_in(row: Row, steps: u32) -> Option<u64>
    ensures { result ≡ steps_in row steps }
{
    match row {
        Row::Beta => Some(steps as u64),
        _ => None,
    }
}

// The number of a row, if there is any.
fn number_in(row: Row, numbers: Numbers) -> Option<u64>
    ensures { result ≡ number_in row numbers }
{
    match numbers {
        Numbers::Net {
            counts,
            stuck,
            read,
        } => in_row(row, counts, stuck, read),
        Numbers::Steps(steps) => steps_in(row, steps),
        Numbers::Nothing => None,
    }
}

// What follows a number.
fn sign(ended: bool) -> &'static str
    ensures { result.now ≡ sign ended }
{
    if ended { "" } else { "+" }
}

// A number with its sign, or a hyphen.
fn digits(alloc: Global, number: Option<u64>, ended: bool) -> Result<Vec<u8>, NoMemory>
    ensures { IfOk result (λ text. text.items ≡ digits number ended) }
{
    let mut text = Vec::new(alloc);
    match number {
        Some(number) => {
            put_number(alloc, &mut text, number)?;
            put(&mut text, sign(ended).as_bytes())?;
            Ok(text)
        }
        None => {
            put(&mut text, b"-")?;
            Ok(text)
        }
    }
}

// Appends a word at the right end of a column.
fn put_at_right(text: &mut Vec<u8>, word: &[u8]) -> Result<(), NoMemory>
    ensures { OnOk result (text.new.items ≡ text.old.items ++ at_right word.now) }
{
    put(text, &SPACES[..12usize.saturating_sub(word.len())])?;
    put(text, word)
}

// Appends what a column has in a row.
fn put_cell(alloc: Global, text: &mut Vec<u8>, row: Row, column: Column) -> Result<(), NoMemory>
    ensures { OnOk result (text.new.items ≡ text.old.items ++ cell row column) }
{
    let number = number_in(row, column.tally.numbers);
    let word = digits(alloc, number, column.tally.ended)?;
    put_at_right(text, &word)
}

// Appends what the columns have in a row.
fn put_cells(
    alloc: Global,
    text: &mut Vec<u8>,
    row: Row,
    columns: &[Column],
) -> Result<(), NoMemory>
    ensures { OnOk result (text.new.items ≡ text.old.items ++ flat_map (cell row) columns.now) }
{
    for column in columns {
        put_cell(alloc, text, row, *column)?;
    }
    Ok(())
}

// Appends a row.
fn put_row(alloc: Global, text: &mut Vec<u8>, row: Row, columns: &[Column]) -> Result<(), NoMemory>
    ensures { OnOk result (text.new.items ≡ text.old.items ++ row_text columns.now row) }
{
    put(text, row_name(row).as_bytes())?;
    put_cells(alloc, text, row, columns)?;
    put(text, b"\n")
}

// Appends the rows that only runs of a net have.
fn put_net_rows(alloc: Global, text: &mut Vec<u8>, columns: &[Column]) -> Result<(), NoMemory>
    ensures { OnOk result
        (text.new.items ≡ text.old.items ++ flat_map (row_text columns.now) net_rows) }
{
    for row in NET_ROWS {
        put_row(alloc, text, row, columns)?;
    }
    Ok(())
}

// Appends the titles.
fn put_titles(text: &mut Vec<u8>, columns: &[Column]) -> Result<(), NoMemory>
    ensures { OnOk result (text.new.items ≡ text.old.items ++ flat_map head columns.now) }
{
    for column in columns {
        put_at_right(text, title(column.way).as_bytes())?;
    }
    Ok(())
}

// Whether a run of a net is shown.
fn has_net(columns: &[Column]) -> bool
    ensures { result ≡ has_net columns.now }
{
    columns.iter().any(|column| is_of_net(column.way))
}

/// The table with these columns. Only where a run of a net is shown, it has more rows than that of
/// the beta steps. `NoMemory`: no memory was found.
pub fn table(alloc: Global, columns: &[Column]) -> Result<Vec<u8>, NoMemory>
    ensures { IfOk result (λ text. text.items ≡ table_text columns.now) }
{
    let mut text = Vec::new(alloc);
    put(&mut text, b"                ")?;
    put_titles(&mut text, columns)?;
    put(&mut text, b"\n")?;
    put_row(alloc, &mut text, Row::Beta, columns)?;
    if has_net(columns) {
        put_net_rows(alloc, &mut text, columns)?;
    }
    Ok(text)
}

// Whether all ways have ended.
fn have_ended(columns: &[Column]) -> bool
    ensures { result ≡ have_ended columns.now }
{
    columns.iter().all(|column| column.tally.ended)
}

/// `Yes` if no way that is shown was cut, otherwise `No`.
pub fn end_of(columns: &[Column]) -> End
    ensures { result ≡ end_of columns.now }
{
    if have_ended(columns) {
        End::Yes
    } else {
        End::No
    }
}
