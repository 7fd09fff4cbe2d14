//! The lines of the table.

ghost use Rattle.std.specs.Prelude.{◌≡◌, ◌≤◌, ◌++◌, IfOk, OnOk};
ghost use Rattle.ol_counts.specs.Waves.{cell, header_text, left_text, mean_text, row_text, totals_text, two_numbers, widest_text};
ghost use Rattle.ol_counts.specs.CountsOfWaves.{rows_text};
ghost use Rattle.ol_counts.specs.Sums.{interactions};

use crate::sums::interactions;
use crate::wave_counts::{Widest, tally_at};
use ol_limits::NoMemory;
use ol_rules::Counts;
use ol_subjects::{put, put_number};
use std::alloc::Global;

// As many spaces as the widest column has places.
const SPACES: &[u8; 16] = b"                ";

// Appends a number, which stands at the right end of its column.
fn put_cell(alloc: Global, text: &mut Vec<u8>, columns: usize, n: u64) -> Result<(), NoMemory>
    requires columns { columns ≤ 16 }
    ensures { OnOk result (text.new.items ≡ text.old.items ++ cell columns n) }
{
    let mut digits = Vec::new(alloc);
    put_number(alloc, &mut digits, n)?;
    put(text, &SPACES[..columns.saturating_sub(digits.len())])?;
    put(text, &digits)
}

// The line of a wave.
fn row(alloc: Global, wave: u64, told: Counts) -> Result<Vec<u8>, NoMemory>
    ensures { IfOk result (λ text. text.items ≡ row_text wave (interactions told) told) }
{
    let mut text = Vec::new(alloc);
    put_cell(alloc, &mut text, 7, wave)?;
    put_cell(alloc, &mut text, 8, interactions(told))?;
    put_cell(alloc, &mut text, 8, told.beta as u64)?;
    put_cell(alloc, &mut text, 8, told.fan as u64)?;
    put_cell(alloc, &mut text, 10, told.croissant as u64)?;
    put_cell(alloc, &mut text, 8, told.bracket as u64)?;
    put_cell(alloc, &mut text, 10, told.cross_fan as u64)?;
    put_cell(alloc, &mut text, 16, told.cross_croissant as u64)?;
    put_cell(alloc, &mut text, 14, told.cross_bracket as u64)?;
    put_cell(alloc, &mut text, 8, told.erase as u64)?;
    put(&mut text, b"\n")?;
    Ok(text)
}

/// Appends the line of the columns' names.
pub fn put_header(text: &mut Vec<u8>) -> Result<(), NoMemory>
    ensures { OnOk result (text.new.items ≡ text.old.items ++ header_text) }
{
    put(
        text,
        b"   wave   pairs    beta     fan croissant bracket cross-fan cross-croissant \
        cross-bracket   erase\n",
    )
}

/// Appends the lines of waves 1 to `last`.
pub fn put_rows(
    alloc: Global,
    text: &mut Vec<u8>,
    tallies: &[Counts],
    last: u32,
) -> Result<(), NoMemory>
    ensures { OnOk result (text.new.items ≡ text.old.items ++ rows_text tallies.now last) }
{
    for k in 0..last {
        let line = row(alloc, k as u64 + 1, tally_at(tallies, k as usize + 1))?;
        put(text, &line)?;
    }
    Ok(())
}

// Appends a line of two numbers, each behind some words.
fn put_two(
    alloc: Global,
    text: &mut Vec<u8>,
    words: &[u8],
    m: u64,
    more: &[u8],
    n: u64,
) -> Result<(), NoMemory>
    ensures { OnOk result (text.new.items
        ≡ text.old.items ++ two_numbers words.now m more.now n) }
{
    let mut line = Vec::new(alloc);
    put(&mut line, words)?;
    put_number(alloc, &mut line, m)?;
    put(&mut line, more)?;
    put_number(alloc, &mut line, n)?;
    put(&mut line, b"\n")?;
    put(text, &line)
}

/// Appends the line of a widest wave.
pub fn put_widest(alloc: Global, text: &mut Vec<u8>, widest: Widest) -> Result<(), NoMemory>
    ensures { OnOk result (text.new.items
        ≡ text.old.items ++ widest_text widest.pairs widest.wave) }
{
    let wave = widest.wave as u64;
    put_two(alloc, text, b"widest ", widest.pairs, b" at wave ", wave)
}

/// Appends how many pairs a wave has in the mean.
pub fn put_mean(
    alloc: Global,
    text: &mut Vec<u8>,
    interactions: u32,
    waves: u32,
) -> Result<(), NoMemory>
    ensures { OnOk result (text.new.items ≡ text.old.items ++ mean_text interactions waves) }
{
    put_two(
        alloc,
        text,
        b"mean ",
        interactions as u64,
        b"/",
        waves as u64,
    )
}

/// Appends how many waves and how many pairs there are.
pub fn put_totals(
    alloc: Global,
    text: &mut Vec<u8>,
    waves: u32,
    interactions: u32,
) -> Result<(), NoMemory>
    ensures { OnOk result (text.new.items ≡ text.old.items ++ totals_text waves interactions) }
{
    let pairs = interactions as u64;
    put_two(
        alloc,
        text,
        b"waves ",
        waves as u64,
        b"\ninteractions ",
        pairs,
    )
}

/// Appends that a pair is left.
pub fn put_left(alloc: Global, text: &mut Vec<u8>, fuel: u32) -> Result<(), NoMemory>
    ensures { OnOk result (text.new.items ≡ text.old.items ++ left_text fuel) }
{
    let mut line = Vec::new(alloc);
    put(&mut line, b"a pair is left after ")?;
    put_number(alloc, &mut line, fuel as u64)?;
    put(&mut line, b" interactions\n")?;
    put(text, &line)
}
