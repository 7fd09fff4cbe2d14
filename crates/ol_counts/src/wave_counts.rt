//! How often each rule stands in each wave.

ghost use Rattle.std.specs.Prelude.{◌≡◌, ◌+◌, ◌<◌, ◌≤◌, length, slice_set, IfOk};
ghost use Rattle.ol_rules.specs.Counted.{counted, HaveRoom};
ghost use Rattle.ol_counts.specs.Waves.{last_wave};
ghost use Rattle.ol_counts.specs.CountsOfWaves.{AreTallied, IsWidestBelow, tally_at};

use crate::sums::interactions;
use ol_diamond::WaveList;
use ol_limits::NoMemory;
use ol_net::Rule;
use ol_rules::{Counts, Journal, counted, no_counts};
use std::alloc::Global;

/// A widest wave: how many pairs it has, and its number.
#[derive(Clone, Copy)]
pub struct Widest {
    pub pairs: u64,
    pub wave: usize,
}

/// The greatest of the waves, or 0 where there is none.
pub fn last_wave(waves: &WaveList) -> u32
    ensures { result ≡ last_wave waves.now }
{
    let mut last: u32 = 0;
    for k in 0..waves.len() {
        let Some(wave) = waves.get(k) else {
            unreachable!()
        };
        last = last.max(wave);
    }
    last
}

/// The counts at a place, or none where there is no such place.
pub fn tally_at(tallies: &[Counts], wave: usize) -> Counts
    ensures { result ≡ tally_at tallies.now wave }
{
    match tallies.get(wave) {
        Some(told) => *told,
        None => no_counts(),
    }
}

// One more of a rule in a wave.
fn add(tallies: &mut Vec<Counts>, wave: usize, rule: Rule)
    requires within { wave < length tallies.old.items }
    requires room { HaveRoom (tally_at tallies.old.items wave) }
    ensures { tallies.new.items
        ≡ slice_set tallies.old.items wave (counted (tally_at tallies.old.items wave) rule) }
{
    let told = tally_at(tallies.as_slice(), wave);
    tallies[wave] = counted(told, rule);
}

/// For each wave, from 0 to the last one, how often each rule stands in it. `NoMemory`: no memory
/// was found.
pub fn tally(
    alloc: Global,
    journal: &Journal,
    waves: &WaveList,
    last: u32,
) -> Result<Vec<Counts>, NoMemory>
    requires count { length waves.now ≡ length journal.now }
    requires last { last ≡ last_wave waves.now }
    ensures sized { IfOk result (λ tallies. length tallies.items ≡ last + 1) }
    ensures each { IfOk result (λ tallies. AreTallied tallies.items journal.now waves.now) }
{
    let mut tallies = Vec::new(alloc);
    tallies.resize(last as usize + 1, no_counts())?;
    for k in 0..journal.len() {
        let Some(entry) = journal.get(k) else {
            unreachable!()
        };
        let Some(wave) = waves.get(k) else {
            unreachable!()
        };
        add(&mut tallies, wave as usize, entry.rule);
    }
    Ok(tallies)
}

/// The first of the widest waves.
pub fn first_widest(tallies: &[Counts]) -> Widest
    requires some { 0 < length tallies.now }
    ensures { IsWidestBelow tallies.now (length tallies.now) result.pairs result.wave }
{
    let mut pairs = interactions(tally_at(tallies, 0));
    let mut wave: usize = 0;
    for k in 1..tallies.len() {
        let here = interactions(tally_at(tallies, k));
        if pairs < here {
            pairs = here;
            wave = k;
        }
    }
    Widest { pairs, wave }
}
