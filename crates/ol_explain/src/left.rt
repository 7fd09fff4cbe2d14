//! The pairs that are left after a run, each as the line with which its trace could go on.

ghost use Rattle.std.specs.Prelude.{
  ◌≡◌,
  ℕ,
  ◌<◌,
  ◌≤◌,
  ◌+◌,
  ◌++◌,
  List,
  length,
  drop,
  codes,
  string_bytes,
  OnOk,
  IfOk,
};
ghost use Rattle.ol_view.specs.EachForm.{wave_line_text, wave_lines_text};
ghost use Rattle.ol_explain.specs.Afters.{line_with};
ghost use Rattle.ol_orders.specs.Replays.{IsReplay};
ghost use Rattle.ol_explain.specs.Reasons.{IsReplayed};
ghost use Rattle.ol_explain.specs.Left.{more_text};
ghost use Rattle.ol_subjects.specs.declared.answers.End.{End};
ghost use Rattle.ol_explain.specs.Found.{IsPairOf, AreFound, IsLeftText};
ghost use Rattle.ol_limits.specs.Limits.{most_fuel, most_nodes};

use crate::naming::{put, put_number};
use ol_diamond::{WaveList, waves};
use ol_limits::NoMemory;
use ol_net::{Facing, Net, NodeId, Port};
use ol_orders::Replay;
use ol_rules::{Entry, Journal};
use ol_subjects::{Answer, End};
use ol_view::{put_name, rule_word};
use std::alloc::Global;

// How many pairs are told.
const MOST_PAIRS: u32 = 20;

// The active pairs of a net: the first ones, in the order of their first names, and how many others
// there are.
#[derive(Drop)]
struct Found {
    told: Journal,
    more: u32,
}

// The active pair of which this node has the smaller name.
fn pair_at(replay: &Replay, at: NodeId) -> Option<Entry>
    requires replay { IsReplayed replay.now }
    requires below { at.0 < length replay.now.net.nodes }
    ensures { IsPairOf replay.now at.0 result }
{
    let Facing::Active(rule) = replay.net.facing(at) else {
        return None;
    };
    match replay.net.partner(Port::Of { node: at, slot: 0 }) {
        Some(Port::Of { node, .. }) => {
            if node.0 <= at.0 {
                return None;
            }
            Some(Entry {
                rule,
                first: replay.run.names.name_of(at),
                second: replay.run.names.name_of(node),
            })
        }
        Some(Port::Free(_)) => None,
        None => None,
    }
}

// Adds the pair of which this node has the smaller name, if there is one.
fn add(found: &mut Found, replay: &Replay, at: NodeId) -> Result<(), NoMemory>
    requires replay { IsReplayed replay.now }
    requires below { at.0 < length replay.now.net.nodes }
    requires found { AreFound replay.now at.0 found.old.told found.old.more }
    ensures { OnOk result (AreFound replay.now (at.0 + 1) found.new.told found.new.more) }
{
    replay.net.is_tabled();
    match pair_at(replay, at) {
        None => Ok(()),
        Some(entry) => {
            if found.told.len() < MOST_PAIRS {
                found.told.push(entry)?;
                return Ok(());
            }
            found.more += 1;
            Ok(())
        }
    }
}

// All active pairs of the last net.
fn find(alloc: Global, replay: &Replay) -> Result<Found, NoMemory>
    requires replay { IsReplayed replay.now }
    ensures { IfOk result (λ f. AreFound replay.now (length replay.now.net.nodes) f.told f.more) }
{
    let told = Journal::new(alloc);
    let mut found = Found { told, more: 0 };
    for n in 0..replay.net.born() {
        add(&mut found, replay, NodeId(n))?;
    }
    Ok(found)
}

// Appends the entries of a journal.
fn append(journal: &mut Journal, more: &Journal) -> Result<(), NoMemory>
    requires few { length journal.old + length more.now ≤ 4294967295 }
    ensures { OnOk result (journal.new ≡ journal.old ++ more.now) }
{
    for k in 0..more.len() {
        let Some(entry) = more.get(k) else {
            unreachable!()
        };
        journal.push(entry)?;
    }
    Ok(())
}

// Appends the line of an entry.
fn put_line(text: &mut String, entry: Entry, wave: u32) -> Result<(), NoMemory>
    ensures { OnOk result
        (string_bytes text.new ≡ string_bytes text.old ++ wave_line_text entry wave) }
{
    put(text, rule_word(entry.rule))?;
    put(text, " ")?;
    put_number(text, wave)?;
    put(text, " ")?;
    put_name(text, entry.first)?;
    put(text, " ")?;
    put_name(text, entry.second)?;
    put(text, "\n")
}

// Appends the lines of these entries, the waves of which begin at this place.
fn put_lines(
    text: &mut String,
    entries: &Journal,
    waves: &WaveList,
    from: u32,
) -> Result<(), NoMemory>
    requires count { length waves.now ≡ from + length entries.now }
    requires few { from + length entries.now ≤ 4294967295 }
    ensures { OnOk result (string_bytes text.new
        ≡ string_bytes text.old ++ wave_lines_text entries.now (drop from waves.now)) }
{
    for k in 0..entries.len() {
        let Some(entry) = entries.get(k) else {
            unreachable!()
        };
        let Some(wave) = waves.get(from + k) else {
            unreachable!()
        };
        put_line(text, entry, wave)?;
    }
    Ok(())
}

// Appends how many others there are.
fn put_more(text: &mut String, more: u32) -> Result<(), NoMemory>
    ensures { OnOk result (string_bytes text.new ≡ string_bytes text.old ++ more_text more) }
{
    if more == 0 {
        return Ok(());
    }
    put(text, "and ")?;
    put_number(text, more)?;
    put(text, " more\n")
}

// Appends the pairs that are left after a run from the net. After this the run is of no use.
fn put_left(
    alloc: Global,
    text: &mut String,
    net: &Net,
    replay: &mut Replay,
) -> Result<(), NoMemory>
    requires few { length net.now.nodes ≤ most_nodes }
    requires entries { length replay.old.run.journal ≤ most_fuel }
    requires replay { IsReplay net.now replay.old }
    ensures { OnOk result ((left : List ℕ) × IsLeftText net.now replay.old left
        × (string_bytes text.new ≡ string_bytes text.old ++ left)) }
{
    net.is_net();
    let found = find(alloc, replay)?;
    let from = replay.run.journal.len();
    append(&mut replay.run.journal, &found.told)?;
    let waves = waves(alloc, net, &replay.run.journal)?;
    put_lines(text, &found.told, &waves, from)?;
    put_more(text, found.more)?;
    Ok(())
}

/// The answer of a run from the net: the number of its entries, and below it the pairs that are
/// left, a line for each of the first 20, in the order of their first names: its rule, its wave and
/// its two names, as a trace tells them. Where there are more, a last line tells how many. After
/// this the run is of no use. `NoMemory`: no memory was found.
pub fn run_and_left(
    alloc: Global,
    net: &Net,
    entries: u32,
    replay: &mut Replay,
) -> Result<Answer, NoMemory>
    requires few { length net.now.nodes ≤ most_nodes }
    requires entries { length replay.old.run.journal ≤ most_fuel }
    requires replay { IsReplay net.now replay.old }
    ensures text { IfOk result (λ a. (left : List ℕ) × IsLeftText net.now replay.old left
        × (a.text.items ≡ line_with (codes "run ") entries ++ left)) }
    ensures end { IfOk result (λ a. a.end ≡ End.Run) }
{
    let mut text = String::new(alloc);
    put(&mut text, "run ")?;
    put_number(&mut text, entries)?;
    put(&mut text, "\n")?;
    put_left(alloc, &mut text, net, replay)?;
    let text = text.into_bytes();
    let end = End::Run;
    Ok(Answer { text, end })
}
