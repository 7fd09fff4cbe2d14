//! The text of a trace with rules and waves.

ghost use Rattle.std.specs.Prelude.{◌≡◌, ℕ, ◌+◌, ◌*◌, ◌≤◌, ◌++◌, List, length, OnOk, IfOk, string_bytes};
ghost use Rattle.ol_net.specs.Nets.{NamedNet};
ghost use Rattle.ol_rules.specs.declared.journal.NodeName.{NodeName};
ghost use Rattle.ol_rules.specs.Runs.{IsRun};
ghost use Rattle.ol_diamond.specs.Waves.{IsWavesOf};
ghost use Rattle.ol_view.specs.Checks.{start_net_of_graph};
ghost use Rattle.ol_view.specs.declared.forms.Form.TheVariants.{Two};
ghost use Rattle.ol_view.specs.RuleNames.{rule_text};
ghost use Rattle.ol_view.specs.Forms.{line_of, text_of};

use crate::pieces::{put, put_number};
use crate::tracing::put_line;
use ol_diamond::{WaveList, waves};
use ol_limits::NoMemory;
use ol_net::{Net, Rule};
use ol_rules::{Entry, Journal};
use std::alloc::Global;

// The first line of a trace text with waves.
pub(crate) const WAVE_HEADER: &str = "ol trace 2\n";

/// The name of a rule, as printed in the lines of counts.
pub fn rule_word(rule: Rule) -> &'static str
    ensures { result.now ≡ rule_text rule }
{
    match rule {
        Rule::Beta => "beta",
        Rule::Fan => "fan",
        Rule::Croissant => "croissant",
        Rule::Bracket => "bracket",
        Rule::CrossFan => "cross-fan",
        Rule::CrossCroissant => "cross-croissant",
        Rule::CrossBracket => "cross-bracket",
        Rule::Erase => "erase",
    }
}

fn put_wave_line(text: &mut String, entry: Entry, wave: u32) -> Result<(), NoMemory>
    ensures { OnOk result
        (string_bytes text.new ≡ string_bytes text.old ++ line_of Two entry wave) }
{
    put(text, rule_word(entry.rule))?;
    put(text, " ")?;
    put_number(text, wave)?;
    put(text, " ")?;
    put_line(text, entry)
}

// The text of a journal with these waves.
fn written(alloc: Global, journal: &Journal, waves: &WaveList) -> Result<Vec<u8>, NoMemory>
    requires count { length waves.now ≡ length journal.now }
    ensures { IfOk result (λ text. text.items ≡ text_of Two journal.now waves.now) }
{
    let mut text = String::new(alloc);
    put(&mut text, WAVE_HEADER)?;
    for k in 0..journal.len() {
        let Some(entry) = journal.get(k) else {
            unreachable!()
        };
        let Some(wave) = waves.get(k) else {
            unreachable!()
        };
        put_wave_line(&mut text, entry, wave)?;
    }
    Ok(text.into_bytes())
}

/// The text of a trace with waves: the line `ol trace 2`, and then a line for each entry, in the
/// order of tickets, with the name of its rule, its wave and its two names, separated by spaces.
/// The wave is as `waves` of `ol_diamond` defines it. Names are written as in `trace_text`, and
/// each line ends with a line feed.
///
/// The trace is of a reduction of `net`, whose nodes are named by their numbers. `NoMemory`: no
/// memory was found.
pub fn trace_text_2(alloc: Global, net: &Net, journal: &Journal) -> Result<Vec<u8>, NoMemory>
    requires few { length net.now.nodes + 4 * length journal.now ≤ 2000000000 }
    requires run { (M : NamedNet NodeName) × IsRun (start_net_of_graph net.now) 0 journal.now M }
    ensures text { IfOk result (λ text. (waves : List ℕ) × IsWavesOf net.now journal.now waves
        × (text.items ≡ text_of Two journal.now waves)) }
{
    let list = waves(alloc, net, journal)?;
    written(alloc, journal, &list)
}
