//! The texts of verdicts.
ghost use Rattle.std.specs.Prelude.{◌≡◌, ◌++◌, codes, IfOk, OnOk, string_bytes};
ghost use Rattle.ol_cli.specs.Texts.{line, count_line};
ghost use Rattle.std.specs.List.{flat_map};
ghost use Rattle.std.specs.Fmt.{decimal};
ghost use Rattle.ol_beta.specs.AddressTexts.{address_text};
ghost use Rattle.ol_cli.specs.Certify.{road_text, verdict_text};

use crate::texts::{add_count, count_line, line};
use ol_beta::{Address, Road, Verdict};
use ol_limits::NoMemory;
use std::alloc::Global;

/// The text of a verdict by at most `steps` steps: `incomplete`; `deep D` with the depth;
/// `past at step S` with the step; `beta steps B` with `steps`; or `differs` or `agreed`, and then
/// how many steps the reduction has and a line for the address of each step.
pub fn verdict_lines(alloc: Global, verdict: Verdict, steps: u32) -> Result<Vec<u8>, NoMemory>
    ensures { IfOk result (λ text. text.items ≡ verdict_text steps verdict) }
{
    match verdict {
        Verdict::NotWhole { .. } => line(alloc, "incomplete"),
        Verdict::Deep { depth } => deep_line(alloc, depth),
        Verdict::Past { step, .. } => count_line(alloc, "past at step", step),
        Verdict::Short => count_line(alloc, "beta steps", steps),
        Verdict::Differs { road } => road_lines(alloc, "differs", &road),
        Verdict::Agreed { road } => road_lines(alloc, "agreed", &road),
    }
}

// The line of a depth.
fn deep_line(alloc: Global, depth: u64) -> Result<Vec<u8>, NoMemory>
    ensures { IfOk result (λ text. text.items ≡ count_line (codes "deep") depth) }
{
    match format!(in alloc; "deep {depth}\n") {
        Ok(text) => Ok(text.into_bytes()),
        Err(_) => Err(NoMemory),
    }
}

// A word, how many steps a road has, and a line for each of its addresses.
fn road_lines(alloc: Global, word: &str, road: &Road) -> Result<Vec<u8>, NoMemory>
    ensures { IfOk result (λ text. text.items ≡ road_text word.now road.now) }
{
    let mut text = line(alloc, word)?;
    add_count(alloc, &mut text, "steps", road.len())?;
    for k in 0..road.len() {
        let Some(at) = road.get(k) else {
            unreachable!()
        };
        add_address(alloc, &mut text, at)?;
    }
    Ok(text)
}

// Appends the line of an address.
fn add_address(alloc: Global, text: &mut Vec<u8>, at: &Address) -> Result<(), NoMemory>
    ensures { OnOk result (text.new.items ≡ text.old.items ++ line (address_text at.now)) }
{
    let words = address_words(alloc, at)?;
    let Ok(line) = format!(in alloc; "{words}\n") else {
        return Err(NoMemory);
    };
    match text.extend_from_slice(line.as_bytes()) {
        Ok(()) => Ok(()),
        Err(_) => Err(NoMemory),
    }
}

// An address: the digits of its moves, or a dot for the root.
fn address_words(alloc: Global, at: &Address) -> Result<String, NoMemory>
    ensures { IfOk result (λ words. string_bytes words ≡ address_text at.now) }
{
    if at.len() == 0 {
        match format!(in alloc; ".") {
            Ok(words) => Ok(words),
            Err(_) => Err(NoMemory),
        }
    } else {
        let words = digits(alloc, at)?;
        Ok(words)
    }
}

// The moves of an address, one digit each.
fn digits(alloc: Global, at: &Address) -> Result<String, NoMemory>
    ensures { IfOk result (λ words. string_bytes words ≡ flat_map decimal at.now) }
{
    let mut words = String::new(alloc);
    for k in 0..at.len() {
        let Some(step) = at.get(k) else {
            unreachable!()
        };
        let Ok(()) = write!(words, "{step}") else {
            return Err(NoMemory);
        };
    }
    Ok(words)
}
