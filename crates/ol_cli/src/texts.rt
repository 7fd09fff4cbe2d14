//! The texts that the program writes.
ghost use Rattle.std.specs.Prelude.{◌≡◌, ◌++◌, IfOk, OnOk};
ghost use Rattle.ol_cli.specs.Texts.{line, count_line, counts_text, answer_text};
ghost use Rattle.ol_cli.specs.RefusalTexts.{syntax_text, spent_text, view_text};
ghost use Rattle.ol_cli.specs.Check.{found_text};

use ol_limits::NoMemory;
use ol_rules::Counts;
use ol_view::Check;
use std::alloc::Global;

/// The words and a line feed.
pub fn line(alloc: Global, words: &str) -> Result<Vec<u8>, NoMemory>
    ensures { IfOk result (λ text. text.items ≡ line words.now) }
{
    match format!(in alloc; "{words}\n") {
        Ok(text) => Ok(text.into_bytes()),
        Err(_) => Err(NoMemory),
    }
}

/// The line of a text that isn't in the grammar.
pub fn syntax_line(alloc: Global, at: usize) -> Result<Vec<u8>, NoMemory>
    ensures { IfOk result (λ text. text.items ≡ syntax_text at) }
{
    match format!(in alloc; "syntax at byte {at}\n") {
        Ok(text) => Ok(text.into_bytes()),
        Err(_) => Err(NoMemory),
    }
}

/// The line of a run that used up its fuel.
pub fn spent_line(alloc: Global, fuel: u32) -> Result<Vec<u8>, NoMemory>
    ensures { IfOk result (λ text. text.items ≡ spent_text fuel) }
{
    count_line(alloc, "fuel", fuel)
}

/// The line of what a trace is found to be.
pub fn found_line(alloc: Global, found: Check) -> Result<Vec<u8>, NoMemory>
    ensures { IfOk result (λ text. text.items ≡ found_text found) }
{
    match found {
        Check::Complete => line(alloc, "complete"),
        Check::Run { k } => count_line(alloc, "run", k),
        Check::BadText { line } => count_line(alloc, "bad text at line", line),
        Check::NotARun { line } => count_line(alloc, "not a run at line", line),
    }
}

/// The line of a number of steps, and the net after them as it is shown.
pub fn view_lines(alloc: Global, steps: u32, shown: &[u8]) -> Result<Vec<u8>, NoMemory>
    ensures { IfOk result (λ text. text.items ≡ view_text steps shown.now) }
{
    let mut text = count_line(alloc, "step", steps)?;
    match text.extend_from_slice(shown) {
        Ok(()) => Ok(text),
        Err(_) => Err(NoMemory),
    }
}

/// The lines of a run that ended: its term, the interactions of each rule, and the pairs that are
/// stuck.
pub fn answer_lines(
    alloc: Global,
    term: &[u8],
    counts: Counts,
    stuck: u32,
) -> Result<Vec<u8>, NoMemory>
    ensures { IfOk result (λ text. text.items ≡ answer_text term.now counts stuck) }
{
    let mut text = term_line(alloc, term)?;
    let lines = count_lines(alloc, counts, stuck)?;
    append(&mut text, &lines)?;
    Ok(text)
}

/// The nine lines of a run that ended: the interactions of each rule, and the pairs that are stuck.
pub fn count_lines(alloc: Global, counts: Counts, stuck: u32) -> Result<Vec<u8>, NoMemory>
    ensures { IfOk result (λ text. text.items ≡ counts_text counts stuck) }
{
    let mut text = Vec::new(alloc);
    add_count(alloc, &mut text, "beta", counts.beta)?;
    add_count(alloc, &mut text, "fan", counts.fan)?;
    add_count(alloc, &mut text, "croissant", counts.croissant)?;
    add_count(alloc, &mut text, "bracket", counts.bracket)?;
    add_count(alloc, &mut text, "cross-fan", counts.cross_fan)?;
    add_count(alloc, &mut text, "cross-croissant", counts.cross_croissant)?;
    add_count(alloc, &mut text, "cross-bracket", counts.cross_bracket)?;
    add_count(alloc, &mut text, "erase", counts.erase)?;
    add_count(alloc, &mut text, "stuck", stuck)?;
    Ok(text)
}

/// Appends some lines.
pub fn append(text: &mut Vec<u8>, lines: &[u8]) -> Result<(), NoMemory>
    ensures { OnOk result (text.new.items ≡ text.old.items ++ lines.now) }
{
    text.extend_from_slice(lines)?;
    Ok(())
}

/// A term's text and a line feed.
pub fn term_line(alloc: Global, term: &[u8]) -> Result<Vec<u8>, NoMemory>
    ensures { IfOk result (λ text. text.items ≡ line term.now) }
{
    let Ok(mut text) = Vec::from_slice(alloc, term) else {
        return Err(NoMemory);
    };
    let Ok(()) = text.push(10) else {
        return Err(NoMemory);
    };
    Ok(text)
}

/// A name, a space, a number and a line feed.
pub fn count_line(alloc: Global, name: &str, count: u32) -> Result<Vec<u8>, NoMemory>
    ensures { IfOk result (λ text. text.items ≡ count_line name.now count) }
{
    let mut text = Vec::new(alloc);
    add_count(alloc, &mut text, name, count)?;
    Ok(text)
}

/// Appends a name, a space, a number and a line feed.
pub fn add_count(alloc: Global, text: &mut Vec<u8>, name: &str, count: u32) -> Result<(), NoMemory>
    ensures { OnOk result (text.new.items ≡ text.old.items ++ count_line name.now count) }
{
    let Ok(line) = format!(in alloc; "{name} {count}\n") else {
        return Err(NoMemory);
    };
    match text.extend_from_slice(line.as_bytes()) {
        Ok(()) => Ok(()),
        Err(_) => Err(NoMemory),
    }
}
