//! What is handed to C, as olcheck.h declares it.

ghost use Rattle.std.specs.Prelude.{◌≡◌};
ghost use Rattle.ol_check_c.specs.Verdicts.{verdict, verdict_of, counts_told, no_counts};

use ol_explain::Finding;
use ol_rules::Counts;
use ol_view::Check;

/// What a trace is found to be, or why it isn't looked at. `word` tells which, and `number` the
/// number in the line of `ol check`, or 0.
#[repr(C)]
#[derive(Clone, Copy, Debug, PartialEq, Eq)]
pub struct Verdict {
    pub word: u32,
    pub number: u32,
}

/// How often each rule stands in a trace.
#[repr(C)]
#[derive(Clone, Copy, Debug, PartialEq, Eq)]
pub struct RuleCounts {
    pub beta: u32,
    pub fan: u32,
    pub croissant: u32,
    pub bracket: u32,
    pub cross_fan: u32,
    pub cross_croissant: u32,
    pub cross_bracket: u32,
    pub erase: u32,
}

/// A verdict of these two numbers.
pub fn verdict_with(word: u32, number: u32) -> Verdict
    ensures { result ≡ verdict word number }
{
    Verdict { word, number }
}

/// The verdict of what was checked.
pub fn verdict_of(finding: Finding) -> Verdict
    ensures { result ≡ verdict_of finding }
{
    match finding {
        Finding::Found(Check::Complete) => verdict_with(0, 0),
        Finding::Found(Check::Run { k }) => verdict_with(1, k),
        Finding::Found(Check::NotARun { line }) => verdict_with(2, line),
        Finding::Found(Check::BadText { line }) => verdict_with(3, line),
        Finding::Refused => verdict_with(4, 0),
    }
}

/// The counts, if there are some, or zeros.
pub fn counts_told(counts: Option<Counts>) -> RuleCounts
    ensures { result ≡ counts_told counts }
{
    let told = match counts {
        None => ol_rules::no_counts(),
        Some(told) => told,
    };
    RuleCounts {
        beta: told.beta,
        fan: told.fan,
        croissant: told.croissant,
        bracket: told.bracket,
        cross_fan: told.cross_fan,
        cross_croissant: told.cross_croissant,
        cross_bracket: told.cross_bracket,
        erase: told.erase,
    }
}

/// Zeros.
pub fn no_counts() -> RuleCounts
    ensures { result ≡ no_counts }
{
    counts_told(None)
}
