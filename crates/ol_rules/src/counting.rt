//! The number of interactions of each rule in a trace.

ghost use Rattle.std.specs.Prelude.{◌≡◌, []};
ghost use Rattle.ol_rules.specs.Counting.{counts_of};
ghost use Rattle.ol_rules.specs.Counted.{counted, HaveRoom};

use crate::journal::{Counts, Journal};
use ol_net::Rule;

/// The number of interactions of each rule in a trace, found in a single pass. Takes no memory.
pub fn counts(j: &Journal) -> Counts
    ensures { result ≡ counts_of j.now }
{
    let mut told = no_counts();
    for k in 0..j.len() {
        let entry = j.entry(k);
        told = counted(told, entry.rule);
    }
    told
}

/// The counts of an empty trace.
pub fn no_counts() -> Counts
    ensures { result ≡ counts_of [] }
{
    Counts {
        beta: 0,
        fan: 0,
        croissant: 0,
        bracket: 0,
        cross_fan: 0,
        cross_croissant: 0,
        cross_bracket: 0,
        erase: 0,
    }
}

/// The counts after a further interaction, which is by this rule.
pub fn counted(told: Counts, rule: Rule) -> Counts
    requires { HaveRoom told }
    ensures { result ≡ counted told rule }
{
    let mut more = told;
    match rule {
        Rule::Beta => more.beta = told.beta + 1,
        Rule::Fan => more.fan = told.fan + 1,
        Rule::Croissant => more.croissant = told.croissant + 1,
        Rule::Bracket => more.bracket = told.bracket + 1,
        Rule::CrossFan => more.cross_fan = told.cross_fan + 1,
        Rule::CrossCroissant => more.cross_croissant = told.cross_croissant + 1,
        Rule::CrossBracket => more.cross_bracket = told.cross_bracket + 1,
        Rule::Erase => more.erase = told.erase + 1,
    }
    more
}
