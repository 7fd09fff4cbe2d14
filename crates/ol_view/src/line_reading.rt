//! Parsing a line of a trace's text, from its first byte.

ghost use Rattle.std.specs.Prelude.{◌≡◌, ◌<◌, ◌≤◌, length, drop, option_map, IfSome};
ghost use Rattle.ol_rules.specs.declared.journal.NodeName.{NodeName};
ghost use Rattle.ol_rules.specs.Names.{comes_before};
ghost use Rattle.ol_view.specs.LineReading.{front_number, front_name, behind, front_line, word_behind, front_rule, front_told, front_entry};

use crate::forms::Form;
use crate::wave_tracing::rule_word;
use ol_net::Rule;
use ol_rules::NodeName;

/// A line of a trace's text.
#[derive(Clone, Copy)]
pub struct Line {
    /// The rule and the wave, in format 2.
    pub told: Option<(Rule, u32)>,
    /// The smaller name, and the other name.
    pub first: NodeName,
    pub second: NodeName,
    /// The position after the line.
    pub next: usize,
}

/// All rules, in the order of their declaration.
pub const RULES: [Rule; 8] = [
    Rule::Beta,
    Rule::Fan,
    Rule::Croissant,
    Rule::Bracket,
    Rule::CrossFan,
    Rule::CrossCroissant,
    Rule::CrossBracket,
    Rule::Erase,
];

// The number at a place of the text, and the place behind it.
pub(crate) fn number_at(text: &[u8], at: usize) -> Option<(u32, usize)>
    requires { at ≤ length text.now }
    ensures read { front_number (drop at text.now)
        ≡ option_map (λ r. (r.0, drop r.1 text.now)) result }
    ensures place { IfSome result (λ r. (at < r.1) × (r.1 ≤ length text.now)) }
{
    if at == text.len() {
        return None;
    }
    let first = text[at];
    if first == b'0' {
        return Some((0, at + 1));
    }
    if !first.is_ascii_digit() {
        return None;
    }
    let mut number = (first - b'0') as u32;
    for to in at + 1..text.len() {
        let byte = text[to];
        if !byte.is_ascii_digit() {
            return Some((number, to));
        }
        let longer = number as u64 * 10 + (byte - b'0') as u64;
        if longer > 4_294_967_295 {
            return None;
        }
        number = longer as u32;
    }
    Some((number, text.len()))
}

// The name at a place of the text, and the place behind it.
pub(crate) fn name_at(text: &[u8], at: usize) -> Option<(NodeName, usize)>
    requires { at ≤ length text.now }
    ensures read { front_name (drop at text.now)
        ≡ option_map (λ r. (r.0, drop r.1 text.now)) result }
    ensures place { IfSome result (λ r. (at < r.1) × (r.1 ≤ length text.now)) }
{
    let (number, dot) = number_at(text, at)?;
    if dot == text.len() || text[dot] != b'.' {
        return Some((NodeName::Init(number), dot));
    }
    let to = dot + 1;
    if to == text.len() || text[to] < b'0' || text[to] > b'3' {
        return None;
    }
    let name = NodeName::Born {
        ticket: number,
        place: text[to] - b'0',
    };
    Some((name, to + 1))
}

// The place behind this byte.
pub(crate) fn behind(text: &[u8], at: usize, byte: u8) -> Option<usize>
    requires { at ≤ length text.now }
    ensures read { behind byte (drop at text.now) ≡ option_map (λ to. drop to text.now) result }
    ensures place { IfSome result (λ to. (at < to) × (to ≤ length text.now)) }
{
    if at < text.len() && text[at] == byte {
        Some(at + 1)
    } else {
        None
    }
}

fn comes_before(a: NodeName, b: NodeName) -> bool
    ensures { result ≡ comes_before a b }
{
    match (a, b) {
        (NodeName::Init(k), NodeName::Init(l)) => k < l,
        (NodeName::Init(_), NodeName::Born { .. }) => true,
        (NodeName::Born { .. }, NodeName::Init(_)) => false,
        (
            NodeName::Born { ticket, place },
            NodeName::Born {
                ticket: later,
                place: other,
            },
        ) => ticket < later || (ticket == later && place < other),
    }
}

// The place behind this word.
fn word_behind(text: &[u8], at: usize, word: &str) -> Option<usize>
    requires { at ≤ length text.now }
    ensures read { word_behind word.now (drop at text.now)
        ≡ option_map (λ to. drop to text.now) result }
    ensures place { IfSome result (λ to. (at ≤ to) × (to ≤ length text.now)) }
{
    if text[at..].starts_with(word.as_bytes()) {
        Some(at + word.len())
    } else {
        None
    }
}

// The rule of this name, and the place behind the name.
pub(crate) fn rule_at(text: &[u8], at: usize) -> Option<(Rule, usize)>
    requires { at ≤ length text.now }
    ensures read { front_rule (drop at text.now)
        ≡ option_map (λ r. (r.0, drop r.1 text.now)) result }
    ensures place { IfSome result (λ r. (at ≤ r.1) × (r.1 ≤ length text.now)) }
{
    for rule in RULES {
        if let Some(to) = word_behind(text, at, rule_word(rule)) {
            return Some((rule, to));
        }
    }
    None
}

// The rule and the wave that a line of this form begins with, and the place behind them.
fn told_at(form: Form, text: &[u8], at: usize) -> Option<(Option<(Rule, u32)>, usize)>
    requires { at ≤ length text.now }
    ensures read { front_told form (drop at text.now)
        ≡ option_map (λ r. (r.0, drop r.1 text.now)) result }
    ensures place { IfSome result (λ r. (at ≤ r.1) × (r.1 ≤ length text.now)) }
{
    match form {
        Form::One => Some((None, at)),
        Form::Two => {
            let (rule, space) = rule_at(text, at)?;
            let to = behind(text, space, b' ')?;
            let (wave, space) = number_at(text, to)?;
            let to = behind(text, space, b' ')?;
            Some((Some((rule, wave)), to))
        }
    }
}

// Two names, the smaller one first, and the place behind the line feed that follows.
fn pair_at(text: &[u8], at: usize) -> Option<(NodeName, NodeName, usize)>
    requires { at ≤ length text.now }
    ensures read { front_line (drop at text.now)
        ≡ option_map (λ r. (r.0, r.1, drop r.2 text.now)) result }
    ensures place { IfSome result (λ r. (at < r.2) × (r.2 ≤ length text.now)) }
{
    let (first, space) = name_at(text, at)?;
    let to = behind(text, space, b' ')?;
    let (second, end) = name_at(text, to)?;
    let next = behind(text, end, b'\n')?;
    if !comes_before(first, second) {
        return None;
    }
    Some((first, second, next))
}

// The line of this form at a place of the text. `None`: there is no line of the grammar.
pub(crate) fn line_at(form: Form, text: &[u8], at: usize) -> Option<Line>
    requires { at ≤ length text.now }
    ensures read { front_entry form (drop at text.now)
        ≡ option_map (λ l. (l.told, l.first, l.second, drop l.next text.now)) result }
    ensures place { IfSome result (λ l. (at < l.next) × (l.next ≤ length text.now)) }
{
    let (told, to) = told_at(form, text, at)?;
    let (first, second, next) = pair_at(text, to)?;
    Some(Line {
        told,
        first,
        second,
        next,
    })
}
