//! Parsing the parts of a trace's line.

ghost use Rattle.std.specs.Prelude.{◌≡◌, ◌≢◌, ℕ, ◌<◌, ◌≤◌, ◌∷◌, List, length, drop, IfSome, IfNone};
ghost use Rattle.ol_net.specs.declared.parts.Rule.{Rule};
ghost use Rattle.ol_rules.specs.declared.journal.NodeName.{NodeName};
ghost use Rattle.ol_view.specs.Checks.{HasNoLine};
ghost use Rattle.ol_view.specs.Standing.{BeginsWithNumber, BeginsWithName, BeginsWithRule, BeginsWithTold};

use crate::forms::Form;
use crate::line_reading;
use crate::line_reading::Line;
use ol_net::Rule;
use ol_rules::NodeName;

/// The number at a position of the text, and the position after it. A number is at most
/// 4,294,967,295, without leading zeros. `None`: there is no number at this position.
pub fn number_at(text: &[u8], at: usize) -> Option<(u32, usize)>
    requires { at ≤ length text.now }
    ensures found { IfSome result (λ r.
        BeginsWithNumber (drop at text.now) r.0 (drop r.1 text.now)) }
    ensures none { IfNone result ((n : ℕ) (rest : List ℕ) →
        BeginsWithNumber (drop at text.now) n rest → ⊥) }
    ensures place { IfSome result (λ r. (at < r.1) × (r.1 ≤ length text.now)) }
{
    line_reading::number_at(text, at)
}

/// The node name at a position of the text, and the position after it. `None`: there is no node
/// name at this position.
pub fn name_at(text: &[u8], at: usize) -> Option<(NodeName, usize)>
    requires { at ≤ length text.now }
    ensures found { IfSome result (λ r.
        BeginsWithName (drop at text.now) r.0 (drop r.1 text.now)) }
    ensures none { IfNone result ((name : NodeName) (rest : List ℕ) →
        BeginsWithName (drop at text.now) name rest → ⊥) }
    ensures place { IfSome result (λ r. (at < r.1) × (r.1 ≤ length text.now)) }
{
    line_reading::name_at(text, at)
}

/// The position after the byte `byte`. `None`: the byte at this position is another byte, or the
/// text ends there.
pub fn behind(text: &[u8], at: usize, byte: u8) -> Option<usize>
    requires { at ≤ length text.now }
    ensures found { IfSome result (λ to. drop at text.now ≡ byte ∷ drop to text.now) }
    ensures none { IfNone result ((rest : List ℕ) → drop at text.now ≢ byte ∷ rest) }
    ensures place { IfSome result (λ to. (at < to) × (to ≤ length text.now)) }
{
    line_reading::behind(text, at, byte)
}

/// The rule whose name is at a position of the text, and the position after it. `None`: there is no
/// rule's name at this position.
pub fn rule_at(text: &[u8], at: usize) -> Option<(Rule, usize)>
    requires { at ≤ length text.now }
    ensures found { IfSome result (λ r.
        BeginsWithRule (drop at text.now) r.0 (drop r.1 text.now)) }
    ensures none { IfNone result ((rule : Rule) (rest : List ℕ) →
        BeginsWithRule (drop at text.now) rule rest → ⊥) }
    ensures place { IfSome result (λ r. (at ≤ r.1) × (r.1 ≤ length text.now)) }
{
    line_reading::rule_at(text, at)
}

/// The line at a position of a text in this format. `None`: there is no line of the grammar at this
/// position.
pub fn line_at(form: Form, text: &[u8], at: usize) -> Option<Line>
    requires { at ≤ length text.now }
    ensures found { IfSome result (λ line.
        BeginsWithTold form (drop at text.now) line (drop line.next text.now)) }
    ensures none { IfNone result (HasNoLine form (drop at text.now)) }
    ensures place { IfSome result (λ line. (at < line.next) × (line.next ≤ length text.now)) }
{
    line_reading::line_at(form, text, at)
}
