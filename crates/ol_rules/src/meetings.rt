//! Which rules are annihilations.
ghost use Rattle.std.specs.Prelude.{◌≡◌};
ghost use Rattle.ol_rules.specs.Rewriting.{is_meeting};

use ol_net::Rule;

/// Whether the rule is β or an annihilation, which removes both nodes and joins their slots of
/// equal number. Every other rule is a commutation, which copies each node at the slots of the
/// other.
pub fn is_meeting(rule: Rule) -> bool
    ensures { result ≡ is_meeting rule }
{
    match rule {
        Rule::Beta => true,
        Rule::Fan => true,
        Rule::Croissant => true,
        Rule::Bracket => true,
        _ => false,
    }
}
