//! Two active pairs of a net, rewritten in both orders.

ghost use Rattle.std.specs.Prelude.{◌≡◌, ◌≢◌, ℕ, ◌≤◌, ◌+◌, ◌⊎◌, ◌↔◌, length, true, false, Err, IfOk};
ghost use Rattle.ol_net.specs.declared.parts.Rule.{Rule};
ghost use Rattle.ol_net.specs.Numbered.{net_of};
ghost use Rattle.ol_net.specs.Pairs.{IsInActive};
ghost use Rattle.ol_rules.specs.Steps.{StepsAt};
ghost use Rattle.ol_diamond.specs.Squares.{IsInNoActive, IsOneInNoActive, AreTogether, AreInOnePair, InTurn, IsSquare};
ghost use Rattle.ol_diamond.specs.declared.square.SquareFault.TheVariants.{NotActive, SamePair};

use ol_limits::NoMemory;
use ol_net::{Facing, Net, NodeId, Port, Rule};
use ol_rules::{StepFault, step};

/// The nets to which two active pairs lead in both orders, and the rules of the pairs, which are
/// the same in both orders.
#[derive(Drop)]
pub struct Square {
    /// The net after the pair of the first node, followed by the pair of the second node.
    pub ab: Net,
    /// The net after the pair of the second node, followed by the pair of the first node.
    pub ba: Net,
    /// The rule of the first node's pair.
    pub rule_a: Rule,
    /// The rule of the second node's pair.
    pub rule_b: Rule,
}

/// Why two nodes aren't in two different active pairs.
#[derive(Clone, Copy, Debug, PartialEq, Eq)]
pub enum SquareFault {
    /// At least one of the two nodes isn't in an active pair.
    NotActive,
    /// Both nodes are in the same active pair.
    SamePair,
    /// A memory allocation failed.
    NoMemory,
}

/// Rewrites the active pairs of two nodes in both orders, on two copies of the net.
///
/// Each pair is still active after the interaction of the other, with the same rule. The two nets
/// differ only in the numbers of the created nodes: in `ab` the nodes created by the pair of `a`
/// have the next numbers, followed by the nodes created by the pair of `b`; in `ba` it is the other
/// way round. If each created node is named by the two nodes of its interaction and its place, the
/// two nets are equal (Lafont, Interaction Nets, POPL 1990).
///
/// The net has given at most 1,999,999,000 numbers. `NotActive` and `SamePair` are returned exactly
/// if their descriptions apply. `NoMemory`: no memory was found.
pub fn two_orders(net: &Net, a: NodeId, b: NodeId) -> Result<Square, SquareFault>
    requires few { length net.now.nodes ≤ 1999999000 }
    ensures orders { IfOk result (IsSquare net.now a.0 b.0) }
    ensures not_active { result ≡ Err NotActive ↔ IsOneInNoActive net.now a.0 b.0 }
    ensures same_pair { result ≡ Err SamePair ↔ AreInOnePair net.now a.0 b.0 }
{
    net.is_net();
    if !is_active(net, a) || !is_active(net, b) {
        return Err(SquareFault::NotActive);
    }
    if are_together(net, a, b) {
        return Err(SquareFault::SamePair);
    }
    let Ok((ab, rule_a, rule_b)) = in_turn(net, a, b) else {
        return Err(SquareFault::NoMemory);
    };
    let Ok((ba, _, _)) = in_turn(net, b, a) else {
        return Err(SquareFault::NoMemory);
    };
    Ok(Square {
        ab,
        ba,
        rule_a,
        rule_b,
    })
}

/// Whether the node is in an active pair.
fn is_active(net: &Net, at: NodeId) -> bool
    ensures active { result ≡ true → (r : Rule) × IsInActive (net_of net.now) at.0 r }
    ensures idle { result ≡ false → IsInNoActive net.now at.0 }
{
    match net.facing(at) {
        Facing::Active(_) => true,
        Facing::Stuck => false,
        Facing::None => false,
    }
}

/// Whether the two are one node, or their principal ports are joined.
fn are_together(net: &Net, first: NodeId, second: NodeId) -> bool
    ensures { (result ≡ true) ↔ AreTogether net.now first.0 second.0 }
{
    net.is_net();
    if first.0 == second.0 {
        return true;
    }
    match net.partner(Port::Of {
        node: first,
        slot: 0,
    }) {
        Some(Port::Of { node, slot }) => slot == 0 && node.0 == second.0,
        Some(Port::Free(_)) => false,
        None => false,
    }
}

/// A copy of the net after the pair of the first node and then that of the second, and the rules of
/// the two pairs.
fn in_turn(net: &Net, first: NodeId, second: NodeId) -> Result<(Net, Rule, Rule), NoMemory>
    requires few { length net.now.nodes ≤ 1999999000 }
    requires first { (r : Rule) × IsInActive (net_of net.now) first.0 r }
    requires second { (r : Rule) × IsInActive (net_of net.now) second.0 r }
    requires two { AreTogether net.now first.0 second.0 → ⊥ }
    ensures turn { IfOk result (λ done. InTurn net.now first.0 second.0 done.1 done.2 done.0) }
    ensures first_rule { IfOk result (λ done. IsInActive (net_of net.now) first.0 done.1) }
    ensures second_rule { IfOk result (λ done. IsInActive (net_of net.now) second.0 done.2) }
{
    net.is_net();
    let mut after = net.copy()?;
    let first_rule = rewrite(&mut after, first)?;
    let second_rule = rewrite(&mut after, second)?;
    Ok((after, first_rule, second_rule))
}

/// Rewrites the active pair of a node.
fn rewrite(net: &mut Net, at: NodeId) -> Result<Rule, NoMemory>
    requires few { length net.old.nodes ≤ 2000000000 }
    requires active { (r : Rule) × IsInActive (net_of net.old) at.0 r }
    ensures steps { IfOk result (λ rule. StepsAt net.old net.new at.0 rule) }
    ensures rule { IfOk result (λ rule. IsInActive (net_of net.old) at.0 rule) }
{
    net.is_tabled();
    match step(net, at) {
        Ok(rule) => Ok(rule),
        Err(StepFault::NotActive) => unreachable!(),
        Err(StepFault::NoMemory) => Err(NoMemory),
    }
}
