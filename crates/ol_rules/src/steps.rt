//! A single interaction: the two nodes of an active pair are replaced by other nodes (Lamping, An
//! Algorithm for Optimal Lambda Calculus Reduction, POPL 1990).

ghost use Rattle.std.specs.Prelude.{◌≡◌, ℕ, ◌≤◌, ◌-◌, ◌+◌, ◌↔◌, length, Some, OnOk, OnErr, IfOk, Err};
ghost use Rattle.ol_net.specs.declared.parts.Rule.{Rule};
ghost use Rattle.ol_net.specs.declared.parts.Facing.TheVariants.{Active};
ghost use Rattle.ol_net.specs.Graph.{facing_at};
ghost use Rattle.ol_net.specs.Parts.{arity};
ghost use Rattle.ol_net.specs.Rules.{rule_of};
ghost use Rattle.ol_net.specs.Replace.{MayAllBeBorn};
ghost use Rattle.ol_rules.specs.Rewriting.{meeting, crossing};
ghost use Rattle.ol_rules.specs.BornLists.{born_of};
ghost use Rattle.ol_rules.specs.Actors.{IsFacing, FindsPair, action_in, IsRewritten};
ghost use Rattle.ol_rules.specs.Steps.{IsUnpaired, StepsAt};
ghost use Rattle.ol_rules.specs.declared.steps.StepFault.TheVariants.{NotActive};

use ol_limits::NoMemory;
use ol_net::{JoinEnd, Kind, Net, NodeId, Port, Rule, rule_of};

/// Why there was no interaction. The net is unchanged.
#[derive(Clone, Copy, Debug, PartialEq, Eq)]
pub enum StepFault {
    /// The node isn't in an active pair.
    NotActive,
    /// No memory was found for the created nodes.
    NoMemory,
}

/// An active pair: its rule, the node `f` that acts and the node `g` that it acts on, each with its
/// kind and index.
#[derive(Clone, Copy)]
struct Pair {
    rule: Rule,
    f: NodeId,
    g: NodeId,
    of_f: (Kind, u32),
    of_g: (Kind, u32),
}

fn born(place: u8, slot: u8) -> JoinEnd
    ensures { result ≡ JoinEnd.Born place slot }
{
    JoinEnd::Born { place, slot }
}

/// The active pair of a node, if it is in one.
fn active_pair(net: &Net, at: NodeId) -> Option<Pair>
    ensures { FindsPair net.now at result }
{
    let here = net.kind_of(at)?;
    let Some(Port::Of { node, slot: 0 }) = net.partner(Port::Of { node: at, slot: 0 }) else {
        return None;
    };
    let there = net.kind_of(node)?;
    if let Some(rule) = rule_of(here, there) {
        return Some(Pair {
            rule,
            f: at,
            g: node,
            of_f: here,
            of_g: there,
        });
    }
    let rule = rule_of(there, here)?;
    Some(Pair {
        rule,
        f: node,
        g: at,
        of_f: there,
        of_g: here,
    })
}

/// The two nodes go, and their slots of one number are joined.
fn meet(net: &mut Net, pair: Pair) -> Result<(), NoMemory>
    requires few { length net.old.nodes ≤ 2000000000 }
    requires pair { IsFacing net.old pair }
    requires alike { arity pair.of_f.0 ≡ arity pair.of_g.0 }
    requires some { 1 ≤ arity pair.of_f.0 }
    ensures replaced { OnOk result (IsRewritten meeting pair net.old net.new) }
    ensures refused { OnErr result (net.new ≡ net.old) }
{
    let (f, g) = (pair.f, pair.g);
    match pair.of_f.0.arity() {
        1 => net.replace(f, g, &[], &[(JoinEnd::First(1), JoinEnd::Second(1))]),
        _ => net.replace(
            f,
            g,
            &[],
            &[
                (JoinEnd::First(1), JoinEnd::Second(1)),
                (JoinEnd::First(2), JoinEnd::Second(2)),
            ],
        ),
    }
}

/// Copies of f, which has no auxiliary port, take the slots of g.
fn cross_with_none(net: &mut Net, pair: Pair, index: u32) -> Result<(), NoMemory>
    requires few { length net.old.nodes ≤ 2000000000 }
    requires pair { IsFacing net.old pair }
    requires indexes { MayAllBeBorn net.old.nodes (born_of (crossing index) pair.of_f pair.of_g) }
    requires none_of_f { arity pair.of_f.0 ≡ 0 }
    ensures replaced { OnOk result (IsRewritten (crossing index) pair net.old net.new) }
    ensures refused { OnErr result (net.new ≡ net.old) }
{
    let (f, g, of_f) = (pair.f, pair.g, pair.of_f);
    let first = (born(0, 0), JoinEnd::Second(1));
    let second = (born(1, 0), JoinEnd::Second(2));
    match pair.of_g.0.arity() {
        0 => net.replace(f, g, &[], &[]),
        1 => net.replace(f, g, &[of_f], &[first]),
        _ => net.replace(f, g, &[of_f, of_f], &[first, second]),
    }
}

/// f, which has one auxiliary port, and g cross. The copy of g has this index.
fn cross_with_one(net: &mut Net, pair: Pair, index: u32) -> Result<(), NoMemory>
    requires few { length net.old.nodes ≤ 2000000000 }
    requires pair { IsFacing net.old pair }
    requires indexes { MayAllBeBorn net.old.nodes (born_of (crossing index) pair.of_f pair.of_g) }
    requires one_of_f { arity pair.of_f.0 ≡ 1 }
    requires some_of_g { 1 ≤ arity pair.of_g.0 }
    ensures replaced { OnOk result (IsRewritten (crossing index) pair net.old net.new) }
    ensures refused { OnErr result (net.new ≡ net.old) }
{
    let (f, g, of_f) = (pair.f, pair.g, pair.of_f);
    let of_g = (pair.of_g.0, index);
    match of_g.0.arity() {
        1 => net.replace(
            f,
            g,
            &[of_f, of_g],
            &[
                (born(0, 0), JoinEnd::Second(1)),
                (born(1, 0), JoinEnd::First(1)),
                (born(0, 1), born(1, 1)),
            ],
        ),
        _ => net.replace(
            f,
            g,
            &[of_f, of_f, of_g],
            &[
                (born(0, 0), JoinEnd::Second(1)),
                (born(1, 0), JoinEnd::Second(2)),
                (born(2, 0), JoinEnd::First(1)),
                (born(0, 1), born(2, 1)),
                (born(1, 1), born(2, 2)),
            ],
        ),
    }
}

/// f, which has two auxiliary ports, and g cross. The copies of g have this index.
fn cross_with_two(net: &mut Net, pair: Pair, index: u32) -> Result<(), NoMemory>
    requires few { length net.old.nodes ≤ 2000000000 }
    requires pair { IsFacing net.old pair }
    requires indexes { MayAllBeBorn net.old.nodes (born_of (crossing index) pair.of_f pair.of_g) }
    requires two_of_f { arity pair.of_f.0 ≡ 2 }
    requires some_of_g { 1 ≤ arity pair.of_g.0 }
    ensures replaced { OnOk result (IsRewritten (crossing index) pair net.old net.new) }
    ensures refused { OnErr result (net.new ≡ net.old) }
{
    let (f, g, of_f) = (pair.f, pair.g, pair.of_f);
    let of_g = (pair.of_g.0, index);
    match of_g.0.arity() {
        1 => net.replace(
            f,
            g,
            &[of_f, of_g, of_g],
            &[
                (born(0, 0), JoinEnd::Second(1)),
                (born(1, 0), JoinEnd::First(1)),
                (born(2, 0), JoinEnd::First(2)),
                (born(0, 1), born(1, 1)),
                (born(0, 2), born(2, 1)),
            ],
        ),
        _ => net.replace(
            f,
            g,
            &[of_f, of_f, of_g, of_g],
            &[
                (born(0, 0), JoinEnd::Second(1)),
                (born(1, 0), JoinEnd::Second(2)),
                (born(2, 0), JoinEnd::First(1)),
                (born(3, 0), JoinEnd::First(2)),
                (born(0, 1), born(2, 1)),
                (born(0, 2), born(3, 1)),
                (born(1, 1), born(2, 2)),
                (born(1, 2), born(3, 2)),
            ],
        ),
    }
}

/// Rewrites an active pair by its rule.
fn rewrite(net: &mut Net, pair: Pair) -> Result<(), NoMemory>
    requires few { length net.old.nodes ≤ 2000000000 }
    requires pair { IsFacing net.old pair }
    requires fits { rule_of pair.of_f.0 pair.of_f.1 pair.of_g.0 pair.of_g.1 ≡ Some pair.rule }
    ensures replaced { OnOk result (IsRewritten (action_in pair) pair net.old net.new) }
    ensures refused { OnErr result (net.new ≡ net.old) }
{
    net.is_tabled();
    match pair.rule {
        Rule::Beta => meet(net, pair),
        Rule::Fan => meet(net, pair),
        Rule::Croissant => meet(net, pair),
        Rule::Bracket => meet(net, pair),
        Rule::Erase => cross_with_none(net, pair, pair.of_g.1),
        Rule::CrossFan => cross_with_two(net, pair, pair.of_g.1),
        Rule::CrossCroissant => cross_with_one(net, pair, pair.of_g.1 - 1),
        Rule::CrossBracket => cross_with_one(net, pair, pair.of_g.1 + 1),
    }
}

/// Rewrites the active pair that contains a node, and returns its rule. The rules `Beta`, `Fan`,
/// `Croissant` and `Bracket` remove both nodes and join their slots of equal number. Every other
/// rule creates a copy of the acting node at each auxiliary port of the other node, and then a copy
/// of the other node at each auxiliary port of the acting node; the copies get the next numbers in
/// this order. After an error the net is unchanged. `NotActive`: the node isn't in an active pair.
pub fn step(net: &mut Net, at: NodeId) -> Result<Rule, StepFault>
    requires few { length net.old.nodes ≤ 2000000000 }
    ensures steps { IfOk result (λ rule. StepsAt net.old net.new at.0 rule) }
    ensures active { IfOk result (λ rule. facing_at net.old at ≡ Active rule) }
    ensures not_active { result ≡ Err NotActive ↔ IsUnpaired net.old at }
    ensures refused { OnErr result (net.new ≡ net.old) }
{
    net.is_tabled();
    let Some(pair) = active_pair(net, at) else {
        return Err(StepFault::NotActive);
    };
    match rewrite(net, pair) {
        Ok(()) => Ok(pair.rule),
        Err(NoMemory) => Err(StepFault::NoMemory),
    }
}
