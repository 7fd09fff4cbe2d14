//! The interaction of a ticket.
ghost use Rattle.std.specs.Prelude.{◌≡◌, ◌+◌, ◌*◌, ◌<◌, ◌≤◌, None, Some, MatchOption, IsTrue, IsFalse, slice_index};
ghost use Rattle.ol_net.specs.Rules.{rule_of};
ghost use Rattle.ol_rules.specs.Rewriting.{is_meeting, index_after};
ghost use Rattle.ol_wire.specs.References.{kind_in, index_in, place_in, top_index};
ghost use Rattle.ol_wire.specs.Events.{event_of, earlier, later, IsStuckPair};
ghost use Rattle.ol_wire.specs.Blocks.{copies_of_f, copies_of_g};
ghost use Rattle.ol_wire.specs.LinkLists.{joins_in};
ghost use Rattle.ol_wire.specs.Credit.{active_in};
ghost use Rattle.ol_wire.specs.Rewrites.{event_for, IsRewriteFor};

use crate::reference::{index_in, kind_in, place_in};
use ol_net::{Kind, Rule, rule_of};
use ol_rules::is_meeting;

/// The rewrite of two nodes, by their references. The one that acts comes first.
#[derive(Clone, Copy)]
pub(crate) struct Rewrite {
    pub(crate) rule: Rule,
    pub(crate) f: u64,
    pub(crate) g: u64,
}

/// The kind and the index of a node.
fn node_in(reference: u64) -> (Kind, u32)
    ensures { result ≡ (kind_in reference, index_in reference) }
{
    (kind_in(reference), index_in(reference))
}

/// Of two nodes that face each other, whether the first one acts, if one does. An eraser acts on
/// any node, and else the one of the lower index acts.
fn acts_first(one: (Kind, u32), two: (Kind, u32)) -> bool
    ensures one { IsTrue result → rule_of one.0 one.1 two.0 two.1 ≡ None
        → rule_of two.0 two.1 one.0 one.1 ≡ None }
    ensures two { IsFalse result → rule_of one.0 one.1 two.0 two.1 ≡ None }
{
    if one.0.is_eraser() {
        return true;
    }
    if two.0.is_eraser() {
        return false;
    }
    one.1 <= two.1
}

/// The rewrite of two nodes that face each other, whichever of them acts, if they have a rule.
#[inline(always)]
pub(crate) fn rewrite_of(left: u64, right: u64) -> Option<Rewrite>
    ensures { MatchOption result (IsStuckPair left right) (IsRewriteFor left right) }
{
    let one = node_in(left);
    let two = node_in(right);
    if acts_first(one, two) {
        return match rule_of(one, two) {
            Some(rule) => Some(Rewrite {
                rule,
                f: left,
                g: right,
            }),
            None => None,
        };
    }
    match rule_of(two, one) {
        Some(rule) => Some(Rewrite {
            rule,
            f: right,
            g: left,
        }),
        None => None,
    }
}

/// Whether a pair is active, as a number: 1 where one of its nodes has a rule with the other. Where
/// the left reference is empty there is no pair.
#[inline(always)]
pub(crate) fn active_in(left: u64, right: u64) -> u32
    ensures active { result ≡ active_in left right }
    ensures small { result ≤ 1 }
{
    if left == 0 {
        return 0;
    }
    let one = node_in(left);
    let two = node_in(right);
    let rule = if acts_first(one, two) {
        rule_of(one, two)
    } else {
        rule_of(two, one)
    };
    match rule {
        Some(_) => 1,
        None => 0,
    }
}

impl Rewrite {
    /// How many copies of f it makes.
    pub(crate) fn copies_of_f(self) -> u32
        ensures { result ≡ copies_of_f (event_for self) }
    {
        if is_meeting(self.rule) {
            0
        } else {
            kind_in(self.g).arity() as u32
        }
    }

    /// How many copies of g it makes.
    pub(crate) fn copies_of_g(self) -> u32
        ensures { result ≡ copies_of_g (event_for self) }
    {
        if is_meeting(self.rule) {
            0
        } else {
            kind_in(self.f).arity() as u32
        }
    }

    /// How many links it leaves to be made.
    pub(crate) fn joins(self) -> u32
        ensures { result ≡ joins_in (event_for self) }
    {
        if is_meeting(self.rule) {
            kind_in(self.f).arity() as u32
        } else {
            self.copies_of_f() + self.copies_of_g()
        }
    }

    /// The index of a copy of g.
    pub(crate) fn index_after(self) -> u32
        requires { index_in self.g < top_index }
        ensures { result ≡ index_after self.rule (index_in self.g) }
    {
        let index = index_in(self.g);
        match self.rule {
            Rule::CrossCroissant => index.saturating_sub(1),
            Rule::CrossBracket => index + 1,
            _ => index,
        }
    }

    /// The node of the smaller place.
    pub(crate) fn earlier(self) -> u64
        requires { (place_in self.f < 4294967296) × (place_in self.g < 4294967296) }
        ensures { result ≡ earlier self.f self.g }
    {
        if place_in(self.f) < place_in(self.g) {
            self.f
        } else {
            self.g
        }
    }

    /// The node of the greater place.
    pub(crate) fn later(self) -> u64
        requires { (place_in self.f < 4294967296) × (place_in self.g < 4294967296) }
        ensures { result ≡ later self.f self.g }
    {
        if place_in(self.f) < place_in(self.g) {
            self.g
        } else {
            self.f
        }
    }
}
