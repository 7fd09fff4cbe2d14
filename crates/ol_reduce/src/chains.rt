//! Chains of wires, as they are walked from a port that has a word.
ghost use Rattle.std.specs.Prelude.{◌≡◌, ℕ, Bool};
ghost use Rattle.ol_net.specs.Nets.{NamedNet};
ghost use Rattle.ol_rules.specs.declared.journal.NodeName.{NodeName};
ghost use Rattle.ol_wire.specs.Standing.{WordsStandFor};
ghost use Rattle.ol_reduce.specs.Following.{IsFirst, IsStart, EndsAt, EndsFrom};

use crate::reading::word_at;
use ol_wire::{Parts, Words, is_node, place_in};

/// Where a chain leads.
#[derive(Clone, Copy)]
pub(crate) enum Goal {
    /// To slot 0 of the node of this reference.
    Node(u64),
    /// To a free port, by number.
    Port(u32),
    /// To a wire whose word is empty, by place: a second chain leads there.
    Wire(u32),
}

/// Goes on from what a port's word holds, through the words of wires.
pub(crate) fn follow(words: &Words, parts: Parts, first: u64) -> Goal
    requires parts { parts ≡ words.now.plan.parts }
    requires first { IsFirst words.now first }
    ensures { EndsFrom words.now first result }
{
    let mut at = first;
    for step in 0..parts.size() {
        if is_node(at) {
            return Goal::Node(at);
        }
        let place = place_in(at);
        // The words of the free ports are those from word 2 on.
        let port = place - 2;
        if port < parts.free {
            return Goal::Port(port);
        }
        let next = word_at(words, place);
        if next == 0 {
            return Goal::Wire(place);
        }
        at = next;
    }
    unreachable!()
}
