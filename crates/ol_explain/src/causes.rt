//! Why a line of a trace isn't one of a run.

ghost use Rattle.std.specs.Prelude.{
  ◌≡◌,
  ◌≢◌,
  ℕ,
  ◌≤◌,
  ◌<◌,
  ◌++◌,
  true,
  false,
  length,
  Some,
  string_bytes,
  slice_get,
  OnOk,
  IfOk,
  IfSome,
  IfNone,
};
ghost use Rattle.ol_net.specs.Nets.{slot, Linked};
ghost use Rattle.ol_rules.specs.declared.journal.Entry.{Entry};
ghost use Rattle.ol_view.specs.LineReading.{TellsOf};
ghost use Rattle.ol_orders.specs.Replays.{names_of, net_here, IsReplay};
ghost use Rattle.ol_explain.specs.Explained.{
  IsGone,
  Names,
  NoneNames,
  FacesCopy,
  FacesNoCopy,
  never_text,
  copy_text,
  link_text,
  cause_words,
};
ghost use Rattle.ol_explain.specs.Reasons.{
  IsReplayed,
  IsLive,
  IsNodeNamed,
  IsFaced,
  IsOtherCopy,
  NoCopies,
  IsCauseAway,
  IsCauseIdle,
  IsCauseOff,
  AreJoined,
};
ghost use Rattle.ol_limits.specs.Limits.{most_fuel, most_nodes};

use crate::joining::joined_after;
use crate::naming::{put, put_long, put_number};
use ol_diamond::Rewritten;
use ol_limits::NoMemory;
use ol_net::{Net, NodeId, Port, Rule};
use ol_orders::Replay;
use ol_rules::{Entry, Journal, NodeName};
use ol_view::{Line, put_name, rule_word};
use std::alloc::Global;

/// Why a line isn't the next one of a run.
#[derive(Clone, Copy)]
pub enum Cause {
    /// No entry so far could have made this node.
    NotBorn {
        name: NodeName,
    },
    /// This node went by that line.
    Gone {
        name: NodeName,
        line: u32,
    },
    /// This node is none of the net, and no line names it: there never was one.
    Never {
        name: NodeName,
    },
    /// The principal port of this node, which is one of the two, is joined to that of the node with
    /// this ticket and this place; the other one of the two is of the same ticket, and has another
    /// place.
    FacesCopy {
        name: NodeName,
        ticket: u32,
        place: u8,
    },
    /// The principal port of the first node is joined to this free port.
    FacesFree {
        port: u32,
    },
    /// The principal port of the first node is joined to this port, which isn't the principal port
    /// of the second one.
    FacesSlot {
        name: NodeName,
        slot: u8,
    },
    /// The two face each other, and no rule fits.
    NoRule,
    /// The pair is active by this rule.
    OtherRule {
        rule: Rule,
    },
    /// The pair is active in this wave, and its nodes are joined for the first time after so many
    /// entries.
    OtherWave {
        wave: u32,
        joined: u32,
    },
}

fn same_name(a: NodeName, b: NodeName) -> bool
    ensures same { result ≡ true → a ≡ b }
    ensures not { result ≡ false → a ≢ b }
{
    a == b
}

fn same_rule(a: Rule, b: Rule) -> bool
    ensures same { result ≡ true → a ≡ b }
    ensures not { result ≡ false → a ≢ b }
{
    a == b
}

// The number of an entry that names the node.
fn naming(journal: &Journal, name: NodeName) -> Option<u32>
    ensures named { IfSome result (λ m. (d : Entry)
        × (slice_get journal.now m ≡ Some d) × Names d name) }
    ensures below { IfSome result (λ m. m < length journal.now) }
    ensures none { IfNone result (NoneNames journal.now name) }
{
    for m in 0..journal.len() {
        let Some(entry) = journal.get(m) else {
            unreachable!()
        };
        if same_name(entry.first, name) {
            return Some(m);
        }
        if same_name(entry.second, name) {
            return Some(m);
        }
    }
    None
}

// The node of a name, if there is one.
fn live(replay: &Replay, name: NodeName) -> Option<NodeId>
    requires replay { IsReplayed replay.now }
    ensures there { IfSome result (IsNodeNamed replay.now name) }
    ensures gone { IfNone result (IsGone (net_here replay.now) name) }
{
    let Some(at) = replay.numbers.node_of(name) else {
        return None;
    };
    match replay.net.kind_of(at) {
        Some(_) => Some(at),
        None => None,
    }
}

// Why there is no node of this name.
fn away(replay: &Replay, name: NodeName) -> Cause
    requires few { length replay.now.run.journal ≤ most_fuel }
    requires gone { IsGone (net_here replay.now) name }
    ensures { IsCauseAway replay.now name result }
{
    if let NodeName::Born { ticket, .. } = name {
        if ticket >= replay.run.journal.len() {
            return Cause::NotBorn { name };
        }
    }
    match naming(&replay.run.journal, name) {
        Some(m) => Cause::Gone { name, line: m + 2 },
        None => Cause::Never { name },
    }
}

// The node whose principal port that of a node is joined to.
fn faced(replay: &Replay, x: NodeId) -> Option<NodeName>
    requires replay { IsReplayed replay.now }
    requires live { IsLive replay.now x }
    ensures { IsFaced replay.now x result }
{
    replay.net.is_net();
    match replay.net.partner(Port::Of { node: x, slot: 0 }) {
        Some(Port::Free(_)) => None,
        Some(Port::Of { node, slot }) => {
            if slot == 0 {
                let name = replay.run.names.name_of(node);
                return Some(name);
            }
            None
        }
        None => unreachable!(),
    }
}

// The ticket and the place of the first one, where the other is of the same ticket and has another
// place.
fn other_copy(faced: NodeName, named: NodeName) -> Option<(u32, u8)>
    ensures copy { IfSome result (λ c. IsOtherCopy faced named c.0 c.1) }
    ensures none { IfNone result ((ticket place : ℕ) → IsOtherCopy faced named ticket place → ⊥) }
{
    let NodeName::Born { ticket, place } = faced else {
        return None;
    };
    let NodeName::Born {
        ticket: same,
        place: other,
    } = named
    else {
        return None;
    };
    if same == ticket && other != place {
        return Some((ticket, place));
    }
    None
}

// The ticket and the place of the node that a node faces, where a name is of the same ticket and has
// another place.
fn copy_faced(replay: &Replay, x: NodeId, named: NodeName) -> Option<(u32, u8)>
    requires replay { IsReplayed replay.now }
    requires live { IsLive replay.now x }
    ensures copy { IfSome result (λ c.
        FacesCopy (net_here replay.now) (names_of replay.now x.0) named c.0 c.1) }
    ensures none { IfNone result
        (FacesNoCopy (net_here replay.now) (names_of replay.now x.0) named) }
{
    let Some(faced) = faced(replay, x) else {
        return None;
    };
    other_copy(faced, named)
}

// What the first of two nodes that are no active pair is joined to, or that no rule fits.
fn joined(replay: &Replay, x: NodeId, y: NodeId) -> Cause
    requires replay { IsReplayed replay.now }
    requires first { IsLive replay.now x }
    requires second { IsLive replay.now y }
    requires copies { NoCopies replay.now x y }
    ensures { IsCauseIdle replay.now x.0 y.0 result }
{
    replay.net.is_net();
    match replay.net.partner(Port::Of { node: x, slot: 0 }) {
        Some(Port::Free(port)) => Cause::FacesFree { port },
        Some(Port::Of { node, slot }) => {
            if slot == 0 && node.0 == y.0 {
                return Cause::NoRule;
            }
            let name = replay.run.names.name_of(node);
            Cause::FacesSlot { name, slot }
        }
        None => unreachable!(),
    }
}

// Why two nodes are no active pair.
fn idle(replay: &Replay, x: NodeId, y: NodeId) -> Cause
    requires replay { IsReplayed replay.now }
    requires first { IsLive replay.now x }
    requires second { IsLive replay.now y }
    ensures { IsCauseIdle replay.now x.0 y.0 result }
{
    let first = replay.run.names.name_of(x);
    let second = replay.run.names.name_of(y);
    if let Some((ticket, place)) = copy_faced(replay, x, second) {
        let name = first;
        return Cause::FacesCopy {
            name,
            ticket,
            place,
        };
    }
    if let Some((ticket, place)) = copy_faced(replay, y, first) {
        let name = second;
        return Cause::FacesCopy {
            name,
            ticket,
            place,
        };
    }
    joined(replay, x, y)
}

// Which of the two that a line tells is another.
fn other(
    alloc: Global,
    net: &Net,
    replay: &Replay,
    line: Line,
    of: Rewritten,
) -> Result<Cause, NoMemory>
    requires few { length net.now.nodes ≤ most_nodes }
    requires entries { length replay.now.run.journal ≤ most_fuel }
    requires replay { IsReplay net.now replay.now }
    requires joined { Linked (net_here replay.now) (slot line.first 0) (slot line.second 0) }
    requires wrong { TellsOf line.told of.rule of.wave → ⊥ }
    ensures { IfOk result (IsCauseOff net.now replay.now line (Some of)) }
{
    let Some((rule, _)) = line.told else {
        unreachable!()
    };
    if same_rule(rule, of.rule) {
        let wave = of.wave;
        let joined = joined_after(alloc, net, replay, line.first, line.second)?;
        return Ok(Cause::OtherWave { wave, joined });
    }
    let rule = of.rule;
    Ok(Cause::OtherRule { rule })
}

/// Why a line isn't the next one of a run from the net, of whose pair this was made. `NoMemory`: no
/// memory was found.
pub fn cause_of(
    alloc: Global,
    net: &Net,
    replay: &Replay,
    line: Line,
    made: Option<Rewritten>,
) -> Result<Cause, NoMemory>
    requires few { length net.now.nodes ≤ most_nodes }
    requires entries { length replay.now.run.journal ≤ most_fuel }
    requires replay { IsReplay net.now replay.now }
    requires joined { AreJoined replay.now line made }
    requires wrong { IfSome made (λ of. TellsOf line.told of.rule of.wave → ⊥) }
    ensures { IfOk result (IsCauseOff net.now replay.now line made) }
{
    if let Some(of) = made {
        let cause = other(alloc, net, replay, line, of)?;
        return Ok(cause);
    }
    let Some(x) = live(replay, line.first) else {
        return Ok(away(replay, line.first));
    };
    let Some(y) = live(replay, line.second) else {
        return Ok(away(replay, line.second));
    };
    Ok(idle(replay, x, y))
}

// Appends where a name that never was a node would have come from.
fn put_never(text: &mut String, name: NodeName) -> Result<(), NoMemory>
    ensures { OnOk result (string_bytes text.new ≡ string_bytes text.old ++ never_text name) }
{
    match name {
        NodeName::Init(k) => {
            put(text, "the net has no node ")?;
            put_number(text, k)
        }
        NodeName::Born { ticket, .. } => {
            put(text, "line ")?;
            put_long(text, ticket as u64 + 2)?;
            put(text, " created no ")?;
            put_name(text, name)
        }
    }
}

// Appends the name of a node, and why a node of the same line may be expected in its place.
fn put_copy(text: &mut String, ticket: u32, place: u8) -> Result<(), NoMemory>
    ensures { OnOk result (string_bytes text.new
        ≡ string_bytes text.old ++ copy_text ticket place) }
{
    put_name(text, NodeName::Born { ticket, place })?;
    put(text, ": line ")?;
    put_long(text, ticket as u64 + 2)?;
    put(
        text,
        " numbers its nodes otherwise, links are crossed, or the first net differs; see bisect",
    )
}

// Appends by which line a link came, and what it weighs.
fn put_link(text: &mut String, joined: u32, weight: u32) -> Result<(), NoMemory>
    ensures { OnOk result (string_bytes text.new
        ≡ string_bytes text.old ++ link_text joined weight) }
{
    if joined == 0 {
        put(text, "the first net has the link, of weight ")?;
        return put_number(text, weight);
    }
    put(text, "line ")?;
    put_long(text, joined as u64 + 1)?;
    put(text, " created the link, of weight ")?;
    put_number(text, weight)
}

/// Appends the words of a cause.
pub fn put_cause(
    text: &mut String,
    first: NodeName,
    second: NodeName,
    cause: Cause,
) -> Result<(), NoMemory>
    ensures { OnOk result (string_bytes text.new
        ≡ string_bytes text.old ++ cause_words first second cause) }
{
    match cause {
        Cause::NotBorn { name } => {
            put_name(text, name)?;
            put(text, " isn't created yet")
        }
        Cause::Gone { name, line } => {
            put_name(text, name)?;
            put(text, " is gone, by line ")?;
            put_number(text, line)
        }
        Cause::Never { name } => put_never(text, name),
        Cause::FacesCopy {
            name,
            ticket,
            place,
        } => {
            put_name(text, name)?;
            put(text, " is linked to ")?;
            put_copy(text, ticket, place)
        }
        Cause::FacesFree { port } => {
            put_name(text, first)?;
            put(text, " is linked to free port ")?;
            put_number(text, port)
        }
        Cause::FacesSlot { name, slot } => {
            put_name(text, first)?;
            put(text, " is linked to port ")?;
            put_number(text, slot as u32)?;
            put(text, " of ")?;
            put_name(text, name)
        }
        Cause::NoRule => {
            put_name(text, first)?;
            put(text, " and ")?;
            put_name(text, second)?;
            put(text, " have no rule")
        }
        Cause::OtherRule { rule } => {
            put(text, "the rule is ")?;
            put(text, rule_word(rule))
        }
        Cause::OtherWave { wave, joined } => {
            put(text, "the wave is ")?;
            put_number(text, wave)?;
            put(text, ": ")?;
            put_link(text, joined, wave.saturating_sub(1))
        }
    }
}
