//! The parts of a net: kinds, node numbers, ports and rules.

ghost use Rattle.std.specs.Prelude.{◌≡◌};
ghost use Rattle.ol_net.specs.Parts.{arity, slots_of, is_eraser};
ghost use Rattle.ol_net.specs.Rules.{facing_of_pair, rule_of, by_index, crossed, met, either};

/// The kinds of nodes of a sharing graph (Lamping, POPL 1990; Asperti and Guerrini, The Optimal
/// Implementation of Functional Programming Languages, 1998).
///
/// Slot 0 of a node is its principal port; slots 1 and 2 are its auxiliary ports.
#[derive(Clone, Copy, Debug, PartialEq, Eq)]
pub enum Kind {
    /// Abstraction: slot 0 is the abstraction itself, slot 1 its body, slot 2 its variable.
    Lam,
    /// Application: slot 0 is its function, slot 1 its result, slot 2 its argument.
    App,
    /// Fan: shares the part of the net at slot 0 between the two occurrences at slots 1 and 2.
    Fan,
    /// Croissant: a path that traverses it from slot 1 to slot 0 gains a level.
    Croissant,
    /// Bracket: on a path that traverses it from slot 1 to slot 0, two levels become a single
    /// level.
    Bracket,
    /// Eraser: the end of a part of the net that isn't used. It has slot 0 only.
    Eraser,
}

/// The number of a node. Nodes are numbered from 0 in the order of their creation, and no number is
/// given twice.
#[derive(Clone, Copy, Debug, PartialEq, Eq)]
pub struct NodeId(pub u32);

/// A port of a net.
#[derive(Clone, Copy, Debug, PartialEq, Eq)]
pub enum Port {
    /// The free port with this number, from 0.
    Free(u32),
    /// A port of a node, by its slot: slot 0 is the principal port, slots 1 and 2 are auxiliary
    /// ports.
    Of { node: NodeId, slot: u8 },
}

/// The rules of interaction, for two nodes that are linked by their principal ports.
#[derive(Clone, Copy, Debug, PartialEq, Eq)]
pub enum Rule {
    /// An application and an abstraction of equal index.
    Beta,
    /// Two fans of equal index: annihilation.
    Fan,
    /// Two croissants of equal index: annihilation.
    Croissant,
    /// Two brackets of equal index: annihilation.
    Bracket,
    /// A fan and a node of a greater index, which isn't an eraser: commutation.
    CrossFan,
    /// A croissant and a node of a greater index, which isn't an eraser: commutation.
    CrossCroissant,
    /// A bracket and a node of a greater index, which isn't an eraser: commutation.
    CrossBracket,
    /// An eraser and any node.
    Erase,
}

/// What a node and the node linked to its principal port by its own principal port are to each
/// other.
#[derive(Clone, Copy, Debug, PartialEq, Eq)]
pub enum Facing {
    /// An active pair: the two nodes have this rule.
    Active(Rule),
    /// A stuck pair: the two nodes have no rule.
    Stuck,
    /// There is no such node, or no principal port is linked to its principal port.
    None,
}

/// Why parts aren't a net, in the order of the checks.
#[derive(Clone, Copy, Debug, PartialEq, Eq)]
pub enum BuildFault {
    /// The first node whose index exceeds the greatest index allowed (`build`: 1,000,000;
    /// `build_to`: its `top`), or that is an eraser with an index other than 0. Nodes are numbered
    /// from 0 in the given order.
    BadIndex { node: u32 },
    /// The first link that names a port which doesn't exist. Links are numbered from 0 in the given
    /// order.
    BadPort { link: u32 },
    /// The first link with a port of an earlier link, or with the same port at both ends.
    Twice { link: u32 },
    /// The first port in no link, in this order: free ports by number, and then the ports of nodes
    /// by the node's number and the slot.
    Loose { port: Port },
    /// A memory allocation failed.
    NoMemory,
}

/// An end of a join in a replacement: a slot of a removed node or of a new node.
#[derive(Clone, Copy, Debug, PartialEq, Eq)]
pub enum JoinEnd {
    /// A slot of the first removed node.
    First(u8),
    /// A slot of the second removed node.
    Second(u8),
    /// A slot of the new node at this place, from 0, in the list of new nodes.
    Born { place: u8, slot: u8 },
}

impl Kind {
    /// The number of ports, including the principal port.
    pub fn slots(self) -> u8
        ensures { result ≡ slots_of self }
    {
        match self {
            Kind::Lam => 3,
            Kind::App => 3,
            Kind::Fan => 3,
            Kind::Croissant => 2,
            Kind::Bracket => 2,
            Kind::Eraser => 1,
        }
    }

    /// The number of auxiliary ports, which are slots 1 to `arity`.
    pub fn arity(self) -> u8
        ensures { result ≡ arity self }
    {
        self.slots() - 1
    }

    /// Whether the node is an eraser.
    pub fn is_eraser(self) -> bool
        ensures { result ≡ is_eraser self }
    {
        match self {
            Kind::Eraser => true,
            _ => false,
        }
    }
}

/// What two nodes, linked by their principal ports, are to each other.
pub fn facing_of(first: (Kind, u32), second: (Kind, u32)) -> Facing
    ensures { result ≡ facing_of_pair first second }
{
    match rule_of(first, second) {
        Some(rule) => Facing::Active(rule),
        None => match rule_of(second, first) {
            Some(rule) => Facing::Active(rule),
            None => Facing::Stuck,
        },
    }
}

/// The rule by which `acting` acts on `other`, or `None` if it doesn't act on `other`. An eraser
/// acts on every node, and no other kind acts on an eraser. A fan, a croissant or a bracket acts on
/// a node of a greater index. Nodes of equal index act on each other exactly if they are an
/// application and an abstraction, two fans, two croissants or two brackets.
pub fn rule_of(acting: (Kind, u32), other: (Kind, u32)) -> Option<Rule>
    ensures { result ≡ rule_of acting.0 acting.1 other.0 other.1 }
{
    if acting.0.is_eraser() {
        return Some(Rule::Erase);
    }
    if other.0.is_eraser() || other.1 < acting.1 {
        return None;
    }
    if acting.1 < other.1 {
        crossed(acting.0)
    } else {
        met(acting.0, other.0)
    }
}

// The lower one of two nodes crosses the other.
fn crossed(lower: Kind) -> Option<Rule>
    ensures { result ≡ crossed lower }
{
    match lower {
        Kind::Fan => Some(Rule::CrossFan),
        Kind::Croissant => Some(Rule::CrossCroissant),
        Kind::Bracket => Some(Rule::CrossBracket),
        _ => None,
    }
}

// Two nodes of one index.
fn met(first: Kind, second: Kind) -> Option<Rule>
    ensures { result ≡ met first second }
{
    match (first, second) {
        (Kind::App, Kind::Lam) => Some(Rule::Beta),
        (Kind::Lam, Kind::App) => Some(Rule::Beta),
        (Kind::Fan, Kind::Fan) => Some(Rule::Fan),
        (Kind::Croissant, Kind::Croissant) => Some(Rule::Croissant),
        (Kind::Bracket, Kind::Bracket) => Some(Rule::Bracket),
        _ => None,
    }
}
