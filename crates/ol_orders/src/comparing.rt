//! The command `same`: whether two nets are one up to the numbers of their nodes.

ghost use Rattle.std.specs.Prelude.{◌≡◌, ℕ, List, ◌+◌, ◌*◌, ◌<◌, ◌≤◌, ◌^◌, ◌++◌, ◌∷◌, [], length, codes, true, false, is_some, None, Some, slice_index_or, ◌↔◌, IfOk, OnOk, IfSome, IfNone};
ghost use Rattle.ol_net.specs.Graph.{kind_at, partner_of};
ghost use Rattle.ol_net.specs.Nets.{HasNode};
ghost use Rattle.ol_net.specs.Numbered.{net_of};
ghost use Rattle.ol_net.specs.PartTexts.{port_text};
ghost use Rattle.ol_net.specs.declared.parts.Kind.{Kind};
ghost use Rattle.ol_net.specs.declared.parts.NodeId.{NodeId};
ghost use Rattle.ol_net.specs.declared.parts.Port.TheVariants.{Free, Of};
ghost use Rattle.ol_orders.specs.Same.{
  pair_at,
  port_on,
  left_text,
  AreAlike,
  Meets,
  ReachAlike,
  node_words,
  partner_words,
  both_words,
  IsFirstAlone,
  IsComparison,
  IsSame,
};
ghost use Rattle.ol_orders.specs.Meetings.{met_by, Answers, TellPairs, AreTables, EachMet, Finds};
ghost use Rattle.ol_orders.specs.Walked.{HasWalked, SearchedFrom, SearchedAt};
ghost use Rattle.ol_limits.specs.Limits.{most_net_bytes};

use crate::reading::read_part;
use ol_limits::NoMemory;
use ol_net::{IndexOf, Kind, Net, NodeId, Port};
use ol_subjects::{Answer, End, NetRead, put, put_number, put_shown};
use std::alloc::Global;

// The pairs of nodes that have met, one of each net, in the order in which they did; and whom each
// node of the first net has met, and each of the second.
#[derive(Drop)]
pub struct Met {
    pub pairs: Vec<(u32, u32)>,
    pub there: Vec<Option<u32>>,
    pub back: Vec<Option<u32>>,
}

// What a search found.
#[derive(Clone, Copy, Debug, PartialEq, Eq)]
pub enum Tried {
    /// Names that take the one net to the other.
    One,
    /// That there are no such names.
    Apart,
    /// Nothing, since all tries were made.
    Spent,
}

// How often two nodes that no free port reaches are tried against each other.
const MOST_TRIES: u32 = 1_000;

// A table by which no node has met another.
fn nobody(alloc: Global, net: &Net) -> Result<Vec<Option<u32>>, NoMemory>
    ensures size { IfOk result (λ table. length table.items ≡ length net.now.nodes) }
    ensures none { IfOk result (λ table. (x : ℕ) → met_by table.items x ≡ None) }
{
    let mut table = Vec::new(alloc);
    table.resize(net.born() as usize, None)?;
    Ok(table)
}

// Whom a node has met.
fn met_by(table: &[Option<u32>], node: NodeId) -> Option<u32>
    ensures { result ≡ met_by table.now node.0 }
{
    let n = node.0 as usize;
    if n < table.len() { table[n] } else { None }
}

// Two nodes meet.
fn put_pair(met: &mut Met, x: NodeId, y: NodeId) -> Result<(), NoMemory>
    requires first { x.0 < length met.old.there.items }
    requires second { y.0 < length met.old.back.items }
    requires new_first { met_by met.old.there.items x.0 ≡ None }
    requires new_second { met_by met.old.back.items y.0 ≡ None }
    requires tables { TellPairs met.old.pairs.items met.old.there.items met.old.back.items }
    ensures pairs { OnOk result (met.new.pairs.items ≡ met.old.pairs.items ++ (x.0, y.0) ∷ []) }
    ensures tables { OnOk result
        (TellPairs met.new.pairs.items met.new.there.items met.new.back.items) }
    ensures there { length met.new.there.items ≡ length met.old.there.items }
    ensures back { length met.new.back.items ≡ length met.old.back.items }
{
    let Ok(()) = met.pairs.push((x.0, y.0)) else {
        return Err(NoMemory);
    };
    met.there[x.0 as usize] = Some(y.0);
    met.back[y.0 as usize] = Some(x.0);
    Ok(())
}

// Whether two nodes are of one kind and one index, or there is neither.
fn is_like(first: Option<(Kind, u32)>, second: Option<(Kind, u32)>) -> bool
    ensures { (result ≡ true) ↔ (first ≡ second) }
{
    match (first, second) {
        (None, None) => true,
        (Some((kind, index)), Some((other_kind, other_index))) => {
            kind == other_kind && index == other_index
        }
        _ => false,
    }
}

// Whether two nodes have met, or may meet now, as they then do.
fn meet(a: &Net, b: &Net, met: &mut Met, x: NodeId, y: NodeId) -> Result<bool, NoMemory>
    requires first { x.0 < length a.now.nodes }
    requires second { y.0 < length b.now.nodes }
    requires tables { AreTables a.now b.now met.old }
    ensures tables { OnOk result (AreTables a.now b.now met.new) }
    ensures told { IfOk result (λ ok.
        Answers (Meets a.now b.now met.old.pairs.items x.0 y.0) ok met.new.pairs.items) }
{
    if let Some(other) = met_by(&met.there, x) {
        return Ok(other == y.0);
    }
    if let Some(_) = met_by(&met.back, y) {
        return Ok(false);
    }
    if !is_like(a.kind_of(x), b.kind_of(y)) {
        return Ok(false);
    }
    put_pair(met, x, y)?;
    Ok(true)
}

// Whether two ports are alike. Their nodes meet, if they haven't yet.
fn match_ports(a: &Net, b: &Net, met: &mut Met, p: Port, q: Port) -> Result<bool, NoMemory>
    requires first { (x : NodeId) (s : ℕ) → p ≡ Of x s → x.0 < length a.now.nodes }
    requires second { (y : NodeId) (s : ℕ) → q ≡ Of y s → y.0 < length b.now.nodes }
    requires tables { AreTables a.now b.now met.old }
    ensures tables { OnOk result (AreTables a.now b.now met.new) }
    ensures told { IfOk result (λ ok.
        Answers (AreAlike a.now b.now met.old.pairs.items (Some p) (Some q)) ok met.new.pairs.items) }
{
    match p {
        Port::Free(k) => match q {
            Port::Free(l) => Ok(k == l),
            Port::Of { .. } => Ok(false),
        },
        Port::Of { node: x, slot: s } => match q {
            Port::Free(_) => Ok(false),
            Port::Of { node: y, slot: t } => {
                if s == t {
                    let ok = meet(a, b, met, x, y)?;
                    Ok(ok)
                } else {
                    Ok(false)
                }
            }
        },
    }
}

// Whether the partners of two ports are alike. Their nodes meet, if they haven't yet.
fn match_partners(a: &Net, b: &Net, met: &mut Met, p: Port, q: Port) -> Result<bool, NoMemory>
    requires tables { AreTables a.now b.now met.old }
    ensures tables { OnOk result (AreTables a.now b.now met.new) }
    ensures told { IfOk result (λ ok. Answers (AreAlike a.now b.now met.old.pairs.items
        (partner_of a.now p) (partner_of b.now q)) ok met.new.pairs.items) }
{
    a.is_tabled();
    b.is_tabled();
    match a.partner(p) {
        None => match b.partner(q) {
            None => Ok(true),
            Some(_) => Ok(false),
        },
        Some(p) => match b.partner(q) {
            None => Ok(false),
            Some(q) => {
                let ok = match_ports(a, b, met, p, q)?;
                Ok(ok)
            }
        },
    }
}

// The pair at which the walk is.
fn pair_at(free: u32, pairs: &[(u32, u32)], at: usize) -> (u32, u32)
    ensures { result ≡ pair_at free pairs.now at }
{
    let n = at.saturating_sub(free as usize) / 3;
    if n < pairs.len() { pairs[n] } else { (0, 0) }
}

// The port at a place, where the walk is at this node.
fn port_on(free: u32, node: u32, at: usize) -> Port
    ensures { result ≡ port_on free node at }
{
    if at < free as usize {
        return Port::Free(at as u32);
    }
    Port::Of {
        node: NodeId(node),
        slot: ((at - free as usize) % 3) as u8,
    }
}

// Walks on over two nets, from a place: the port of each net where they differ, or None where the
// walk came to its end.
fn walk(a: &Net, b: &Net, met: &mut Met, from: usize) -> Result<Option<(Port, Port)>, NoMemory>
    requires from { from ≤ a.now.free + 3 * length met.old.pairs.items }
    requires tables { AreTables a.now b.now met.old }
    ensures tables { OnOk result (AreTables a.now b.now met.new) }
    ensures found { IfOk result (λ p.
        Finds a.now b.now from met.old.pairs.items p met.new.pairs.items) }
{
    a.is_tabled();
    b.is_tabled();
    let free = a.free_ports();
    let mut at = from;
    while at < free as usize + 3 * met.pairs.len() {
        let (x, y) = pair_at(free, &met.pairs, at);
        let port = port_on(free, x, at);
        let other = port_on(free, y, at);
        if !match_partners(a, b, met, port, other)? {
            return Ok(Some((port, other)));
        }
        at += 1;
    }
    Ok(None)
}

// Whether the net has the node, and it has met none.
fn is_alone(net: &Net, table: &[Option<u32>], node: NodeId) -> bool
    ensures alone { result ≡ true → (met_by table.now node.0 ≡ None)
        × ((k : Kind) × (i : ℕ) × HasNode (net_of net.now) node.0 k i) }
    ensures not { result ≡ false → (k : Kind) (i : ℕ) → HasNode (net_of net.now) node.0 k i
        → (y : ℕ) × (met_by table.now node.0 ≡ Some y) }
{
    match net.kind_of(node) {
        None => false,
        Some(_) => match met_by(table, node) {
            None => true,
            Some(_) => false,
        },
    }
}

// The first node of a net that has met none.
fn first_alone(net: &Net, table: &[Option<u32>]) -> Option<NodeId>
    ensures alone { IfSome result (λ x. (met_by table.now x.0 ≡ None)
        × ((k : Kind) × (i : ℕ) × HasNode (net_of net.now) x.0 k i)) }
    ensures first { IfSome result (λ x. (z : ℕ) → z < x.0 → (k : Kind) (i : ℕ)
        → HasNode (net_of net.now) z k i → (y : ℕ) × (met_by table.now z ≡ Some y)) }
    ensures none { IfNone result (EachMet net.now table.now) }
{
    for n in 0..net.born() {
        if is_alone(net, table, NodeId(n)) {
            return Some(NodeId(n));
        }
    }
    None
}

impl Met {
    // No node has met another.
    fn new(alloc: Global, a: &Net, b: &Net) -> Result<Met, NoMemory>
        ensures tables { IfOk result (AreTables a.now b.now) }
        ensures none { IfOk result (λ met. met.pairs.items ≡ []) }
    {
        Ok(Met {
            pairs: Vec::new(alloc),
            there: nobody(alloc, a)?,
            back: nobody(alloc, b)?,
        })
    }

    fn copy(&self) -> Result<Met, NoMemory>
        ensures pairs { IfOk result (λ met. met.pairs.items ≡ self.now.pairs.items) }
        ensures there { IfOk result (λ met. met.there.items ≡ self.now.there.items) }
        ensures back { IfOk result (λ met. met.back.items ≡ self.now.back.items) }
    {
        Ok(Met {
            pairs: self.pairs.clone()?,
            there: self.there.clone()?,
            back: self.back.clone()?,
        })
    }
}

// Searches for names that take the first net to the second, and each node that has met one to that
// one: the first node that has met none is tried against each of the other net.
#[cycle(seeking)]
fn seek(alloc: Global, a: &Net, b: &Net, met: &Met, tries: &mut u32) -> Result<Tried, NoMemory>
    requires free { a.now.free ≡ b.now.free }
    requires tables { AreTables a.now b.now met.now }
    requires walked { HasWalked a.now b.now
        (a.now.free + 3 * length met.now.pairs.items) met.now.pairs.items }
    ensures found { IfOk result
        (SearchedFrom a.now b.now met.now.pairs.items tries.old tries.new) }
    ensures tries { tries.new ≤ tries.old }
{
    a.is_tabled();
    b.is_tabled();
    match first_alone(a, &met.there) {
        Some(x) => {
            let found = try_each(alloc, a, b, met, x, tries)?;
            Ok(found)
        }
        None => match first_alone(b, &met.back) {
            Some(_) => Ok(Tried::Apart),
            None => Ok(Tried::One),
        },
    }
}

// Tries a node against each of the other net.
#[cycle(seeking)]
fn try_each(
    alloc: Global,
    a: &Net,
    b: &Net,
    met: &Met,
    x: NodeId,
    tries: &mut u32,
) -> Result<Tried, NoMemory>
    requires free { a.now.free ≡ b.now.free }
    requires tables { AreTables a.now b.now met.now }
    requires walked { HasWalked a.now b.now
        (a.now.free + 3 * length met.now.pairs.items) met.now.pairs.items }
    requires alone { met_by met.now.there.items x.0 ≡ None }
    requires there { (k : Kind) × (i : ℕ) × HasNode (net_of a.now) x.0 k i }
    requires first { IsFirstAlone a.now met.now.pairs.items x.0 }
    ensures found { IfOk result
        (SearchedFrom a.now b.now met.now.pairs.items tries.old tries.new) }
    ensures tries { tries.new ≤ tries.old }
{
    a.is_tabled();
    b.is_tabled();
    for n in 0..b.born() {
        match try_pair(alloc, a, b, met, x, NodeId(n), tries)? {
            Tried::Apart => {}
            found => return Ok(found),
        }
    }
    Ok(Tried::Apart)
}

// Tries two nodes against each other.
#[cycle(seeking)]
fn try_pair(
    alloc: Global,
    a: &Net,
    b: &Net,
    met: &Met,
    x: NodeId,
    y: NodeId,
    tries: &mut u32,
) -> Result<Tried, NoMemory>
    requires free { a.now.free ≡ b.now.free }
    requires tables { AreTables a.now b.now met.now }
    requires walked { HasWalked a.now b.now
        (a.now.free + 3 * length met.now.pairs.items) met.now.pairs.items }
    requires alone { met_by met.now.there.items x.0 ≡ None }
    requires there { (k : Kind) × (i : ℕ) × HasNode (net_of a.now) x.0 k i }
    requires second { y.0 < length b.now.nodes }
    ensures found { IfOk result
        (SearchedAt a.now b.now met.now.pairs.items x.0 y.0 tries.old tries.new) }
    ensures tries { tries.new ≤ tries.old }
{
    a.is_tabled();
    b.is_tabled();
    if let Some(_) = met_by(&met.back, y) {
        return Ok(Tried::Apart);
    }
    if !is_like(a.kind_of(x), b.kind_of(y)) {
        return Ok(Tried::Apart);
    }
    if *tries == 0 {
        return Ok(Tried::Spent);
    }
    *tries -= 1;
    let from = a.free_ports() as usize + 3 * met.pairs.len();
    let mut more = met.copy()?;
    put_pair(&mut more, x, y)?;
    match walk(a, b, &mut more, from)? {
        Some(_) => Ok(Tried::Apart),
        None => {
            let found = seek(alloc, a, b, &more, tries)?;
            Ok(found)
        }
    }
}

// The answer of these words.
fn answer_of(alloc: Global, words: &[u8], end: End) -> Result<Answer, NoMemory>
    ensures text { IfOk result (λ x. x.text.items ≡ words.now) }
    ensures end { IfOk result (λ x. x.end ≡ end) }
{
    let mut text = Vec::new(alloc);
    put(&mut text, words)?;
    Ok(Answer { text, end })
}

// Appends what a port is joined to: a port, and behind a slot the kind and the index of its node.
fn put_partner(alloc: Global, text: &mut Vec<u8>, net: &Net, of: Port) -> Result<(), NoMemory>
    ensures { OnOk result (text.new.items
        ≡ text.old.items ++ partner_words net.now (partner_of net.now of)) }
{
    let Some(end) = net.partner(of) else {
        return put(text, b"nothing");
    };
    put_shown(alloc, text, &end)?;
    let Port::Of { node, .. } = end else {
        return Ok(());
    };
    put_node(alloc, text, net, node)
}

// Appends the kind and the index of a node.
fn put_node(alloc: Global, text: &mut Vec<u8>, net: &Net, node: NodeId) -> Result<(), NoMemory>
    ensures { OnOk result (text.new.items
        ≡ text.old.items ++ node_words (kind_at net.now.nodes node.0)) }
{
    let Some((kind, index)) = net.kind_of(node) else {
        return Ok(());
    };
    put(text, b" of ")?;
    put_shown(alloc, text, &kind)?;
    put(text, b" ")?;
    put_shown(alloc, text, &IndexOf { kind, index })
}

// Appends what two ports are joined to, one of each net.
fn put_both(
    alloc: Global,
    text: &mut Vec<u8>,
    a: &Net,
    b: &Net,
    ports: (Port, Port),
) -> Result<(), NoMemory>
    ensures { OnOk result (text.new.items
        ≡ text.old.items ++ both_words a.now b.now ports.0 ports.1) }
{
    put_partner(alloc, text, a, ports.0)?;
    put(text, b" here, ")?;
    put_partner(alloc, text, b, ports.1)?;
    put(text, b" there")
}

// The beginning of the line that two nets differ at this port.
fn difference(alloc: Global, port: Port) -> Result<Vec<u8>, NoMemory>
    ensures { IfOk result (λ text.
        text.items ≡ codes "different at " ++ port_text port ++ codes ": ") }
{
    let mut text = Vec::new(alloc);
    put(&mut text, b"different at ")?;
    put_shown(alloc, &mut text, &port)?;
    put(&mut text, b": ")?;
    Ok(text)
}

// The answer that only one net has this free port.
fn one_has(alloc: Global, port: u32, words: &[u8]) -> Result<Answer, NoMemory>
    ensures text { IfOk result (λ x. x.text.items
        ≡ codes "different at " ++ port_text (Free port) ++ codes ": " ++ words.now ++ codes "\n") }
    ensures no { IfOk result (λ x. x.end ≡ End.No) }
{
    let mut text = difference(alloc, Port::Free(port))?;
    put(&mut text, words)?;
    put(&mut text, b"\n")?;
    let end = End::No;
    Ok(Answer { text, end })
}

// The answer that two nets differ at these ports.
fn unlike(alloc: Global, a: &Net, b: &Net, ports: (Port, Port)) -> Result<Answer, NoMemory>
    ensures text { IfOk result (λ x. x.text.items ≡ codes "different at " ++ port_text ports.0
        ++ codes ": " ++ both_words a.now b.now ports.0 ports.1 ++ codes "\n") }
    ensures no { IfOk result (λ x. x.end ≡ End.No) }
{
    let mut text = difference(alloc, ports.0)?;
    put_both(alloc, &mut text, a, b, ports)?;
    put(&mut text, b"\n")?;
    let end = End::No;
    Ok(Answer { text, end })
}

// The answer that free ports don't reach all nodes.
fn left_answer(alloc: Global, a: &Net, b: &Net, met: u32) -> Result<Answer, NoMemory>
    ensures text { IfOk result (λ x. (pairs : List (ℕ × ℕ)) → length pairs ≡ met →
        x.text.items ≡ left_text a.now b.now pairs) }
    ensures no { IfOk result (λ x. x.end ≡ End.No) }
{
    let mut text = Vec::new(alloc);
    put(
        &mut text,
        b"undecided: equal from the free ports, which don't reach ",
    )?;
    put_number(alloc, &mut text, a.nodes().saturating_sub(met) as u64)?;
    put(&mut text, b" and ")?;
    put_number(alloc, &mut text, b.nodes().saturating_sub(met) as u64)?;
    put(&mut text, b" nodes\n")?;
    let end = End::No;
    Ok(Answer { text, end })
}

// The answer where all that free ports reach is alike.
fn compare_parts(alloc: Global, a: &Net, b: &Net, met: &Met) -> Result<Answer, NoMemory>
    requires tables { AreTables a.now b.now met.now }
    requires reach { ReachAlike a.now b.now met.now.pairs.items }
    ensures { IfOk result (λ x. IsComparison a.now b.now x.text.items x.end) }
{
    a.is_tabled();
    b.is_tabled();
    let mut tries = MOST_TRIES;
    match seek(alloc, a, b, met, &mut tries)? {
        Tried::One => {
            let answer = answer_of(alloc, b"same\n", End::Yes)?;
            Ok(answer)
        }
        Tried::Apart => {
            let answer = answer_of(
                alloc,
                b"different in parts that no free port reaches\n",
                End::No,
            )?;
            Ok(answer)
        }
        Tried::Spent => {
            let answer = left_answer(alloc, a, b, met.pairs.len() as u32)?;
            Ok(answer)
        }
    }
}

// The answer to two nets of as many free ports.
fn compare_walks(alloc: Global, a: &Net, b: &Net) -> Result<Answer, NoMemory>
    requires free { a.now.free ≡ b.now.free }
    ensures { IfOk result (λ x. IsComparison a.now b.now x.text.items x.end) }
{
    a.is_tabled();
    b.is_tabled();
    let mut met = Met::new(alloc, a, b)?;
    match walk(a, b, &mut met, 0)? {
        Some(ports) => {
            let answer = unlike(alloc, a, b, ports)?;
            Ok(answer)
        }
        None => {
            let answer = compare_parts(alloc, a, b, &met)?;
            Ok(answer)
        }
    }
}

// The answer to two nets.
fn compare(alloc: Global, a: &Net, b: &Net) -> Result<Answer, NoMemory>
    ensures { IfOk result (λ x. IsComparison a.now b.now x.text.items x.end) }
{
    let (first, second) = (a.free_ports(), b.free_ports());
    if first > second {
        let answer = one_has(alloc, second, b"only here")?;
        return Ok(answer);
    }
    if first < second {
        let answer = one_has(alloc, first, b"only there")?;
        return Ok(answer);
    }
    let answer = compare_walks(alloc, a, b)?;
    Ok(answer)
}

/// Whether two nets are one up to the numbers of their nodes. Each file has a net, in at most
/// 33,554,432 bytes. What stands before the first line `ol net 1` is passed over, as the counts and
/// the pairs that `ol net` writes before a last net. A traversal goes over both nets at once, from
/// the free ports, in their order: at each node that it comes to, its ports are next, behind those
/// of the nodes before.
///
/// - `Yes`: some renaming of nodes takes the one net to the other.
/// - `No`: none does, and the text names the first port, of the first net, whose partner is unlike
///   that of the other net's port at the same place of the traversal, with both partners: a free
///   port, or a port with the kind and the index of its node. Or it names the free port that one
///   net lacks, and says which net has it. Or all that free ports reach is alike, and the text says
///   that the other parts differ. Nodes of these parts are tried against one another, depth first.
///   The search gives up only where 1,000 tries are in vain and one more is wanted: then the text
///   has how many nodes of each net no free port reaches.
/// - `Refused`: `ol` refuses the net of the first file or else that of the second, by this line,
///   which counts lines from the line `ol net 1`.
///
/// `NoMemory`: no memory was found.
pub fn same(alloc: Global, first: &[u8], second: &[u8]) -> Result<Answer, NoMemory>
    requires short_first { length first.now ≤ most_net_bytes }
    requires short_second { length second.now ≤ most_net_bytes }
    ensures { IfOk result (λ x. IsSame first.now second.now x.text.items x.end) }
{
    let a = match read_part(alloc, first)? {
        NetRead::Net(net) => net,
        NetRead::Refused(text) => {
            let end = End::Refused;
            return Ok(Answer { text, end });
        }
    };
    let b = match read_part(alloc, second)? {
        NetRead::Net(net) => net,
        NetRead::Refused(text) => {
            let end = End::Refused;
            return Ok(Answer { text, end });
        }
    };
    a.is_tabled();
    b.is_tabled();
    let answer = compare(alloc, &a, &b)?;
    Ok(answer)
}
