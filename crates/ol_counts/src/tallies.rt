//! What a way of reducing comes to.

ghost use Rattle.std.specs.Prelude.{◌≡◌, ℕ, ◌<◌, ◌≤◌, ◌^◌, length, true, IfOk, IfSome};
ghost use Rattle.ol_net.specs.Numbered.{net_of};
ghost use Rattle.ol_net.specs.Pairs.{HasStuck};
ghost use Rattle.ol_term.specs.Trees.{tree_of, is_below, term_size};
ghost use Rattle.ol_limits.specs.Limits.{most_nodes};
ghost use Rattle.ol_counts.specs.Tallies.{is_read, net_tally, nothing, places_read, steps_tally, IsRunTally, IsDemandTally, IsFamilyTally, IsNeedTally, IsOrderTally, IsTally};
ghost use Rattle.ol_counts.specs.Tabled.{tree_in};

use crate::crossings::crossings;
use crate::need::steps_by_need;
use crate::ordered::steps_to_end;
use crate::ways::{Bounds, Way};
use ol_demand::{Demanded, demand};
use ol_families::{Count, families};
use ol_limits::{Fuel, Heads, MOST_DEPTH, MOST_SIZE, NoMemory};
use ol_net::Net;
use ol_readback::{ReadNode, ReadTree};
use ol_rules::{Counts, Ended, Journal, counts, run};
use ol_strategies::Order;
use ol_term::{Term, depth, size};
use std::alloc::Global;

/// The numbers of a way, and whether the way has ended. If a bound has cut the way, the numbers are
/// those up to the cut, and there may be more. A way that has nothing to count has ended.
#[derive(Clone, Copy)]
pub struct Tally {
    pub numbers: Numbers,
    pub ended: bool,
}

/// The readback of a normal form: how many subterms were read, and how many crossings the paths to
/// their heads have in the last net.
#[derive(Clone, Copy)]
pub struct Readback {
    pub places: u32,
    pub crossings: u64,
}

/// The numbers of a way.
#[derive(Clone, Copy)]
pub enum Numbers {
    /// A reduction of the net: how often each rule was applied, and how many stuck pairs the last net
    /// has. `read` is the readback of on-demand reduction, unless the fuel was exhausted.
    Net {
        counts: Counts,
        stuck: u32,
        read: Option<Readback>,
    },
    /// How many β-steps there are, or families.
    Steps(u32),
    /// Nothing to count: the way reduces a term and there is none, or reads back a net without a free
    /// port.
    Nothing,
}

// The tally of a run of a net with this journal, after which this net is left.
fn net_tally(journal: &Journal, last: &Net, read: Option<Readback>, ended: bool) -> Tally
    ensures { (stuck : ℕ) × HasStuck (net_of last.now) stuck
        × (result ≡ net_tally journal.now stuck read ended) }
{
    let counts = counts(journal);
    let stuck = last.stuck();
    Tally {
        numbers: Numbers::Net {
            counts,
            stuck,
            read,
        },
        ended,
    }
}

// The tally of a way that has nothing to count.
fn nothing() -> Tally
    ensures { result ≡ nothing }
{
    Tally {
        numbers: Numbers::Nothing,
        ended: true,
    }
}

// The run of one thread.
fn run_tally(alloc: Global, net: &Net, fuel: Fuel) -> Result<Tally, NoMemory>
    requires few { length net.now.nodes ≤ most_nodes }
    ensures { IfOk result (IsRunTally net.now fuel.most) }
{
    let mut last = net.copy()?;
    let ran = run(alloc, &mut last, fuel.most)?;
    match ran.ended {
        Ended::Spent => Ok(net_tally(&ran.journal, &last, None, false)),
        Ended::Done => Ok(net_tally(&ran.journal, &last, None, true)),
    }
}

fn is_read(node: ReadNode) -> bool
    ensures { result ≡ is_read node }
{
    !matches!(node, ReadNode::Cut)
}

// How many places of a tree aren't cut.
fn places_read(tree: &ReadTree) -> u32
    ensures { result ≡ places_read tree.now }
{
    let mut places: u32 = 0;
    for k in 0..tree.len() {
        let Some(node) = tree.get(k) else {
            unreachable!()
        };
        if is_read(node) {
            places += 1;
        }
    }
    places
}

// The run that reads the net back on demand.
fn demand_tally(alloc: Global, net: &Net, heads: Heads, fuel: Fuel) -> Result<Tally, NoMemory>
    requires few { length net.now.nodes ≤ most_nodes }
    ensures { IfOk result (IsDemandTally net.now heads.most fuel.most) }
{
    if net.free_ports() == 0 {
        return Ok(nothing());
    }
    let mut last = net.copy()?;
    let demanded = demand(alloc, &mut last, fuel.most, heads.most)?;
    match demanded {
        Demanded::Spent { journal } => Ok(net_tally(&journal, &last, None, false)),
        Demanded::Done { tree, journal } => {
            let places = places_read(&tree);
            let ended = places == tree.len();
            let crossings = crossings(alloc, &last, heads.most)?;
            let read = Some(Readback { places, crossings });
            Ok(net_tally(&journal, &last, read, ended))
        }
    }
}

// The tally of a way that has beta steps alone.
fn steps_tally(steps: Count) -> Tally
    ensures { result ≡ steps_tally steps.number steps.ended }
{
    Tally {
        numbers: Numbers::Steps(steps.number),
        ended: steps.ended,
    }
}

// The steps of an order of reduction.
fn order_tally(alloc: Global, order: Order, term: &Term, most: u32) -> Result<Tally, NoMemory>
    requires bound { is_below 0 (tree_of term.now) ≡ true }
    requires counted { term_size (tree_of term.now) < 2 ^ 64 }
    ensures { IfOk result (IsOrderTally order most (tree_of term.now)) }
{
    let steps = steps_to_end(alloc, order, term, most)?;
    Ok(steps_tally(steps))
}

// The steps of call-by-need.
fn need_tally(alloc: Global, term: &Term, moves: u32) -> Result<Tally, NoMemory>
    ensures { IfOk result (IsNeedTally moves (tree_of term.now)) }
{
    let steps = steps_by_need(alloc, term, moves)?;
    Ok(steps_tally(steps))
}

// The families of redexes that leftmost reduction contracts.
fn family_tally(alloc: Global, term: &Term, most: u32) -> Result<Tally, NoMemory>
    requires bound { is_below 0 (tree_of term.now) ≡ true }
    requires counted { term_size (tree_of term.now) < 2 ^ 64 }
    ensures { IfOk result (IsFamilyTally most (tree_of term.now)) }
{
    if size(term) > MOST_SIZE as u64 || depth(term) > MOST_DEPTH as u64 {
        return Ok(steps_tally(Count {
            number: 0,
            ended: false,
        }));
    }
    let steps = families(alloc, term, most)?;
    Ok(steps_tally(steps))
}

/// The tally of a way, of a net with its term, or of a net alone. `NoMemory`: no memory was found.
pub fn tally_of(
    alloc: Global,
    net: &Net,
    term: Option<&Term>,
    bounds: Bounds,
    way: Way,
) -> Result<Tally, NoMemory>
    requires few { length net.now.nodes ≤ most_nodes }
    requires bound { IfSome (tree_in term) (λ t. is_below 0 t ≡ true) }
    requires counted { IfSome (tree_in term) (λ t. term_size t < 2 ^ 64) }
    ensures { IfOk result (IsTally net.now (tree_in term.entry) bounds way) }
{
    match way {
        Way::Run => run_tally(alloc, net, bounds.fuel),
        Way::Demand => demand_tally(alloc, net, bounds.heads, bounds.fuel),
        Way::Leftmost => match term {
            Some(term) => order_tally(alloc, Order::Leftmost, term, bounds.steps),
            None => Ok(nothing()),
        },
        Way::Applicative => match term {
            Some(term) => order_tally(alloc, Order::Applicative, term, bounds.steps),
            None => Ok(nothing()),
        },
        Way::Need => match term {
            Some(term) => need_tally(alloc, term, bounds.moves),
            None => Ok(nothing()),
        },
        Way::Families => match term {
            Some(term) => family_tally(alloc, term, bounds.steps),
            None => Ok(nothing()),
        },
    }
}
