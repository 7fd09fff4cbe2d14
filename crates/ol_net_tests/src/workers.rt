//! A small net that is swept, worked on by one worker, and worked on by several.

ghost use Rattle.std.specs.Prelude.{◌≡◌, ◌<◌, ◌≤◌, IfOk};
ghost use Rattle.ol_pool.specs.Pools.{IsHandOf as IsOfPool};
ghost use Rattle.ol_reduce.specs.Works.{IsSeated};
ghost use Rattle.ol_wire.specs.Stand.{IsNewSeat};

use crate::closing::alone;
use crate::small_nets::{Small, net_of};
use ol_io::OpenGate;
use ol_limits::{Fuel, Workers};
use ol_pool::{Hand, Pool};
use ol_reduce::{Counted, Reduced, Worker, reduce, reduce_counted, sweep, worker};
use ol_rules::counts;
use ol_wire::{Seat, Shared};
use std::alloc::Global;
use std::sync::Wait;
use std::test::Fail;
use std::thread::Threads;

/// How a sweep of one seat ends, and how many entries there are then.
fn swept(alloc: Global, fuel: u32) -> Result<String, Fail>
    requires { fuel ≤ 8000000 }
{
    let (table, mut seat) = alone(alloc, Small::Once, fuel)?;
    let end = sweep(&table, &mut seat);
    let events = table.close(seat).events();
    Ok(format!(in alloc; "{end:?} {events}")?)
}

/// The hand puts the first cell, if there is one.
fn put_first(pool: &Pool, hand: &mut Hand)
    requires { IsOfPool hand.old pool.now }
    ensures { IsOfPool hand.new pool.now }
{
    if 0 < pool.cells() {
        let _ = pool.put(hand, 0);
    }
}

/// A worker with a new seat of the table and a hand of the pool.
fn hired(table: &Shared, pool: &Pool, seat: Seat, hand: Hand) -> Worker
    requires seat { IsNewSeat table.now seat }
    requires hand { IsOfPool hand pool.now }
    ensures { IsSeated table.now result × IsOfPool result.hand pool.now }
{
    let number = hand.number();
    Worker::new(number, seat, hand)
}

/// How one worker ends whose hand has put the first cell, and how many entries there are then.
fn worked(rt: &impl Wait, alloc: Global, fuel: u32) -> Result<String, Fail>
    requires { fuel ≤ 8000000 }
{
    let (table, seat) = alone(alloc, Small::Once, fuel)?;
    let (pool, mut hands) = Pool::new(alloc, 1, table.cells())?;
    let mut hand = hands.pop().ok_or("a hand")?;
    put_first(&pool, &mut hand);
    let mut own = hired(&table, &pool, seat, hand);
    let end = worker(rt, &table, &pool, &mut own, &OpenGate);
    let events = table.close(own.into_seat()).events();
    Ok(format!(in alloc; "{end:?} {events}")?)
}

#[test]
fn one_ends_where_all_is_done_or_the_fuel_is(rt: HostRuntime) -> Result<(), Fail> {
    for (fuel, by_sweep, by_worker) in [
        (4, b"Clean 4".as_slice(), b"Quiet 4".as_slice()),
        (3, b"Spent 3".as_slice(), b"Spent 3".as_slice()),
    ] {
        let sweep = swept(rt.alloc(), fuel)?;
        let worker = worked(&rt, rt.alloc(), fuel)?;
        assert!(rt; sweep.as_bytes() == by_sweep && worker.as_bytes() == by_worker);
    }
    Ok(())
}

/// Of what is left how many nodes and stuck pairs there are, how many entries, and of which rules.
fn shown(alloc: Global, answer: &Reduced) -> Result<String, Fail> {
    match answer {
        Reduced::Done {
            net,
            journal,
            words,
        } => {
            let (nodes, stuck) = (net.nodes(), net.stuck());
            let (length, events) = (journal.len(), words.events());
            let counts = counts(journal);
            Ok(format!(in alloc; "{nodes} {stuck} {length} {events} {counts:?}")?)
        }
        Reduced::Spent { journal, words } => {
            let (length, events) = (journal.len(), words.events());
            Ok(format!(in alloc; "spent {length} {events}")?)
        }
    }
}

fn reduced(
    rt: &(impl Threads + Wait + Sync),
    alloc: Global,
    small: Small,
    workers: u32,
    fuel: u32,
) -> Result<String, Fail>
    requires fuel { fuel ≤ 8000000 }
    requires workers { (0 < workers) × (workers ≤ 64) }
{
    let net = net_of(alloc, small)?;
    let answer = reduce(rt, alloc, &net, workers, fuel, &OpenGate)?;
    let text = shown(alloc, &answer)?;
    Ok(text)
}

/// Four rewrites, each after another; 17, some side by side; a run without an end; and none.
#[test]
fn workers_share_a_net(rt: HostRuntime) -> Result<(), Fail> {
    for (small, fuel, wanted) in [
        (
            Small::Once,
            4,
            b"2 0 4 4 Counts { beta: 1, fan: 0, croissant: 1, bracket: 0, cross_fan: 0, \
            cross_croissant: 2, cross_bracket: 0, erase: 0 }"
                .as_slice(),
        ),
        (Small::Once, 3, b"spent 3 3".as_slice()),
        (
            Small::Twice,
            100,
            b"2 0 17 17 Counts { beta: 2, fan: 1, croissant: 3, bracket: 1, cross_fan: 2, \
            cross_croissant: 6, cross_bracket: 2, erase: 0 }"
                .as_slice(),
        ),
        (Small::Endless, 300, b"spent 300 300".as_slice()),
        (
            Small::Stuck,
            0,
            b"2 1 0 0 Counts { beta: 0, fan: 0, croissant: 0, bracket: 0, cross_fan: 0, \
            cross_croissant: 0, cross_bracket: 0, erase: 0 }"
                .as_slice(),
        ),
    ] {
        for workers in [1, 2, 64] {
            let text = reduced(&rt, rt.alloc(), small, workers, fuel)?;
            assert!(rt; text.as_bytes() == wanted, "{workers}: {text}");
        }
    }
    Ok(())
}

/// The same without a journal: of the net of (\x. x x) (\y. y).
fn counted(
    rt: &(impl Threads + Wait + Sync),
    alloc: Global,
    workers: Workers,
    fuel: Fuel,
) -> Result<String, Fail> {
    let net = net_of(alloc, Small::Twice)?;
    match reduce_counted(rt, alloc, &net, workers, fuel, &OpenGate)? {
        Counted::Done { net, counts, words } => {
            let (nodes, events) = (net.nodes(), words.events());
            Ok(format!(in alloc; "{nodes} {events} {counts:?}")?)
        }
        Counted::Spent { words } => {
            let events = words.events();
            Ok(format!(in alloc; "spent {events}")?)
        }
    }
}

#[test]
fn counts_come_in_place_of_the_journal(rt: HostRuntime) -> Result<(), Fail> {
    for (workers, fuel, wanted) in [
        (
            2,
            17,
            b"2 17 Counts { beta: 2, fan: 1, croissant: 3, bracket: 1, cross_fan: 2, \
            cross_croissant: 6, cross_bracket: 2, erase: 0 }"
                .as_slice(),
        ),
        (64, 16, b"spent 16".as_slice()),
    ] {
        let text = counted(&rt, rt.alloc(), Workers::of(workers), Fuel::of(fuel))?;
        assert!(rt; text.as_bytes() == wanted, "{workers}: {text}");
    }
    Ok(())
}
