//! From seats to workers and back, and the work of all workers.
ghost use Rattle.std.specs.Prelude.{◌≡◌, ◌||◌, ◌<◌, ◌≤◌, All, IfOk, vec_len, length, is_some, count_by, true, false};
ghost use Rattle.ol_pool.specs.Pools.{AreDealt};
ghost use Rattle.ol_wire.specs.Layout.{cells_of};
ghost use Rattle.ol_wire.specs.Sizes.{IsSmallNet};
ghost use Rattle.ol_wire.specs.Stand.{IsNewSeat, IsSeatOf};
ghost use Rattle.ol_wire.specs.Starts.{AreParts};
ghost use Rattle.ol_reduce.specs.Started.{HasStarted};
ghost use Rattle.ol_reduce.specs.Works.{IsEnded, IsWorker, IsPadded};
ghost use Rattle.ol_wire.specs.Closed.{HasSettled};

use crate::answers::End;
use crate::workers::Worker;
use crate::working::{offer, worker};
use crossbeam_utils::CachePadded;
use ol_io::Gate;
use ol_limits::{Fuel, NoMemory, Workers};
use ol_net::Net;
use ol_pool::{Hand, Pool};
use ol_wire::{Seat, Shared, Words};
use std::alloc::Global;
use std::sync::Wait;
use std::thread;
use std::thread::Threads;

/// The closed words of a net that so many workers have rewritten, with at most `fuel` tickets, and
/// how their work ended: with `Quiet` where one of them ended so.
///
/// `NoMemory`: there was no memory for the words, the pool or the workers.
pub(crate) fn run_workers<R: Threads + Wait + Sync, G: Gate + Sync>(
    rt: &R,
    alloc: Global,
    net: &Net,
    workers: Workers,
    fuel: Fuel,
    gate: &G,
) -> Result<(Words, End), NoMemory>
    requires whole { count_by is_some net.now.nodes ≡ length net.now.nodes }
    requires small { IsSmallNet net.now }
    ensures parts { IfOk result (λ r. AreParts net.now fuel.most r.0.plan.parts) }
    ensures start { IfOk result (λ r. r.0.plan.start.value ≡ net.now) }
    ensures seats { IfOk result (λ r. r.0.plan.seats ≡ workers.count) }
    ensures quiet { IfOk result (λ r. r.1 ≡ End.Quiet → HasSettled r.0) }
    ensures spent { IfOk result (λ r. r.1 ≡ End.Spent → r.0.view.over ≡ true) }
{
    let (shared, seats) = Shared::make(alloc, net, fuel.most, workers.count)?;
    let (pool, mut hands) = Pool::new(alloc, workers.count, shared.cells())?;
    put_start(&pool, &mut hands, workers, shared.cells() - 4 * fuel.most);
    let mut hired = hire(alloc, &shared, &pool, seats, hands)?;
    run(
        rt,
        &shared,
        &pool,
        hired.as_mut_slice(),
        workers.count as usize,
        gate,
    );
    let (seat, end) = gather(&shared, hired);
    Ok((shared.close(seat), end))
}

// Puts the cells below `count` into the pool, each by the hand whose number is the remainder by the
// number of hands.
fn put_start(pool: &Pool, hands: &mut Vec<Hand>, workers: Workers, count: u32)
    requires hands { AreDealt pool.now hands.old.items }
    requires workers { (vec_len hands.old ≡ workers.count) × (pool.now.hands ≡ workers.count) }
    requires count { count ≤ pool.now.cells }
    ensures started { All (HasStarted pool.now count) hands.new.items }
    ensures workers { vec_len hands.new ≡ vec_len hands.old }
{
    for cell in 0..count {
        offer(pool, &mut hands[(cell % workers.count) as usize], cell);
    }
}

// A worker for each seat and each hand, with the number of its hand. No two share a cache line.
pub(crate) fn hire(
    alloc: Global,
    shared: &Shared,
    pool: &Pool,
    mut seats: Vec<Seat>,
    mut hands: Vec<Hand>,
) -> Result<Vec<CachePadded<Worker>>, NoMemory>
    requires seats { All (IsNewSeat shared.now) seats.items }
    requires hands { All (HasStarted pool.now shared.now.plan.parts.cells) hands.items }
    requires count { vec_len hands ≡ vec_len seats }
    ensures each { IfOk result (λ made. All (IsPadded (IsWorker shared.now pool.now)) made.items) }
    ensures count { IfOk result (λ made. vec_len made ≡ vec_len seats) }
{
    let mut workers = Vec::with_capacity(alloc, seats.len())?;
    while let Some(seat) = seats.pop() {
        let hand = hands.pop().unwrap();
        let number = hand.number();
        let worker = Worker::new(number, seat, hand);
        let padded = CachePadded::new(worker);
        workers.push(padded)?;
    }
    Ok(workers)
}

// One worker's part of the work.
fn work<R: Wait, G: Gate>(
    rt: &R,
    shared: &Shared,
    pool: &Pool,
    padded: &mut CachePadded<Worker>,
    gate: &G,
)
    requires worker { IsPadded (IsWorker shared.now pool.now) padded.old }
    requires cells { pool.now.cells ≡ cells_of shared.now.plan.parts }
    ensures ended { IsPadded (IsEnded shared.now) padded.new }
{
    let own: &mut Worker = &mut **padded;
    own.is_quiet = matches!(worker(rt, shared, pool, own, gate), End::Quiet);
}

// All workers work, in at most `count` threads.
fn run<R: Threads + Wait + Sync, G: Gate + Sync>(
    rt: &R,
    shared: &Shared,
    pool: &Pool,
    workers: &mut [CachePadded<Worker>],
    count: usize,
    gate: &G,
)
    requires workers { All (IsPadded (IsWorker shared.now pool.now)) workers.old }
    requires cells { pool.now.cells ≡ cells_of shared.now.plan.parts }
    requires count { 0 < count }
    ensures ended { All (IsPadded (IsEnded shared.now)) workers.new }
    ensures length { length workers.new ≡ length workers.old }
{
    thread::for_each_mut(
        rt,
        workers,
        count,
        &|_, padded| { work(rt, shared, pool, padded, gate) },
    );
}

// One seat of the seats of all workers, and how their work ended.
fn gather(shared: &Shared, mut workers: Vec<CachePadded<Worker>>) -> (Seat, End)
    requires workers { All (IsPadded (IsEnded shared.now)) workers.items }
    requires some { 0 < vec_len workers }
    ensures seat { IsSeatOf shared.now result.0 }
    ensures holds { result.0.view.holds ≡ vec_len workers }
    ensures quiet { result.1 ≡ End.Quiet → result.0.view.settled ≡ true }
    ensures spent { result.1 ≡ End.Spent → result.0.view.over ≡ true }
{
    let first = workers.pop().unwrap().into_inner();
    let mut is_quiet = first.is_quiet;
    let mut seat = first.into_seat();
    while let Some(padded) = workers.pop() {
        let other = padded.into_inner();
        let is_either = either(is_quiet, other.is_quiet);
        shared.join(&mut seat, other.into_seat());
        is_quiet = is_either;
    }
    (seat, end_of(is_quiet))
}

// Whether one of the two is true.
fn either(one: bool, other: bool) -> bool
    ensures { result ≡ (one || other) }
{
    one || other
}

// How the work of all ends where one of them ended with `Quiet`, or none.
fn end_of(is_quiet: bool) -> End
    ensures quiet { result ≡ End.Quiet → is_quiet ≡ true }
    ensures spent { result ≡ End.Spent → is_quiet ≡ false }
{
    if is_quiet { End::Quiet } else { End::Spent }
}
