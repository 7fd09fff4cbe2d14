//! The loop of a worker: it takes cells from the pool and makes a turn on each; if no cell waits,
//! it checks whether the reduction is finished, and now and then makes turns on cells of its own
//! round over all cells.
ghost use Rattle.std.specs.Prelude.{◌≡◌, ◌==◌, ℕ, List, [], ◌∷◌, ◌+◌, ◌/◌, ◌%◌, ◌^◌, ◌<◌, ◌≤◌, true, false, None, Some, IsTrue, IsFalse};
ghost use Rattle.ol_pool.specs.Pools.{IsHandOf as IsOfPool};
ghost use Rattle.ol_wire.specs.Layout.{cells_of};
ghost use Rattle.ol_wire.specs.Stand.{IsSeatOf};
ghost use Rattle.ol_wire.specs.Turns.{masked};
ghost use Rattle.ol_reduce.specs.TurnEnds.{IsSpentTurn, IsOtherTurn};
ghost use Rattle.ol_reduce.specs.Worked.{HasWorkedToQuiet, HasWorkedToSpent};
ghost use Rattle.ol_reduce.specs.Working.{ClaimsGiven, PutsPublished, is_spent};
ghost use Rattle.ol_reduce.specs.Offered.{HasOffered};
ghost use Rattle.ol_reduce.specs.Passed.{GoesRound};
ghost use Rattle.ol_reduce.specs.Works.{IsAtWork, HasTurnedOn, HasKept, HasAsked, Goes, GoesOn};

use crate::answers::End;
use crate::workers::Worker;
use crossbeam_utils::Backoff;
use ol_io::Gate;
use ol_pool::{Hand, Pool};
use ol_wire::{Shared, Turn};
use std::sync::Wait;

/// Takes cells from the pool and makes a turn on each, up to the first turn that returns `Spent`.
/// If no cell waits, it calls `quiet`, and ends if that is true; otherwise it pauses and tries
/// again. Every 64th time it makes turns on the next 64 cells of its own round over all cells
/// before it calls `quiet`, in order to find a pair whose cell the pool refused. A cell in which a
/// turn published a pair is put into the pool. After a turn that returned `Spent` the pair is in
/// its cell again, and this cell is put into the pool too: the next worker that takes it finds that
/// the fuel is used up.
///
/// - `Spent` is returned only if the last turn returned `Spent`.
/// - `Quiet` is returned only if `quiet` was true for the worker's seat at the end of the call,
///   which `settled` shows, and its last `take` returned `None`, which `missed` of the hand shows.
///
/// The difference between the seat's view before and after the call is the turns and the loads of
/// the live word of this call: at most the last turn returned `Spent`, and at most the last load
/// read 0. The seat claimed each cell that its hand was given during the call, as often as it was
/// given. The hand put each cell in which the seat published a pair during the call, and after
/// `Spent` the cell of the last turn, except as many as `refused` of the hand rose by; this is
/// promised unless that count reaches its greatest value.
///
/// The gate is passed at the start with 0, and after each turn with the number of turns made, at
/// most 2^64 - 1. A cell for which the pool finds no memory isn't put, and its pair stays in the
/// cell.
pub fn worker<R: Wait, G: Gate>(
    rt: &R,
    shared: &Shared,
    pool: &Pool,
    own: &mut Worker,
    gate: &G,
) -> End
    requires seat { IsSeatOf shared.now own.old.seat }
    requires hand { IsOfPool own.old.hand pool.now }
    requires cells { pool.now.cells ≡ cells_of shared.now.plan.parts }
    ensures seat { IsSeatOf shared.now own.new.seat }
    ensures hand { IsOfPool own.new.hand pool.now }
    ensures number { own.new.number ≡ own.old.number }
    ensures holds { own.new.seat.view.holds ≡ own.old.seat.view.holds }
    ensures missed { result ≡ End.Quiet → own.new.hand.missed ≡ true }
    ensures settled { result ≡ End.Quiet → own.new.seat.view.settled ≡ true }
    ensures over { result ≡ End.Spent → own.new.seat.view.over ≡ true }
    ensures quiet { result ≡ End.Quiet → HasWorkedToQuiet shared.now own.old.seat own.new.seat }
    ensures spent { result ≡ End.Spent → HasWorkedToSpent shared.now own.old.seat own.new.seat }
    ensures claimed { ClaimsGiven own.old.seat own.old.hand own.new.seat own.new.hand }
    ensures put { PutsPublished own.old.seat own.old.hand (is_spent (Some result))
        own.new.seat own.new.hand }
{
    gate.pass(own.number, 0);
    let mut pace = Pace::new(own.number);
    for _ in rt.forever() {
        if let Some(end) = go_on(shared, pool, own, gate, &mut pace) {
            return end;
        }
    }
    unreachable!()
}

// How often a worker finds no cell until a part of its round is due.
const WAITS_A_ROUND: u32 = 64;

// How often in a row a worker without a cell pauses.
const PAUSES: u32 = 256;

// How far a worker is in its call: how many turns it made, how often no cell waited, where its
// round goes on, and how long it pauses.
#[derive(Drop)]
pub(crate) struct Pace {
    turns: u64,
    waits: u32,
    next: u32,
    pause: Backoff,
}

impl Pace {
    // Workers of different numbers begin their rounds far from each other: the numbers are spread
    // by a factor whose multiples are spread over all of u32.
    fn new(number: u32) -> Pace {
        Pace {
            turns: 0,
            waits: 0,
            next: number.wrapping_mul(0x9E37_79B9),
            pause: Backoff::new(),
        }
    }

    // Whether a part of the round is due where no cell waits.
    fn is_round_due(&mut self) -> bool {
        self.waits = self.waits.wrapping_add(1);
        self.waits % WAITS_A_ROUND == 0
    }

    // Pauses, so that one who has no cell seldom disturbs those who have.
    fn rest(&self) {
        for _ in 0..PAUSES {
            self.pause.snooze();
        }
    }

    // The next cell of the round over so many cells, which goes on at the cell behind it; behind the
    // last one comes the first.
    fn next_cell(&mut self, cells: u32) -> u32
        requires some { 0 < cells }
        ensures cell { result ≡ self.old.next % cells }
        ensures goes_on { self.new.next % cells ≡ (result + 1) % cells }
    {
        let cell = self.next % cells;
        self.next = cell + 1;
        cell
    }
}

// A turn on a cell that waits, or else, where no cell waits, a part of the round if it is due, and a
// look whether all is done.
fn go_on<G: Gate>(
    shared: &Shared,
    pool: &Pool,
    own: &mut Worker,
    gate: &G,
    pace: &mut Pace,
) -> Option<End>
    requires work { IsAtWork shared.now pool.now own.old }
    ensures kept { HasKept shared.now pool.now own.old (is_spent result) own.new }
    ensures goes { GoesOn shared.now own.old.seat result own.new }
{
    let Some(cell) = pool.take(&mut own.hand) else {
        return wait_on(shared, pool, own, gate, pace);
    };
    pace.pause.reset();
    if turn_on(shared, pool, own, gate, pace, cell) {
        return Some(End::Spent);
    }
    None
}

// What a worker does after a `take` that answered None.
fn wait_on<G: Gate>(
    shared: &Shared,
    pool: &Pool,
    own: &mut Worker,
    gate: &G,
    pace: &mut Pace,
) -> Option<End>
    requires work { IsAtWork shared.now pool.now own.old }
    requires missed { own.old.hand.missed ≡ true }
    ensures kept { HasKept shared.now pool.now own.old (is_spent result) own.new }
    ensures goes { GoesOn shared.now own.old.seat result own.new }
{
    if go_round_if_due(shared, pool, own, gate, pace) {
        return Some(End::Spent);
    }
    let end = ask(shared, own);
    pace.rest();
    end
}

// Makes a part of the round if it is due. Tells whether its last turn answered Spent.
fn go_round_if_due<G: Gate>(
    shared: &Shared,
    pool: &Pool,
    own: &mut Worker,
    gate: &G,
    pace: &mut Pace,
) -> bool
    requires work { IsAtWork shared.now pool.now own.old }
    ensures kept { HasKept shared.now pool.now own.old result own.new }
    ensures missed { own.new.hand.missed ≡ own.old.hand.missed }
    ensures goes { Goes shared.now own.old.seat result own.new.seat }
{
    if pace.is_round_due() {
        go_round(shared, pool, own, gate, pace)
    } else {
        false
    }
}

// Asks whether no active pair is left.
fn ask(shared: &Shared, own: &mut Worker) -> Option<End>
    requires seat { IsSeatOf shared.now own.old.seat }
    ensures seat { IsSeatOf shared.now own.new.seat }
    ensures number { own.new.number ≡ own.old.number }
    ensures hand { own.new.hand ≡ own.old.hand }
    ensures asked { HasAsked own.old.seat result own.new.seat }
{
    if shared.quiet(&mut own.seat) {
        Some(End::Quiet)
    } else {
        None
    }
}

// Makes turns on the next 64 cells of the worker's round over all cells, or on each of them where
// there are fewer, up to the first that answers Spent. Tells whether the last one did.
fn go_round<G: Gate>(
    shared: &Shared,
    pool: &Pool,
    own: &mut Worker,
    gate: &G,
    pace: &mut Pace,
) -> bool
    requires work { IsAtWork shared.now pool.now own.old }
    ensures kept { HasKept shared.now pool.now own.old result own.new }
    ensures missed { own.new.hand.missed ≡ own.old.hand.missed }
    ensures goes { Goes shared.now own.old.seat result own.new.seat }
    ensures passed { GoesRound (cells_of shared.now.plan.parts) pace.old.next pace.new.next
        own.old result own.new }
{
    let cells = shared.cells();
    for _passed in 0..cells.min(64) {
        let cell = pace.next_cell(cells);
        if turn_on(shared, pool, own, gate, pace, cell) {
            return true;
        }
    }
    false
}

// Makes a turn on a cell, and offers the cells in which it published a pair to the pool. Tells
// whether it answered Spent; its pair is active still then, and its cell is offered again.
fn turn_on<G: Gate>(
    shared: &Shared,
    pool: &Pool,
    own: &mut Worker,
    gate: &G,
    pace: &mut Pace,
    cell: u32,
) -> bool
    requires work { IsAtWork shared.now pool.now own.old }
    requires cell { cell < cells_of shared.now.plan.parts }
    ensures round { pace.new.next ≡ pace.old.next }
    ensures turned { HasTurnedOn shared.now own.old cell result own.new }
    ensures no { IsFalse result → IsOtherTurn shared.now own.old.seat.view cell own.new.seat.view }
    ensures yes { IsTrue result → IsSpentTurn shared.now own.old.seat.view cell own.new.seat.view }
{
    let turn = shared.turn(&mut own.seat, cell);
    pace.turns = pace.turns.saturating_add(1);
    gate.pass(own.number, pace.turns);
    match turn {
        Turn::Spent => {
            offer(pool, &mut own.hand, cell);
            true
        }
        Turn::Rewrote {
            ticket: _,
            rule: _,
            first_cell,
            mask,
        } => {
            offer_published(pool, &mut own.hand, first_cell, mask);
            false
        }
        _ => false,
    }
}

// Whether a bit is set in the mask.
fn is_set(mask: u8, bit: u32) -> bool
    requires { bit < 4 }
    ensures { result ≡ (mask / 2 ^ bit % 2 == 1) }
{
    (mask >> bit) % 2 == 1
}

// Offers a cell to the pool.
pub(crate) fn offer(pool: &Pool, hand: &mut Hand, cell: u32)
    requires hand { IsOfPool hand.old pool.now }
    requires cell { cell < pool.now.cells }
    ensures { HasOffered hand.old (cell ∷ []) hand.new }
{
    // One that no memory was found for is found by a round over all cells.
    let _ = pool.put(hand, cell);
}

// Offers a cell to the pool where the bit is set in the mask.
fn offer_bit(pool: &Pool, hand: &mut Hand, cell: u32, mask: u8, bit: u32)
    requires bit { bit < 4 }
    requires hand { IsOfPool hand.old pool.now }
    requires cell { cell < pool.now.cells }
    ensures set { (mask / 2 ^ bit % 2 == 1) ≡ true → HasOffered hand.old (cell ∷ []) hand.new }
    ensures clear { (mask / 2 ^ bit % 2 == 1) ≡ false → hand.new ≡ hand.old }
{
    if !is_set(mask, bit) {
        return;
    }
    offer(pool, hand, cell);
}

// Offers those of the four cells from `first_cell` on whose bit is set in the mask.
fn offer_published(pool: &Pool, hand: &mut Hand, first_cell: u32, mask: u8)
    requires hand { IsOfPool hand.old pool.now }
    requires cells { first_cell + 4 ≤ pool.now.cells }
    ensures { HasOffered hand.old (masked first_cell mask) hand.new }
{
    // The four are below the pool's bound, so none of them wraps.
    let bound = pool.cells();
    prove!(first_cell < bound);
    for bit in 0..4u32 {
        offer_bit(pool, hand, first_cell + bit, mask, bit);
    }
}
