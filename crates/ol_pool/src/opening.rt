//! A new pool: its deques and its hands.
ghost use Rattle.std.specs.Prelude.{◌≡◌, ℕ, ◌+◌, ◌-◌, ◌<◌, ◌≤◌, All, IfOk, OnOk, length, map, vec_len};
ghost use Rattle.crossbeam_deque.specs.Handles.{stealer_deque};
ghost use Rattle.ol_pool.specs.Deques.{opened, lends};
ghost use Rattle.ol_pool.specs.Owned.{AreOpen, AreRows, row_of, lends_one};
ghost use Rattle.ol_pool.specs.Pools.{IsHandOf, AreDealt};

use crate::deques::Thief;
use crate::hands::Hand;
use crate::own::Own;
use crate::pool::Pool;
use crate::reach::Reach;
use ol_limits::NoMemory;
use std::alloc::Global;

// So many open deques without a cell, from both sides.
fn open_all(alloc: Global, count: u32, bound: u32) -> Result<(Vec<Own>, Vec<Thief>), NoMemory>
    ensures owns { IfOk result (λ made. All (λ own. own.log ≡ opened bound) made.0.items) }
    ensures thieves { IfOk result (λ made.
        map (λ own. own.deque) made.0.items ≡ map (λ t. stealer_deque t) made.1.items) }
    ensures count { IfOk result (λ made. length made.1.items ≡ count) }
{
    let mut owns = Vec::new(alloc);
    let mut thieves = Vec::new(alloc);
    for _ in 0..count {
        let (own, thief) = Own::new(alloc, bound)?;
        owns.push(own)?;
        thieves.push(thief)?;
    }
    Ok((owns, thieves))
}

// So many places of a hand's table of access stay unused: it shares no cache line with another's.
const APART: usize = 8;

// Access for one hand to each deque.
fn lend_all(alloc: Global, pool: &Pool, owns: &mut Vec<Own>) -> Result<Vec<Reach>, NoMemory>
    requires some { All (λ own. (1 < own.log.parts) × (own.log.bound ≡ pool.now.cells))
        owns.old.items }
    requires deques { map (λ own. own.deque) owns.old.items ≡ pool.now.deques }
    ensures owns { OnOk result (owns.new.items ≡ map lends_one owns.old.items) }
    ensures row { IfOk result (λ made. made.items ≡ row_of pool.now) }
{
    let mut made = Vec::with_capacity(alloc, owns.len() + APART)?;
    for at in 0..owns.len() {
        let reach = owns[at].lend();
        made.push(reach)?;
    }
    Ok(made)
}

// Access for each hand to each deque.
fn lend_rows(alloc: Global, pool: &Pool, owns: &mut Vec<Own>) -> Result<Vec<Vec<Reach>>, NoMemory>
    requires few { pool.now.hands ≤ 64 }
    requires owns { AreOpen pool.now 0 owns.old.items }
    ensures owns { OnOk result (AreOpen pool.now pool.now.hands owns.new.items) }
    ensures rows { IfOk result (λ made. AreRows pool.now made.items) }
    ensures count { IfOk result (λ made. length made.items ≡ pool.now.hands) }
{
    let mut rows = Vec::new(alloc);
    for _ in 0..pool.hands() {
        let row = lend_all(alloc, pool, owns)?;
        rows.push(row)?;
    }
    Ok(rows)
}

// The hands of these deques, in their order.
fn deal(
    alloc: Global,
    pool: &Pool,
    mut owns: Vec<Own>,
    mut rows: Vec<Vec<Reach>>,
) -> Result<Vec<Hand>, NoMemory>
    requires hands { (length pool.now.deques ≡ pool.now.hands) × (pool.now.hands ≤ 64) }
    requires owns { AreOpen pool.now pool.now.hands owns.items }
    requires rows { AreRows pool.now rows.items × (length rows.items ≡ length owns.items) }
    ensures each { IfOk result (λ made. AreDealt pool.now made.items) }
    ensures count { IfOk result (λ made. vec_len made ≡ vec_len owns) }
{
    let mut hands = Vec::new(alloc);
    while let Some(own) = owns.pop() {
        let others = rows.pop().unwrap();
        let hand = Hand::new(owns.len() as u32, own, others);
        hands.push(hand)?;
    }
    hands.reverse();
    Ok(hands)
}

impl Pool {
    /// An empty pool for cells below `cells`, and its hands in the order of their numbers. Each
    /// deque has an initial capacity of 64 cells.
    ///
    /// `NoMemory`: no memory was found.
    pub fn new(alloc: Global, hands: u32, cells: u32) -> Result<(Pool, Vec<Hand>), NoMemory>
        requires some { 1 ≤ hands }
        requires few { hands ≤ 64 }
        ensures hands { IfOk result (λ made. made.0.hands ≡ hands) }
        ensures cells { IfOk result (λ made. made.0.cells ≡ cells) }
        ensures count { IfOk result (λ made. vec_len made.1 ≡ hands) }
        ensures each { IfOk result (λ made. AreDealt made.0 made.1.items) }
        ensures same_pool { IfOk result (λ made. All (λ hand. IsHandOf hand made.0) made.1.items) }
        ensures open { IfOk result (λ made. All (λ hand. hand.stage ≡ 2) made.1.items) }
    {
        let (mut owns, thieves) = open_all(alloc, hands, cells)?;
        let pool = Pool::of(thieves, hands, cells);
        let rows = lend_rows(alloc, &pool, &mut owns)?;
        let made = deal(alloc, &pool, owns, rows)?;
        Ok((pool, made))
    }
}
