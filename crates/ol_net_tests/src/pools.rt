//! A search over parts that answer as they were told, and cells in a pool, which two threads share.
ghost use Rattle.std.specs.Prelude.{◌≡◌, ◌<◌, IfOk};
ghost use Rattle.ol_pool.specs.Looks.{HasCounts, Tells};
ghost use Rattle.ol_pool.specs.Pools.{IsHandOf};

use ol_pool::{Hand, Look, Pool, Seen, take_from};
use std::alloc::Global;
use std::marker::Model;
use std::test::Fail;
use std::thread;
use std::thread::Threads;

// One part, which gives what it is told to give.
#[derive(Drop)]
struct FakePart {
    given: Vec<u32>,
    empties: u64,
    agains: u64,
}

impl Model for FakePart {
    ghost use Rattle.std.specs.Prelude.{◌<◌, ◌^◌};
    ghost use Rattle.ol_pool.specs.Looks.{Part};

    ghost Value = { Part };

    ghost view = { λ s. record { given = s.given.items; empties = s.empties; agains = s.agains } };

    ghost invariant = { λ s. (s.empties < 2 ^ 64) × (s.agains < 2 ^ 64) };
}

impl FakePart {
    fn new(alloc: Global) -> FakePart {
        FakePart {
            given: Vec::new(alloc),
            empties: 0,
            agains: 0,
        }
    }

    // Law: its counts are of 64 bits.
    fn counts(&self)
        ensures { HasCounts self.now }
    {
        let _ = &self.given;
    }

    fn answer(&mut self, seen: Seen) -> Seen
        ensures { Tells result self.old self.new }
    {
        match seen {
            Seen::Cell(cell) => {
                if let Ok(()) = self.given.push(cell) {
                    return Seen::Cell(cell);
                }
                self.empties = self.empties.saturating_add(1);
                Seen::Empty
            }
            Seen::Empty => {
                self.empties = self.empties.saturating_add(1);
                Seen::Empty
            }
            Seen::Again => {
                self.agains = self.agains.saturating_add(1);
                Seen::Again
            }
        }
    }
}

// Three parts, the answers still to come, the last first, and the numbers of the parts that were looked at.
#[derive(Drop)]
struct Fake {
    zero: FakePart,
    one: FakePart,
    two: FakePart,
    answers: Vec<Seen>,
    looked: Vec<u32>,
}

impl Look for Fake {
    ghost use Rattle.std.specs.Prelude.{◌==◌, if◌then◌else◌, []};

    type Kept = ();

    ghost number = { λ s. 3 };

    ghost part = { λ s p. if p == 0 then s.zero else if p == 1 then s.one else if p == 2 then s.two else record { given = []; empties = 0; agains = 0 } };

    ghost kept = { λ s. tt };

    fn parts(&self) -> u32 {
        self.zero.counts();
        self.one.counts();
        self.two.counts();
        3
    }

    fn look(&mut self, at: u32) -> Seen {
        let _ = self.looked.push(at);
        let seen = self.answers.pop().unwrap_or(Seen::Empty);
        if at == 0 {
            self.zero.answer(seen)
        } else if at == 1 {
            self.one.answer(seen)
        } else {
            self.two.answer(seen)
        }
    }
}

fn told(alloc: Global, last: Seen) -> Result<Fake, Fail> {
    let mut answers = Vec::new(alloc);
    for seen in [last, Seen::Again, Seen::Again, Seen::Empty] {
        answers.push(seen)?;
    }
    Ok(Fake {
        zero: FakePart::new(alloc),
        one: FakePart::new(alloc),
        two: FakePart::new(alloc),
        answers,
        looked: Vec::new(alloc),
    })
}

// What a search gives, and which parts it looked at.
fn searched(alloc: Global, last: Seen) -> Result<String, Fail> {
    let mut looks = told(alloc, last)?;
    let taken = take_from(&mut looks, 0);
    let looked = looks.looked.as_slice();
    Ok(format!(in alloc; "{taken:?} {looked:?}")?)
}

/// A part that says again is looked at twice, and none comes after all parts.
#[test]
fn parts_are_searched(rt: HostRuntime) -> Result<(), Fail> {
    for (last, wanted) in [
        (Seen::Cell(5), b"Some(5) [0, 1, 1, 2]".as_slice()),
        (Seen::Empty, b"None [0, 1, 1, 2]".as_slice()),
    ] {
        let text = searched(rt.alloc(), last)?;
        assert!(rt; text.as_bytes() == wanted, "{text}");
    }
    Ok(())
}

// A pool of two hands.
fn pool_of_two(alloc: Global, cells: u32) -> Result<(Pool, Hand, Hand), Fail>
    ensures cells { IfOk result (λ made. made.0.cells ≡ cells) }
    ensures zero { IfOk result (λ made. IsHandOf made.1 made.0) }
    ensures one { IfOk result (λ made. IsHandOf made.2 made.0) }
{
    let (pool, mut hands) = Pool::new(alloc, 2, cells)?;
    let one = hands.pop().unwrap();
    let zero = hands.pop().unwrap();
    Ok((pool, zero, one))
}

// What the hands take before and after one of them puts three cells.
fn exchanged(pool: &Pool, zero: &mut Hand, one: &mut Hand) -> [Option<u32>; 5]
    requires cells { 7 < pool.now.cells }
    requires zero { IsHandOf zero.old pool.now }
    requires one { IsHandOf one.old pool.now }
{
    let missed = pool.take(one);
    let _ = pool.put(zero, 7);
    let _ = pool.put(zero, 3);
    let _ = pool.put(zero, 1);
    let other = pool.take(one);
    let own = pool.take(zero);
    let last = pool.take(one);
    let none = pool.take(zero);
    [missed, other, own, last, none]
}

// The same as a text, and what the pool and the hands tell then.
fn told_of_two(alloc: Global) -> Result<String, Fail> {
    let (pool, mut zero, mut one) = pool_of_two(alloc, 8)?;
    let taken = exchanged(&pool, &mut zero, &mut one);
    let (cells, hands) = (pool.cells(), pool.hands());
    let numbers = [zero.number(), one.number()];
    let missed = [zero.missed(), one.missed()];
    let refused = zero.refused();
    Ok(format!(in alloc; "{taken:?} {cells} {hands} {numbers:?} {missed:?} {refused}")?)
}

/// A hand takes what it put in order, and another hand takes of it too.
#[test]
fn cells_go_from_hand_to_hand(rt: HostRuntime) -> Result<(), Fail> {
    let text = told_of_two(rt.alloc())?;
    assert!(rt;
        text.as_bytes()
            == b"[None, Some(7), Some(3), Some(1), None] 8 2 [0, 1] [true, false] 0".as_slice(),
        "{text}"
    );
    Ok(())
}

// The sum of `cell + 1` over the cells that one hand takes until it misses.
fn take_all(pool: &Pool, hand: Hand) -> u32
    requires { IsHandOf hand pool.now }
{
    let mut hand = hand;
    let mut sum = 0u32;
    for _ in 0..1000u32 {
        let Some(cell) = pool.take(&mut hand) else {
            return sum;
        };
        sum = sum.saturating_add(cell).saturating_add(1);
    }
    sum
}

fn take_beside<R: Threads + Sync>(rt: &R, pool: &Pool, zero: Hand, one: Hand) -> u32
    requires zero { IsHandOf zero pool.now }
    requires one { IsHandOf one pool.now }
{
    let (some, other) = thread::join(
        rt,
        move ||
            requires { IsHandOf zero pool.now }
        { take_all(pool, zero) },
        move ||
            requires { IsHandOf one pool.now }
        { take_all(pool, one) },
    );
    some.saturating_add(other)
}

#[test]
fn two_threads_take_each_cell_once(rt: HostRuntime) -> Result<(), Fail> {
    let (pool, mut zero, one) = pool_of_two(rt.alloc(), 100)?;
    for cell in 0..100 {
        assert_eq!(rt; pool.put(&mut zero, cell), Ok(()));
    }
    assert_eq!(rt; take_beside(&rt, &pool, zero, one), 5050);
    Ok(())
}
