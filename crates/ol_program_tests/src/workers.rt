//! Many workers, and gates that they pass.
use crate::fakes::told;
use ol_io::{Gate, OpenGate};
use std::alloc::Global;
use std::sync::Wait;
use std::sync::atomic::{AtomicU64, Ordering};
use std::test::Fail;
use std::thread::Threads;

/// The generator's sixth term: `((\x. x x) (\y. y))` six times doubled.
#[test]
fn any_number_of_workers_gives_one_text(rt: HostRuntime) -> Result<(), Fail> {
    let bare = b"Done 956\n\\a. a\nbeta 191\nfan 64\ncroissant 191\nbracket 0\ncross-fan 128\n\
        cross-croissant 382\ncross-bracket 0\nerase 0\nstuck 0\n"
        .as_slice();
    let boxed = b"Done 1340\n\\a. a\nbeta 191\nfan 64\ncroissant 255\nbracket 64\ncross-fan 128\n\
        cross-croissant 510\ncross-bracket 128\nerase 0\nstuck 0\n"
        .as_slice();
    for workers in [1, 2, 64] {
        for (options, wanted) in [
            ("--fuel 956", bare),
            ("--fuel 955", b"Spent 955\nfuel 955\n".as_slice()),
            ("--translation 1 --fuel 1340", boxed),
            (
                "--translation 1 --fuel 1339",
                b"Spent 1339\nfuel 1339\n".as_slice(),
            ),
        ] {
            let call = format!(in rt.alloc();
                "run {options} --workers {workers} - < ((\\x. x x) (\\y. y))^6"
            )?;
            let text = told(&rt, rt.alloc(), &call, &OpenGate)?;
            assert!(rt; text.as_slice() == wanted, "{call}");
        }
    }
    Ok(())
}

/// A flag for each of two workers.
#[derive(Drop)]
struct Flags {
    first: AtomicU64,
    second: AtomicU64,
}

impl Flags {
    fn lowered() -> Flags {
        Flags {
            first: AtomicU64::new(0),
            second: AtomicU64::new(0),
        }
    }

    /// Raises the worker's own flag, and looks for the other's. Tells whether it was seen.
    fn meet(&self, worker: u32) -> bool {
        let (own, other) = if worker == 0 {
            (&self.first, &self.second)
        } else {
            (&self.second, &self.first)
        };
        own.store(1, Ordering::SeqCst);
        for _look in 0..100_000_000u32 {
            if other.load(Ordering::SeqCst) == 1 {
                return true;
            }
        }
        false
    }
}

/// Two workers wait here for each other: before their first turns, and again after them.
#[derive(Drop)]
struct Meeting {
    before: Flags,
    after: Flags,
    met: AtomicU64,
}

impl Gate for Meeting {
    fn pass(&self, worker: u32, turn: u64) {
        let has_met = match turn {
            0 => self.before.meet(worker),
            1 => self.after.meet(worker),
            _ => return,
        };
        if has_met {
            self.met.fetch_add(1, Ordering::SeqCst);
        }
    }
}

// Were the workers to work one after the other, the second would not come while the first looks for
// it; and were one to make all turns, the other would not pass after a turn.
#[test]
fn two_workers_meet(rt: HostRuntime) -> Result<(), Fail> {
    let meeting = Meeting {
        before: Flags::lowered(),
        after: Flags::lowered(),
        met: AtomicU64::new(0),
    };
    told(
        &rt,
        rt.alloc(),
        "run --workers 2 - < ((\\x. x x) (\\y. y))^1",
        &meeting,
    )?;
    assert!(rt; meeting.met.load(Ordering::SeqCst) == 4);
    Ok(())
}

/// The numbers of the workers that passed, a bit each, how often one started, and the greatest
/// number of turns that one told.
#[derive(Drop)]
struct Numbers {
    seen: AtomicU64,
    starts: AtomicU64,
    turns: AtomicU64,
}

impl Gate for Numbers {
    fn pass(&self, worker: u32, turn: u64) {
        self.seen.fetch_or(1 << worker.min(63), Ordering::SeqCst);
        self.turns.fetch_max(turn, Ordering::SeqCst);
        if turn == 0 {
            self.starts.fetch_add(1, Ordering::SeqCst);
        }
    }
}

// What such a gate is told of a call, and whether one worker told so many turns.
fn passed(
    rt: &(impl Threads + Wait + Sync),
    alloc: Global,
    call: &str,
    turns: u64,
) -> Result<(u64, u64, bool), Fail> {
    let gate = Numbers {
        seen: AtomicU64::new(0),
        starts: AtomicU64::new(0),
        turns: AtomicU64::new(0),
    };
    told(rt, alloc, call, &gate)?;
    let seen = gate.seen.load(Ordering::SeqCst);
    let starts = gate.starts.load(Ordering::SeqCst);
    Ok((seen, starts, gate.turns.load(Ordering::SeqCst) >= turns))
}

/// As many workers are at work as the words say. `equal` rewrites twice. One worker tells its gate a
/// turn for each interaction at the least.
#[test]
fn each_worker_is_seen(rt: HostRuntime) -> Result<(), Fail> {
    let net = "net --workers 3 - < ol net 1|free 3|node bracket 0|node lam 1|link f0 0.1|\
        link f1 1.1|link f2 1.2|link 0.0 1.0|";
    for (call, turns, seen, starts) in [
        (net, 0, 0b111, 3),
        (
            "equal --workers 3 - j < (\\x. x x) (\\y. y) < (\\x. x x) (\\y. y)",
            0,
            0b111,
            6,
        ),
        ("certify --workers 3 - < (\\x. x x) (\\y. y)", 0, 0b111, 3),
        ("run --workers 1 - < ((\\x. x x) (\\y. y))^6", 956, 1, 1),
    ] {
        let passed = passed(&rt, rt.alloc(), call, turns)?;
        assert!(rt; passed == (seen, starts, true), "{call}");
    }
    Ok(())
}
