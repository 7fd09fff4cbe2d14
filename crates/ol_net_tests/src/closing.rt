//! Tables that are closed: which entries their words tell.

ghost use Rattle.std.specs.Prelude.{◌≡◌, ◌≤◌, IfOk};
ghost use Rattle.ol_wire.specs.Stand.{IsNewSeat, IsSeatOf};

use crate::small_nets::{Small, net_of};
use ol_wire::{Seat, Shared, Words};
use std::alloc::Global;
use std::test::Fail;

/// A table with one seat.
pub fn alone(alloc: Global, small: Small, fuel: u32) -> Result<(Shared, Seat), Fail>
    requires { fuel ≤ 8000000 }
    ensures { IfOk result (λ r. IsNewSeat r.0 r.1 × (r.0.plan.seats ≡ 1)) }
{
    let net = net_of(alloc, small)?;
    let (table, mut seats) = Shared::make(alloc, &net, fuel, 1)?;
    let seat = seats.pop().ok_or("a seat")?;
    Ok((table, seat))
}

/// A turn on each of these cells.
fn turns(table: &Shared, seat: &mut Seat, cells: &[u32])
    requires { IsSeatOf table.now seat.old }
    ensures table { IsSeatOf table.now seat.new }
    ensures holds { seat.new.view.holds ≡ seat.old.view.holds }
{
    for cell in cells {
        if *cell < table.cells() {
            table.turn(seat, *cell);
        }
    }
}

/// The words of a table with one seat, after a turn on each of these cells.
pub fn closed(alloc: Global, small: Small, fuel: u32, cells: &[u32]) -> Result<Words, Fail>
    requires { fuel ≤ 8000000 }
{
    let (table, mut seat) = alone(alloc, small, fuel)?;
    turns(&table, &mut seat, cells);
    Ok(table.close(seat))
}

/// The first five entries of the words, one a line.
fn entries(alloc: Global, words: &Words) -> Result<String, Fail> {
    let mut text = String::new(alloc);
    for k in 0..5u32 {
        let Some(entry) = words.journal(k) else {
            return Ok(text);
        };
        write!(text, "{entry:?}\n")?;
    }
    Ok(text)
}

/// The journal of four turns, and that of one where the fuel sufficed for more.
#[test]
fn words_tell_their_journal(rt: HostRuntime) -> Result<(), Fail> {
    for (small, fuel, cells, wanted) in [
        (
            Small::Once,
            4,
            [0, 2, 6, 9].as_slice(),
            b"Entry { rule: Beta, first: Init(0), second: Init(1) }\n\
            Entry { rule: CrossCroissant, first: Init(2), second: Init(3) }\n\
            Entry { rule: CrossCroissant, first: Init(4), second: Born { ticket: 1, place: 1 } }\n\
            Entry { rule: Croissant, first: Born { ticket: 1, place: 0 }, second: Born { ticket: 2, place: 0 } }\n"
                .as_slice(),
        ),
        (
            Small::Erasers,
            2,
            [0].as_slice(),
            b"Entry { rule: Erase, first: Init(0), second: Init(1) }\n".as_slice(),
        ),
    ] {
        let words = closed(rt.alloc(), small, fuel, cells)?;
        let text = entries(rt.alloc(), &words)?;
        assert!(rt; text.as_bytes() == wanted, "{text}");
    }
    Ok(())
}
