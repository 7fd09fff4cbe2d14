//! Turns on small nets, row by row.

ghost use Rattle.std.specs.Prelude.{◌≡◌, ◌<◌, ◌≤◌, IfOk};
ghost use Rattle.ol_wire.specs.Stand.{IsNewSeat, IsSeatOf};

use crate::closing::alone;
use crate::small_nets::{Small, net_of};
use ol_wire::{Seat, Shared, Turn};
use std::alloc::Global;
use std::test::Fail;

/// A turn, if there is such a cell.
fn turn(table: &Shared, seat: &mut Seat, cell: u32) -> Option<Turn>
    requires { IsSeatOf table.now seat.old }
    ensures table { IsSeatOf table.now seat.new }
    ensures holds { seat.new.view.holds ≡ seat.old.view.holds }
{
    if cell < table.cells() {
        Some(table.turn(seat, cell))
    } else {
        None
    }
}

/// What turns on these cells come to, each with whether no active pair is left then.
fn turned(alloc: Global, table: &Shared, seat: &mut Seat, cells: &[u32]) -> Result<String, Fail>
    requires { IsSeatOf table.now seat.old }
    ensures { IsSeatOf table.now seat.new }
{
    let mut text = String::new(alloc);
    for cell in cells {
        let turn = turn(table, seat, *cell);
        let quiet = table.quiet(seat);
        write!(text, "{turn:?} {quiet}\n")?;
    }
    Ok(text)
}

/// The cells, what turns on them come to, and how many entries there are at the end.
fn told(alloc: Global, small: Small, fuel: u32, cells: &[u32]) -> Result<String, Fail>
    requires { fuel ≤ 8000000 }
{
    let (table, mut seat) = alone(alloc, small, fuel)?;
    let mut text = turned(alloc, &table, &mut seat, cells)?;
    let events = table.events(&mut seat);
    let cells = table.cells();
    let seats = table.seats();
    write!(text, "{events} of {cells} {seats}")?;
    Ok(text)
}

/// A cell that is empty by then, the fuel that is spent, and a pair that stays.
#[test]
fn turns_are_told(rt: HostRuntime) -> Result<(), Fail> {
    for (small, fuel, cells, wanted) in [
        (
            Small::Once,
            4,
            [0, 0, 2, 6, 9].as_slice(),
            b"Some(Rewrote { ticket: 0, rule: Beta, first_cell: 1, mask: 2 }) false\n\
            Some(Gone) false\n\
            Some(Rewrote { ticket: 1, rule: CrossCroissant, first_cell: 5, mask: 2 }) false\n\
            Some(Rewrote { ticket: 2, rule: CrossCroissant, first_cell: 9, mask: 1 }) false\n\
            Some(Rewrote { ticket: 3, rule: Croissant, first_cell: 13, mask: 0 }) true\n\
            4 of 17 1"
                .as_slice(),
        ),
        (
            Small::Once,
            1,
            [0, 2, 2].as_slice(),
            b"Some(Rewrote { ticket: 0, rule: Beta, first_cell: 1, mask: 2 }) false\n\
            Some(Spent) false\nSome(Spent) false\n1 of 5 1"
                .as_slice(),
        ),
        (
            Small::Stuck,
            4,
            [0, 0].as_slice(),
            b"Some(Stuck) true\nSome(Stuck) true\n0 of 17 1".as_slice(),
        ),
    ] {
        let text = told(rt.alloc(), small, fuel, cells)?;
        assert!(rt; text.as_bytes() == wanted, "{text}");
    }
    Ok(())
}

/// What turns of two seats at one table come to: the second finds the first cell empty, and takes one
/// that the first has published.
fn two_turn(table: &Shared, first: &mut Seat, second: &mut Seat) -> [Option<Turn>; 3]
    requires first { IsSeatOf table.now first.old }
    requires second { IsSeatOf table.now second.old }
    ensures first { IsSeatOf table.now first.new × (first.new.view.holds ≡ first.old.view.holds) }
    ensures second { IsSeatOf table.now second.new × (second.new.view.holds ≡ second.old.view.holds) }
{
    let own = turn(table, first, 0);
    let gone = turn(table, second, 0);
    let published = turn(table, second, 2);
    [own, gone, published]
}

/// What these come to, how many seats the first stands for then, and how many entries there are.
fn joined(alloc: Global) -> Result<String, Fail> {
    let net = net_of(alloc, Small::Once)?;
    let (table, mut seats) = Shared::make(alloc, &net, 4, 2)?;
    let mut second = seats.pop().ok_or("a seat")?;
    let mut first = seats.pop().ok_or("a seat")?;
    let turns = two_turn(&table, &mut first, &mut second);
    table.join(&mut first, second);
    let holds = first.holds();
    let events = table.close(first).events();
    Ok(format!(in alloc; "{turns:?} {holds} {events}")?)
}

#[test]
fn two_seats_become_one(rt: HostRuntime) -> Result<(), Fail> {
    let text = joined(rt.alloc())?;
    assert!(rt;
        text.as_bytes()
            == b"[Some(Rewrote { ticket: 0, rule: Beta, first_cell: 1, mask: 2 }), Some(Gone), \
            Some(Rewrote { ticket: 1, rule: CrossCroissant, first_cell: 5, mask: 2 })] 2 2"
                .as_slice(),
        "{text}"
    );
    Ok(())
}
