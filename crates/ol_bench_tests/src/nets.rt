//! Commands on a net, journals of orders, and fuel that is used up at once.
ghost use Rattle.std.specs.Prelude.{◌≤◌};
ghost use Rattle.ol_limits.specs.Limits.{most_fuel};

use crate::rows::assert_one;
use ol_bench::OnOne;
use ol_counts::{Bounds, Columns};
use ol_limits::{Fuel, Heads};
use ol_orders::Order;
use ol_subjects::{Layout, Subject};
use ol_term::Translation;
use std::test::Fail;

const TERM: Subject = Subject::Term(Translation::Two);

// All columns, or none, as an object.
fn counts(shown: bool) -> OnOne {
    let bounds = Bounds {
        fuel: Fuel::of(9),
        heads: Heads::of(9),
        steps: 9,
        moves: 9,
    };
    let columns = Columns {
        run: shown,
        demand: shown,
        leftmost: shown,
        applicative: shown,
        need: shown,
        families: shown,
    };
    OnOne::Counts {
        subject: Subject::Net,
        bounds,
        columns,
        layout: Layout::Object,
    }
}

/// A net without free ports has nothing to read from, and no term. Without columns all is well.
#[test]
fn a_net_is_counted(rt: HostRuntime) -> Result<(), Fail> {
    let rows = b"ol net 1\nfree 0\nnode eraser -\nnode eraser -\nlink 0.0 1.0\n|\
        Yes: {\"columns\":{\"run\":{\"beta\":0,\"fan\":0,\"croissant\":0,\"bracket\":0,\
        \"cross-fan\":0,\"cross-croissant\":0,\"cross-bracket\":0,\"erase\":1,\
        \"interactions\":1,\"stuck\":0,\"ended\":true},\"demand\":null,\"leftmost\":null,\
        \"applicative\":null,\"need\":null,\"families\":null}}\n!";
    assert_one(&rt, rt.alloc(), counts(true), rows)?;
    let none = b"ol net 1\nfree 0\n|Yes: {\"columns\":{}}\n!";
    assert_one(&rt, rt.alloc(), counts(false), none)
}

fn journal(subject: Subject, order: Order, fuel: u32) -> OnOne
    requires { fuel ≤ most_fuel }
{
    OnOne::Journal {
        subject,
        order,
        fuel: Fuel::of(fuel),
        heads: Heads::of(9),
    }
}

/// No fuel, with a pair and without one; `demand` cut off; and pairs that the reading of a net, or of
/// one without free ports, doesn't meet.
#[test]
fn orders_are_traced(rt: HostRuntime) -> Result<(), Fail> {
    let without = b"(\\x. x x) (\\y. y)|No: ol trace 2\n!%x|Yes: ol trace 2\n!";
    assert_one(&rt, rt.alloc(), journal(TERM, Order::Rounds, 0), without)?;
    let cut = b"(\\x. x x) (\\y. y)|No: ol trace 2\nbeta 1 0 1\ncross-fan 2 4 5\n!";
    assert_one(&rt, rt.alloc(), journal(TERM, Order::Demand, 2), cut)?;
    let unmet = b"ol net 1\nfree 2\nnode eraser -\nnode eraser -\nlink f0 f1\nlink 0.0 1.0\n|\
        Yes: ol trace 2\n!%\
        ol net 1\nfree 0\nnode eraser -\nnode eraser -\nlink 0.0 1.0\n|Yes: ol trace 2\n!";
    assert_one(
        &rt,
        rt.alloc(),
        journal(Subject::Net, Order::Demand, 9),
        unmet,
    )?;
    let least = b"ol net 1\nfree 0\nnode eraser -\nnode eraser -\nlink 0.0 1.0\n|\
        Yes: ol trace 2\nerase 1 0 1\n!";
    assert_one(
        &rt,
        rt.alloc(),
        journal(Subject::Net, Order::Least, 9),
        least,
    )
}

/// A run that ends with its fuel, and one without fuel.
#[test]
fn waves_are_counted(rt: HostRuntime) -> Result<(), Fail> {
    let command = OnOne::Waves {
        subject: Subject::Net,
        fuel: Fuel::of(1),
    };
    let rows = b"ol net 1\nfree 0\nnode app 0\nnode lam 0\nlink 0.0 1.0\nlink 0.1 0.2\n\
        link 1.1 1.2\n|Yes: \x20  wave   pairs    beta     fan croissant bracket cross-fan \
        cross-croissant cross-bracket   erase\n\
        \x20     1       1       1       0         0       0         0               0\
        \x20            0       0\nwidest 1 at wave 1\nmean 1/1\nwaves 1\ninteractions 1\n!";
    assert_one(&rt, rt.alloc(), command, rows)?;
    let command = OnOne::Waves {
        subject: TERM,
        fuel: Fuel::of(0),
    };
    let rows = b"(\\x. x) y|No: waves 0\ninteractions 0\na pair is left after 0 interactions\n!";
    assert_one(&rt, rt.alloc(), command, rows)
}

/// An eraser faces a croissant.
#[test]
fn a_run_of_a_net_is_told(rt: HostRuntime) -> Result<(), Fail> {
    let command = OnOne::Story {
        subject: Subject::Net,
        fuel: Fuel::of(9),
    };
    let rows = b"ol net 1\nfree 1\nnode eraser -\nnode croissant 2\nlink f0 1.1\nlink 0.0 1.0\n|\
        Yes: ol trace 2\n  active: 0 and 1\nerase 1 0 1\n  0 (eraser -) and 1 (croissant 2)\n\
        \x20 created: 2 is 0.0 (eraser -)\n  no active pair\n!";
    assert_one(&rt, rt.alloc(), command, rows)
}
