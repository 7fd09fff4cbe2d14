//! Deep level values.

ghost use Rattle.std.specs.Prelude.{IfOk};
ghost use Rattle.ol_context.specs.Shapes.{IsHeld, Extends};

use ol_context::{Val, Values};
use ol_limits::NoMemory;
use std::test::Fail;

/// So many times `o.` before a value.
fn tower(values: &mut Values, count: u32, v: Val) -> Result<Val, NoMemory>
    requires { IsHeld values.old v }
    ensures extends { Extends values.old values.new }
    ensures held { IfOk result (λ w. IsHeld values.new w) }
{
    let mut top = v;
    for _ in 0..count {
        top = values.put_o(top)?;
    }
    Ok(top)
}

/// Neither comparing deep values nor letting them go takes room on the machine's stack.
#[test]
fn holds_deep_values(rt: HostRuntime) -> Result<(), Fail> {
    let mut values = Values::new(rt.alloc());
    let empty = values.empty();
    let first = tower(&mut values, 100_000, empty)?;
    let second = tower(&mut values, 100_000, empty)?;
    let third = tower(&mut values, 99_999, empty)?;
    assert!(rt; values.equal(first, second) && !values.equal(second, third));
    Ok(())
}
