//! Limits at their edges and one past.
use crate::pages::replayed;
use std::test::Fail;

#[test]
fn bytes_are_limited(rt: HostRuntime) -> Result<(), Fail> {
    let page = br"$ walk - < x, *1048575
Done
x

$ walk - < x, *1048576
Limit
limit bytes 1048576

$ walk - < (, *1048576
Limit
limit bytes 1048576

"
        .as_slice();
    let now = replayed(&rt, rt.alloc(), page)?;
    assert!(rt; now.as_slice() == page);
    Ok(())
}

#[test]
fn depth_is_limited(rt: HostRuntime) -> Result<(), Fail> {
    let page = br"$ walk - < \x. *999,x
Done
3716 bytes, the last of them
38 i38 j38 k38. k38

$ walk - < \x. *1000,x
Limit
limit depth 1000

$ walk - < \,x *500000,. x
Limit
limit depth 1000

$ walk - < (*400000,x,)*400000
Done
x

$ walk - < x (*998,x x,)*998
Done
3996 bytes, the last of them
)))))))))))))))))))

"
        .as_slice();
    let now = replayed(&rt, rt.alloc(), page)?;
    assert!(rt; now.as_slice() == page);
    Ok(())
}

/// Trees of applications over `x`.
#[test]
fn nodes_are_limited(rt: HostRuntime) -> Result<(), Fail> {
    let page =
        br"$ walk --translation 1 --heads 1 - < (*5,x^15, ,x^14,) ,x^9,) ,x^8,) ,x^6,) ,x^4,) y
Done
x ... ... ... ... ... ... ... ... ... ... ... ... ... ... ... ... ... ... ... ... ...

$ walk --translation 1 --heads 1 - < (*5,x^15, ,x^14,) ,x^9,) ,x^8,) ,x^6,) ,x^4,) x
Limit
limit nodes 200000

"
            .as_slice();
    let now = replayed(&rt, rt.alloc(), page)?;
    assert!(rt; now.as_slice() == page);
    Ok(())
}

/// The same in translation 2, where `x` as an argument adds an application and a fan.
#[test]
fn nodes_of_the_other_translation_are_limited(rt: HostRuntime) -> Result<(), Fail> {
    let page = br"$ walk --heads 1 - < (*7,x^16, ,x^10,) ,x^6,) ,x^5,) ,x^3,) ,x^1,) ,x,) ,x,) y
Done
x ... ... ... ... ... ... ... ... ... ... ... ... ... ... ... ... ... ... ... ... ... ... ... ...

$ walk --heads 1 - < (*7,x^16, ,x^10,) ,x^6,) ,x^5,) ,x^3,) ,x^1,) ,x,) ,x,) x
Limit
limit nodes 200000

"
        .as_slice();
    let now = replayed(&rt, rt.alloc(), page)?;
    assert!(rt; now.as_slice() == page);
    Ok(())
}
