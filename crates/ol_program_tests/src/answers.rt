//! What calls come to where nothing fails: each command once, and what no page of docs/ shows.
use crate::pages::replayed;
use std::test::Fail;

#[test]
fn each_command_answers(rt: HostRuntime) -> Result<(), Fail> {
    let page = br"$ run j < x < (\x. x) (\y. y)
Done 4
\a. a
beta 1
fan 0
croissant 1
bracket 0
cross-fan 0
cross-croissant 2
cross-bracket 0
erase 0
stuck 0

$ walk --edges 39 --heads 1 - < (\x. x x) (\y. y)
Done
\a. a

$ view --after 9 - < (\x. x) (\y. y)
Done
step 4
nodes 2
f0 7.0
7 lam 0 f0 9.1 9.0
9 croissant 0 7.2 7.1

$ trace --workers 64 --fuel 4 - < (\x. x) (\y. y)
Done 4
ol trace 2
beta 1 0 1
cross-croissant 2 2 3
cross-croissant 3 4 1.1
croissant 4 1.0 2.0

$ trace --fuel 2 - < (\x. x) (\y. y)
Spent 2
ol trace 2
beta 1 0 1
cross-croissant 2 2 3

$ check - j < (\x. x) (\y. y) < ol trace 1|0 1|2 3|4 1.1|1.0 2.0|
Done
complete

$ check - j < (\x. x x) (\y. y) < ol trace 1|0 1|6 7|3 1.2|2 2.2|
Done
not a run at line 3

$ gen 0 ! 0 -
Done
((\x. x x) (\y. y))

"
        .as_slice();
    let now = replayed(&rt, rt.alloc(), page)?;
    assert!(rt; now.as_slice() == page);
    Ok(())
}

/// 15,356 interactions, and 21,500 in translation 1.
#[test]
fn the_greatest_term_that_is_made_is_run(rt: HostRuntime) -> Result<(), Fail> {
    let page = br"$ gen --run 10
Done 15356
\a. a
beta 3071
fan 1024
croissant 3071
bracket 0
cross-fan 2048
cross-croissant 6142
cross-bracket 0
erase 0
stuck 0

$ gen --translation=1 --run 10
Done 21500
\a. a
beta 3071
fan 1024
croissant 4095
bracket 1024
cross-fan 2048
cross-croissant 8190
cross-bracket 2048
erase 0
stuck 0

"
        .as_slice();
    let now = replayed(&rt, rt.alloc(), page)?;
    assert!(rt; now.as_slice() == page);
    Ok(())
}

/// An argument that nothing asks for has no end. The normal form of the last term has 1,024 times
/// `f`, one within another.
#[test]
fn answers_at_their_bounds(rt: HostRuntime) -> Result<(), Fail> {
    let page = br"$ demand --fuel 5 - < (\x y. x) (\z. z) ((\x. x x) (\x. x x))
Done
\a. a
beta 2
fan 0
croissant 1
bracket 0
cross-fan 0
cross-croissant 2
cross-bracket 0
erase 0
stuck 0

$ demand --fuel 4 - < (\x y. x) (\z. z) ((\x. x x) (\x. x x))
Spent
fuel 4

$ certify --steps 2 - < (\x. x x) (\y. y)
Done
agreed
steps 2
.
.

$ certify --steps 1 - < (\x. x x) (\y. y)
Done
beta steps 1

$ certify --steps 0 - < x
Done
agreed
steps 0

$ certify - < (\f x. f (f (f (f (f (f (f (f (f (f x)))))))))) (\f x. f (f x)) f x
Done
deep 1025

$ equal --heads 1 - j < f x < f y
Done
cut at 1

$ equal - j < f (g x) (h y z) < f (g x) (h y w)
Done
different at 2.2

"
        .as_slice();
    let now = replayed(&rt, rt.alloc(), page)?;
    assert!(rt; now.as_slice() == page);
    Ok(())
}

/// Of the nets that are refused: a port left loose, links out of order, a port that isn't there, and
/// one that is joined twice.
#[test]
fn nets_are_rewritten_and_refused(rt: HostRuntime) -> Result<(), Fail> {
    let page = br"$ net --from-term - < \x. x
Done
ol net 1
free 1
node lam 0
node croissant 0
link f0 0.0
link 0.1 1.1
link 0.2 1.0

$ net --workers 1 - < ol net 1|free 4|node fan 0|node lam 0|link f0 0.1|link f1 0.2|link f2 1.1|link f3 1.2|link 0.0 1.0|
Done
beta 0
fan 0
croissant 0
bracket 0
cross-fan 0
cross-croissant 0
cross-bracket 0
erase 0
stuck 1
pair 0 1
ol net 1
free 4
node fan 0
node lam 0
link f0 0.1
link f1 0.2
link f2 1.1
link f3 1.2
link 0.0 1.0

$ net - < ol net 1|free 4|node fan 0|node lam 0|link f0 0.1|link f1 0.2|link f2 1.1|link f3 1.2|
BadNet
loose port 0.0

$ net - < ol net 1|free 2|node lam 0|link f1 0.2|link f0 0.1|
BadNet
bad net at line 5

$ net - < ol net 1|free 1|node eraser -|link f0 0.1|
BadNet
bad port at link 0

$ net - < ol net 1|free 2|node eraser -|link f0 0.0|link f1 0.0|
BadNet
port twice at link 1

"
        .as_slice();
    let now = replayed(&rt, rt.alloc(), page)?;
    assert!(rt; now.as_slice() == page);
    Ok(())
}
