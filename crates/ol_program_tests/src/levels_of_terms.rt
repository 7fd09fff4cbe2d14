//! Walks over the translations of terms, with their exact levels.

use crate::rows::{Question, assert_rows};
use ol_term::Translation;
use std::test::Fail;

/// A shared name leaves with `o` and its argument by another context; without eta the head needs an
/// abstraction; the level of a head past two duplications is nested. Before the last crossing a walk
/// stands at a node.
#[test]
fn walks_leave_with_their_levels(rt: HostRuntime) -> Result<(), Fail> {
    assert_rows(
        &rt,
        rt.alloc(),
        Question::Walk(Translation::One),
        b"0 200 ,, \\x. f x => undefined at 1
0 200 o,, \\x. f x => 3 to 1 with 1:o.empty
0 200 ,, x x => 3 to 1 with 0:o.empty 1:o.empty
1 200 o,*, x x => 6 to 1 with 0:*.<empty,empty>
0 200 ,, let t = \\f x. f (f x) in t t => undefined at 9
0 200 o,, let t = \\f x. f (f x) in t t => undefined at 25
0 91 oo,, let t = \\f x. f (f x) in t t => 91 to 0 with 0:*.<<empty,o.empty>,o.empty> 1:o.empty
0 90 oo,, let t = \\f x. f (f x) in t t => budget
0 200 o,, (\\x. x x) (\\y. y) => 43 to 0 with 0:*.empty",
    )
}

/// By translation 2 an argument that is a variable leaves with no pair, and walks are shorter; in
/// `\x y. x y` the argument leaves by the binder nearest to it.
#[test]
fn walks_by_translation_2_leave_with_fewer_pairs(rt: HostRuntime) -> Result<(), Fail> {
    assert_rows(
        &rt,
        rt.alloc(),
        Question::Walk(Translation::Two),
        b"0 200 o,, \\x. f x => 3 to 1 with 1:o.empty
0 200 ,, x x => 3 to 1 with 0:o.empty 1:o.empty
1 200 o,*, x x => 4 to 1 with 0:*.empty
0 200 o,, let t = \\f x. f (f x) in t t => undefined at 23
0 200 oo,, let t = \\f x. f (f x) in t t => 81 to 0 with 0:*.<o.empty,o.empty> 1:o.empty
0 200 *,*, \\x y. x y => 5 to 0 with 0:o.*.empty",
    )
}
