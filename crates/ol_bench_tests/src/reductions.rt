//! `steps` and `derivation`.

use crate::rows::{assert_one, one};
use ol_bench::OnOne;
use ol_steps::Shown;
use ol_strategies::Order;
use std::alloc::Global;
use std::process::Abort;
use std::test::Fail;

/// At most nine steps in an order, with own names or with letters, and folded or not.
pub fn steps(order: Order, named: bool, folded: bool) -> OnOne {
    let how = Shown {
        order,
        marked: false,
        named,
        folded,
    };
    OnOne::Steps { how, most: 9 }
}

#[test]
fn terms_come_back(rt: HostRuntime) -> Result<(), Fail> {
    let head = b"\\w. (\\x. x x) (\\x. x x)|No: \\a. (\\b. b b) (\\b. b b)\n  at 0\n\
        \\a. (\\b. b b) (\\b. b b)\nstep 1 is step 0 again: no head normal form\n!";
    assert_one(&rt, rt.alloc(), steps(Order::Head, false, false), head)?;
    let weak = b"(\\x. x x) (\\x. x x) y|No: (\\a. a a) (\\a. a a) y\n  at 1\n\
        (\\a. a a) (\\a. a a) y\nstep 1 is step 0 again: no weak head normal form\n!";
    assert_one(&rt, rt.alloc(), steps(Order::WeakHead, false, false), weak)?;
    let value = b"(\\x. y) ((\\x. x x) (\\x. x x))|No: (\\a. y) ((\\a. a a) (\\a. a a))\n  at 2\n\
        (\\a. y) ((\\a. a a) (\\a. a a))\nstep 1 is step 0 again: no end in this order\n!";
    assert_one(&rt, rt.alloc(), steps(Order::Value, false, false), value)
}

/// Two binders need two primes each. A letter passes over the name of a `let`.
#[test]
fn binders_have_their_names(rt: HostRuntime) -> Result<(), Fail> {
    let primed = b"(\\f y y. f y y') y|Yes: (\\f y y. f y y') y\n  at .\n\
        \\y'' y''. y y'' y'\nnormal after 1 step\n!";
    assert_one(&rt, rt.alloc(), steps(Order::Leftmost, true, false), primed)?;
    let letter = b"let a = \\x. x in \\y. y a|Yes: 1 let unfolded: step 1\n\
        \\b. b a\nnormal after 1 step\n!";
    assert_one(&rt, rt.alloc(), steps(Order::Leftmost, false, true), letter)
}

/// A value that isn't closed, a name that stands for the later value, and one with a `let` in its
/// value. A part that is the redex is written out, also where its term comes back.
#[test]
fn parts_are_names_of_lets(rt: HostRuntime) -> Result<(), Fail> {
    let open = b"let k = \\x. y in k z|Yes: 1 let unfolded: step 1\n\
        (\\x. y) z\n  at .\ny\nhead normal after 2 steps\n!";
    assert_one(&rt, rt.alloc(), steps(Order::Head, true, true), open)?;
    let later = b"let x = \\a. a in let x = \\b. b b in x (\\c. c)|Yes: 2 lets unfolded: step 2\n\
        x (\\c. c)\n  at .\n(\\c. c) (\\c. c)\n  at .\n\\c. c\nvalue after 4 steps\n!";
    assert_one(&rt, rt.alloc(), steps(Order::Value, true, true), later)?;
    let inner = b"let id = \\x. x in let k = (let l = \\a b. a in l) in k id|\
        Yes: (\\id'. (\\k. k id') (id (\\a b. a))) id\n  at 102\n1 let unfolded: step 2\n\
        (\\id. (\\a b. a) id) id\n  at 10\n1 let unfolded: step 4\n\\b. id\nnormal after 4 steps\n!";
    assert_one(
        &rt,
        rt.alloc(),
        steps(Order::Applicative, true, true),
        inner,
    )?;
    let back = b"let w = (\\x. x x) (\\x. x x) in f w w|No: 1 let unfolded: step 1\n\
        f ((\\x. x x) (\\x. x x)) w\n  at 12\nf ((\\x. x x) (\\x. x x)) w\n\
        step 2 is step 1 again: no normal form\n!";
    assert_one(&rt, rt.alloc(), steps(Order::Leftmost, true, true), back)
}

/// A value of several `let`s: the names of binders that the part has kept tell it, with letters too;
/// two `let`s have them; none has.
#[test]
fn parts_are_written_by_words(rt: HostRuntime) -> Result<(), Fail> {
    let told = b"let t = \\x y. x in let f = \\x y. y in let o = \\f x. x in (\\b. b f t) t|\
        Yes: 3 lets unfolded: step 3\n(\\b. b f t) t\n  at .\nt f t\n  at 1\n\
        (\\y. f) t\n  at .\nf\nnormal after 6 steps\n!";
    assert_one(&rt, rt.alloc(), steps(Order::Leftmost, true, true), told)?;
    let letters =
        b"let f = \\x y. y in let o = \\f x. x in (\\z. z) f o|Yes: 2 lets unfolded: step 2\n\
        (\\a. a) f o\n  at 1\nf o\n  at .\n\\a. a\nnormal after 4 steps\n!";
    assert_one(
        &rt,
        rt.alloc(),
        steps(Order::Leftmost, false, true),
        letters,
    )?;
    let several = b"let k = \\x y. x in let fst = \\a b. a in let true = \\x y. x in \
        g k fst true (\\u v. u)|Yes: 3 lets unfolded: step 3\n\
        g true|k fst true|k true|fst|k\nnormal after 3 steps\n!";
    assert_one(&rt, rt.alloc(), steps(Order::Leftmost, true, true), several)
}

/// Comments and empty lines, line ends of two bytes, one term under two spellings, a step to itself,
/// two redexes that give one term, a name that would be captured, and a term behind a bad line.
#[test]
fn derivations_are_judged(rt: HostRuntime) -> Result<(), Fail> {
    let rows = b"# nothing\n\n \t\r\n  # more\nx\n|Yes: !%\
        \\x. (\\y. y) x\r\n\r\n\\z. z\r\n|Yes: line 3: one beta step, at 0, leftmost\n!%\
        \\x. \\y. x\n\\a b. a\n|Yes: line 2: the same term\n!%\
        (\\x. x x) (\\x. x x)\n(\\y. y y) (\\z. z z)|Yes: line 2: one beta step, at ., leftmost\n!%\
        (\\x. x) ((\\x. x) y)\n(\\x. x) y\n|Yes: line 2: one beta step, at ., leftmost\n!%\
        (\\x. x x) (\\x. x x)\ny\n|No: line 2: no beta step of line 1\n!%\
        (\\x y. x y) y\n\\y. y y\n|No: line 2: not convertible\n!%\
        (\\x. x) y\n(\\x. x\ny\n|No: line 2: syntax, column 7\n\
        line 3: one beta step, at ., leftmost\n!";
    assert_one(&rt, rt.alloc(), OnOne::Derivation, rows)
}

// Two terms: one with so many redexes beside each other, and one in which the first of them are
// contracted.
fn beside(alloc: Global, steps: usize, left: usize) -> Result<String, Fail> {
    let redexes = " ((\\y. y) z)".repeat(alloc, left)?;
    let first = " ((\\y. y) z)".repeat(alloc, steps)?;
    let contracted = " z".repeat(alloc, steps)?;
    let text = format!(in alloc; "x{first}{redexes}\nx{contracted}{redexes}")?;
    Ok(text)
}

/// A term with n redexes beside each other has n + n * (n - 1) reductions of one and of two steps.
#[test]
fn steps_are_counted(rt: HostRuntime) -> Result<(), Fail> {
    let none = b"No: line 2: no beta step of line 1\n!".as_slice();
    let rows: [(usize, usize, &[u8]); 5] = [
        (5, 0, b"No: line 2: 5 steps\n!"),
        (6, 0, none),
        (3, 28, b"No: line 2: 3 steps\n!"),
        (3, 29, none),
        (2, 30, b"No: line 2: 2 steps\n!"),
    ];
    for (steps, left, wanted) in rows {
        let text = beside(rt.alloc(), steps, left)?;
        let told = one(rt.alloc(), OnOne::Derivation, &text)?;
        assert!(rt; told.as_bytes() == wanted, "{told}");
    }
    Ok(())
}
