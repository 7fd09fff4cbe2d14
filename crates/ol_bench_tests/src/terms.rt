//! Commands on a text with a term: where a byte stands, where a text stops being a term, which names
//! are free, what a normal form encodes, and the tree of a term.

use crate::rows::assert_one;
use ol_bench::OnOne;
use ol_limits::{Fuel, Heads};
use ol_term::Translation;
use std::test::Fail;

/// A byte behind a tab and a letter of two bytes, the place behind the last byte, and one further.
#[test]
fn places_are_told(rt: HostRuntime) -> Result<(), Fail> {
    let behind_tab = b"a b\n\tx \xce\xbb y)\n|Yes: line 2, column 8\n\tx \xce\xbb y)\n\t     ^\n!";
    assert_one(&rt, rt.alloc(), OnOne::Where { byte: 11 }, behind_tab)?;
    let at_end = b"a b\n|Yes: line 2, column 1\n\n^\n!%\
        a b|No: past the end at byte 3\n!";
    assert_one(&rt, rt.alloc(), OnOne::Where { byte: 4 }, at_end)
}

/// An `in` is of the last `let` that has none, and a bracket ends no `let`. None is told where each
/// has its `in`, or where the word is part of a longer one.
#[test]
fn texts_stop_where_something_is_wanted(rt: HostRuntime) -> Result<(), Fail> {
    let rows = b"|No: line 1, column 1\n\n^\nwanted: a term\n!%\
        (\\x. x))|No: line 1, column 8\n(\\x. x))\n       ^\nwanted: the end or more\n!%\
        f \xce\xb1 x|No: line 1, column 4\nf \xce\xb1 x\n   ^\n\
        wanted: the second byte of \xce\xbb\n!%\
        let|No: line 1, column 4\nlet\n   ^\nwanted: a name\n\
        no in yet: let at line 1, column 1\n!%\
        let a = b\nlet c = d\nlet e = f in g|No: line 3, column 15\nlet e = f in g\n\
        \x20             ^\nwanted: in or more\nno in yet: let at line 2, column 1\n!%\
        let x = (y (z|No: line 1, column 14\nlet x = (y (z\n             ^\nwanted: ) or more\n\
        no in yet: let at line 1, column 1\n!%\
        # let it\nlet x = y # let in\nx|No: line 3, column 2\nx\n ^\nwanted: in or more\n\
        no in yet: let at line 2, column 1\n!%\
        let x = y in (x|No: line 1, column 16\nlet x = y in (x\n               ^\n\
        wanted: ) or more\n!%\
        outlet x = y|No: line 1, column 10\noutlet x = y\n         ^\nwanted: the end or more\n!";
    assert_one(&rt, rt.alloc(), OnOne::Stop, rows)
}

/// A lambda of two bytes, names that only begin as a keyword, and one that is bound further left.
#[test]
fn free_names_are_placed(rt: HostRuntime) -> Result<(), Fail> {
    let rows = b"\xce\xbbin' letx.y|Yes: y line 1 column 12\n!%\
        (\\x. x) x|Yes: x line 1 column 9\n!";
    assert_one(&rt, rt.alloc(), OnOne::Free, rows)
}

/// An item of a list may have free names, and needn't be an encoding.
#[test]
fn a_normal_form_is_decoded(rt: HostRuntime) -> Result<(), Fail> {
    let command = OnOne::Show {
        translation: Translation::Two,
        fuel: Fuel::of(1000),
        heads: Heads::of(40),
    };
    let rows = b"\\c n. c (\\f x. f x) (c y n)|Yes: \\a b. a (\\c d. c d) (a y b)\nlist of 2\n\
        1: Church numeral 1\n2: no encoding fits\n!";
    assert_one(&rt, rt.alloc(), command, rows)
}

fn tree(depth: u32) -> OnOne {
    OnOne::Tree {
        translation: Translation::Two,
        depth,
        fuel: Fuel::of(1000),
        heads: Heads::of(9),
    }
}

/// Nothing is asked down to depth 0. A part without an end stands before one that goes on for ever.
#[test]
fn trees_are_told(rt: HostRuntime) -> Result<(), Fail> {
    let none = b"\\f. (\\x. f (x x)) (\\x. f (x x))|Yes: ...\n!";
    assert_one(&rt, rt.alloc(), tree(0), none)?;
    let endless = b"\\x. x ((\\x. x x x) (\\x. x x x)) ((\\y. y y) (\\y z. z (y y)))|\
        No: \\a. a ? (\\b. b (\\c. c (\\d. d ...)))\n!";
    assert_one(&rt, rt.alloc(), tree(4), endless)
}
