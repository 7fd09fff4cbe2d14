//! The changes that nodes make to the levels of a context, in place. An index `i` is the index of
//! the node.

ghost use Rattle.std.specs.List.{insert as inserted};
ghost use Rattle.std.specs.Prelude.{◌≡◌, ◌-◌, ◌<◌, ◌≤◌, ◌++◌, length, replicate, IfOk, OnOk, OnErr};
ghost use Rattle.ol_net.specs.Parts.{arity};
ghost use Rattle.ol_context.specs.Contexts.{empty, marked, cons, at_level, mark, packed, up};
ghost use Rattle.ol_context.specs.Shapes.{value, IsHeld, AreHeld, Extends, IsNumberOf};
ghost use Rattle.ol_context.specs.Crossings.{Becomes, HasLostMark, HasUndone, HasFallen};

use crate::arena::{Shape, Val, Values};
use crate::row::level_or;
use ol_limits::NoMemory;
use ol_net::Kind;

// Makes the list at least `n` levels long.
pub fn reach(levels: &mut Vec<Val>, n: usize, none: Val) -> Result<(), NoMemory>
    ensures ok { OnOk result
        (levels.new.items ≡ levels.old.items ++ replicate (n - length levels.old.items) none) }
    ensures err { OnErr result (levels.new.items ≡ levels.old.items) }
{
    if levels.len() >= n {
        return Ok(());
    }
    levels.resize(n, none)?;
    Ok(())
}

pub fn insert(levels: &mut Vec<Val>, i: usize, v: Val) -> Result<(), NoMemory>
    requires { i ≤ length levels.old.items }
    ensures ok { OnOk result (levels.new.items ≡ inserted levels.old.items i v) }
    ensures err { OnErr result (levels.new.items ≡ levels.old.items) }
{
    levels.insert(i, v)?;
    Ok(())
}

fn put_marked(values: &mut Values, s: u8, v: Val) -> Result<Val, NoMemory>
    requires { IsHeld values.old v }
    ensures extends { Extends values.old values.new }
    ensures new { IfOk result (λ w. IsNumberOf values.new w (marked s (value values.old v))) }
{
    if s == 0 {
        values.put_o(v)
    } else {
        values.put_star(v)
    }
}

pub fn mark_up(values: &mut Values, levels: &mut Vec<Val>, i: usize, s: u8) -> Result<(), NoMemory>
    requires held { AreHeld values.old levels.old.items }
    requires small { i < 4294967296 }
    ensures extends { Extends values.old values.new }
    ensures ok { OnOk result
        (Becomes values.old values.new levels.old.items levels.new.items (at_level i (mark s))) }
    ensures err { OnErr result (levels.new.items ≡ levels.old.items) }
{
    let none = values.empty();
    let at = level_or(levels, i, none);
    let w = put_marked(values, s, at)?;
    reach(levels, i + 1, none)?;
    levels[i] = w;
    Ok(())
}

fn mark_down(values: &Values, levels: &mut Vec<Val>, i: usize) -> Option<u8>
    requires { AreHeld values.now levels.old.items }
    ensures { HasLostMark values.now i levels.old.items levels.new.items result }
{
    if i >= levels.len() {
        return None;
    }
    let at = levels[i];
    match values.shape(at) {
        Shape::O(v) => {
            levels[i] = v;
            Some(0)
        }
        Shape::Star(v) => {
            levels[i] = v;
            Some(1)
        }
        Shape::Empty => None,
        Shape::Pair(_, _) => None,
    }
}

pub fn croissant_up(values: &Values, levels: &mut Vec<Val>, i: usize) -> Result<(), NoMemory>
    requires { AreHeld values.now levels.old.items }
    ensures ok { OnOk result
        (Becomes values.now values.now levels.old.items levels.new.items
        (at_level i (cons empty))) }
    ensures err { OnErr result (levels.new.items ≡ levels.old.items) }
{
    if i < levels.len() {
        let none = values.empty();
        insert(levels, i, none)?;
        return Ok(());
    }
    Ok(())
}

fn croissant_down(values: &Values, levels: &mut Vec<Val>, i: usize) -> Option<u8>
    requires { AreHeld values.now levels.old.items }
    ensures { HasUndone (cons empty) values.now i levels.old.items levels.new.items result }
{
    if i >= levels.len() {
        return Some(0);
    }
    let at = levels[i];
    match values.shape(at) {
        Shape::Empty => {
            let _old = levels.remove(i);
            Some(0)
        }
        Shape::O(_) => None,
        Shape::Star(_) => None,
        Shape::Pair(_, _) => None,
    }
}

pub fn bracket_up(values: &mut Values, levels: &mut Vec<Val>, i: usize) -> Result<(), NoMemory>
    requires held { AreHeld values.old levels.old.items }
    requires small { i < 4294967296 }
    ensures extends { Extends values.old values.new }
    ensures ok { OnOk result
        (Becomes values.old values.new levels.old.items levels.new.items (at_level i packed)) }
    ensures err { OnErr result (levels.new.items ≡ levels.old.items) }
{
    let none = values.empty();
    let low = level_or(levels, i, none);
    let high = level_or(levels, i + 1, none);
    let w = values.put_pair(high, low)?;
    reach(levels, i + 2, none)?;
    levels[i] = w;
    let _old = levels.remove(i + 1);
    Ok(())
}

fn bracket_down(values: &Values, levels: &mut Vec<Val>, i: usize) -> Result<Option<u8>, NoMemory>
    requires held { AreHeld values.now levels.old.items }
    requires small { i < 4294967296 }
    ensures ok { IfOk result (HasUndone packed values.now i levels.old.items levels.new.items) }
    ensures err { OnErr result (levels.new.items ≡ levels.old.items) }
{
    if i >= levels.len() {
        return Ok(None);
    }
    let at = levels[i];
    match values.shape(at) {
        Shape::Pair(x, y) => {
            insert(levels, i + 1, x)?;
            levels[i] = y;
            Ok(Some(0))
        }
        Shape::Empty => Ok(None),
        Shape::O(_) => Ok(None),
        Shape::Star(_) => Ok(None),
    }
}

/// The change on the way from an auxiliary port, slot `s + 1`, to the principal port.
pub fn rise(
    values: &mut Values,
    levels: &mut Vec<Val>,
    kind: Kind,
    i: usize,
    s: u8,
) -> Result<(), NoMemory>
    requires held { AreHeld values.old levels.old.items }
    requires small { i < 4294967296 }
    requires slot { s < arity kind }
    ensures extends { Extends values.old values.new }
    ensures ok { OnOk result
        (Becomes values.old values.new levels.old.items levels.new.items (up kind i s)) }
    ensures err { OnErr result (levels.new.items ≡ levels.old.items) }
{
    match kind {
        Kind::Lam => mark_up(values, levels, i, s),
        Kind::App => mark_up(values, levels, i, s),
        Kind::Fan => mark_up(values, levels, i, s),
        Kind::Croissant => croissant_up(values, levels, i),
        Kind::Bracket => bracket_up(values, levels, i),
        Kind::Eraser => Ok(()),
    }
}

/// The way from the principal port to an auxiliary port, slot `s + 1`, with the context before the
/// change of that slot.
pub fn fall(
    values: &Values,
    levels: &mut Vec<Val>,
    kind: Kind,
    i: usize,
) -> Result<Option<u8>, NoMemory>
    requires held { AreHeld values.now levels.old.items }
    requires small { i < 4294967296 }
    ensures ok { IfOk result (λ r.
        HasFallen kind i values.now levels.old.items levels.new.items r) }
    ensures err { OnErr result (levels.new.items ≡ levels.old.items) }
{
    match kind {
        Kind::Lam => Ok(mark_down(values, levels, i)),
        Kind::App => Ok(mark_down(values, levels, i)),
        Kind::Fan => Ok(mark_down(values, levels, i)),
        Kind::Croissant => Ok(croissant_down(values, levels, i)),
        Kind::Bracket => {
            let fallen = bracket_down(values, levels, i)?;
            Ok(fallen)
        }
        Kind::Eraser => Ok(None),
    }
}
