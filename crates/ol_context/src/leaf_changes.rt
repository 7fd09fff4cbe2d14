//! The changes that nodes make to a list of levels with a leaf. The list contains the other levels.

ghost use Rattle.std.specs.Prelude.{◌≡◌, ◌+◌, ◌<◌, ◌≤◌, ◌++◌, [], ◌∷◌, ℕ, List, IfOk, OnOk, OnErr};
ghost use Rattle.ol_net.specs.Parts.{arity};
ghost use Rattle.ol_context.specs.Contexts.{Level, empty, cons, at_level, mark, packed, up};
ghost use Rattle.ol_context.specs.Shapes.{AreHeld, Extends, IsNumberOf, context_of};
ghost use Rattle.ol_context.specs.Open.{AreHeldParts};
ghost use Rattle.ol_context.specs.Leaves.{level_past, seen, AreHeldWith, AreHeldWithIt, HasPutIn, HasTakenOut, IsKept, HasRisen, LeafHasMoved, IfNoMove};

use crate::arena::{Val, Values};
use crate::changes::{bracket_up, croissant_up, fall, insert, mark_up, reach, rise};
use crate::leaf::{Around, Fate, Leaf};
use crate::row::level_or;
use ol_limits::NoMemory;
use ol_net::Kind;

// Puts one more part round the leaf, the outermost.
fn wrap(leaf: &mut Leaf, part: Around) -> Result<(), NoMemory>
    ensures ok { OnOk result (leaf.new.around.items ≡ leaf.old.around.items ++ part ∷ []) }
    ensures at { leaf.new.at ≡ leaf.old.at }
    ensures err { OnErr result (seen leaf.new ≡ seen leaf.old) }
{
    leaf.around.push(part)?;
    Ok(())
}

// Takes level `i` out.
fn take_out(levels: &mut Vec<Val>, i: usize)
    ensures held { (vs : List Level) → AreHeld vs levels.old.items → AreHeld vs levels.new.items }
    ensures is { HasTakenOut i levels.old.items levels.new.items }
{
    if i < levels.len() {
        let _level = levels.remove(i);
    }
}

/// Inserts a value as level `i`.
pub fn put_in(levels: &mut Vec<Val>, i: usize, v: Val, none: Val) -> Result<(), NoMemory>
    requires small { i < 18446744073709551615 }
    ensures held { OnOk result (AreHeldWithIt v none levels.old.items levels.new.items) }
    ensures ok { OnOk result (HasPutIn i v none levels.old.items levels.new.items) }
    ensures err { OnErr result (levels.new.items ≡ levels.old.items) }
{
    if i < levels.len() {
        insert(levels, i, v)?;
        return Ok(());
    }
    reach(levels, i + 1, none)?;
    levels[i] = v;
    Ok(())
}

// Level `i`, which is not after the one with the leaf, gets the mark of slot `s + 1`.
fn mark_round(
    values: &mut Values,
    levels: &mut Vec<Val>,
    leaf: &mut Leaf,
    i: usize,
    s: u8,
) -> Result<(), NoMemory>
    requires held { AreHeldWith values.old levels.old.items leaf.old }
    requires small { i < 4294967296 }
    requires before { i ≤ leaf.old.at }
    ensures extends { Extends values.old values.new }
    ensures held { OnOk result (AreHeldWith values.new levels.new.items leaf.new) }
    ensures ok { OnOk result
        (HasRisen values.old values.new levels.old.items levels.new.items leaf.old leaf.new
        (at_level i (mark s))) }
    ensures err { OnErr result (IsKept levels.old.items levels.new.items leaf.old leaf.new) }
{
    if i < leaf.at {
        mark_up(values, levels, i, s)?;
        return Ok(());
    }
    if s == 0 {
        wrap(leaf, Around::O)?;
        return Ok(());
    }
    wrap(leaf, Around::Star)?;
    Ok(())
}

// An empty level is put in as level `i`, which is not after the one with the leaf.
fn put_before(
    values: &Values,
    levels: &mut Vec<Val>,
    leaf: &mut Leaf,
    i: usize,
) -> Result<(), NoMemory>
    requires held { AreHeldWith values.now levels.old.items leaf.old }
    requires small { i < 4294967296 }
    requires before { i ≤ leaf.old.at }
    ensures held { OnOk result (AreHeldWith values.now levels.new.items leaf.new) }
    ensures ok { OnOk result
        (HasRisen values.now values.now levels.old.items levels.new.items leaf.old leaf.new
        (at_level i (cons empty))) }
    ensures err { OnErr result (IsKept levels.old.items levels.new.items leaf.old leaf.new) }
{
    if leaf.at >= 18446744073709551615 {
        return Err(NoMemory);
    }
    croissant_up(values, levels, i)?;
    leaf.at += 1;
    Ok(())
}

// Levels `i` and `i + 1` become one, where level `i` is not after the one with the leaf.
fn pack_round(
    values: &mut Values,
    levels: &mut Vec<Val>,
    leaf: &mut Leaf,
    i: usize,
) -> Result<(), NoMemory>
    requires held { AreHeldWith values.old levels.old.items leaf.old }
    requires small { i < 4294967296 }
    requires before { i ≤ leaf.old.at }
    ensures extends { Extends values.old values.new }
    ensures held { OnOk result (AreHeldWith values.new levels.new.items leaf.new) }
    ensures ok { OnOk result
        (HasRisen values.old values.new levels.old.items levels.new.items leaf.old leaf.new
        (at_level i packed)) }
    ensures err { OnErr result (IsKept levels.old.items levels.new.items leaf.old leaf.new) }
{
    if i + 1 < leaf.at {
        bracket_up(values, levels, i)?;
        leaf.at -= 1;
        return Ok(());
    }
    let other = level_or(levels, i, values.empty());
    if i < leaf.at {
        wrap(leaf, Around::First(other))?;
        take_out(levels, i);
        leaf.at = i;
        return Ok(());
    }
    wrap(leaf, Around::Second(other))?;
    take_out(levels, i);
    Ok(())
}

/// The change on the way from an auxiliary port, slot `s + 1`, to the principal port.
pub fn rise_open(
    values: &mut Values,
    levels: &mut Vec<Val>,
    leaf: &mut Leaf,
    kind: Kind,
    i: usize,
    s: u8,
) -> Result<(), NoMemory>
    requires held { AreHeldWith values.old levels.old.items leaf.old }
    requires small { i < 4294967296 }
    requires slot { s < arity kind }
    ensures extends { Extends values.old values.new }
    ensures held { OnOk result (AreHeldWith values.new levels.new.items leaf.new) }
    ensures ok { OnOk result
        (HasRisen values.old values.new levels.old.items levels.new.items leaf.old leaf.new
        (up kind i s)) }
    ensures err { OnErr result (IsKept levels.old.items levels.new.items leaf.old leaf.new) }
{
    if i > leaf.at {
        rise(values, levels, kind, i - 1, s)?;
        return Ok(());
    }
    match kind {
        Kind::Lam => mark_round(values, levels, leaf, i, s),
        Kind::App => mark_round(values, levels, leaf, i, s),
        Kind::Fan => mark_round(values, levels, leaf, i, s),
        Kind::Croissant => put_before(values, levels, leaf, i),
        Kind::Bracket => pack_round(values, levels, leaf, i),
        Kind::Eraser => Ok(()),
    }
}

// From the slot 0 of an abstraction, an application or a fan whose level has the leaf: its mark is
// taken off, and a leaf without parts round it gives off one `o`.
fn unmark(leaf: &mut Leaf) -> Option<(u8, Fate)>
    ensures held { (vs : List Level) →
        AreHeldParts vs leaf.old.around.items → AreHeldParts vs leaf.new.around.items }
    ensures moved { (vs : List Level) (ns : List ℕ) →
        LeafHasMoved Kind.Fan leaf.old.at 0 vs vs ns ns leaf.old leaf.new result }
    ensures kept { IfNoMove result (seen leaf.new ≡ seen leaf.old) }
{
    let count = leaf.around.len();
    if count == 0 {
        return Some((1, Fate::Grows));
    }
    match leaf.around[count - 1] {
        Around::O => {
            let _part = leaf.around.pop();
            Some((1, Fate::Stays))
        }
        Around::Star => {
            let _part = leaf.around.pop();
            Some((2, Fate::Stays))
        }
        Around::First(_) => None,
        Around::Second(_) => None,
    }
}

// From a croissant's slot 0, where its level has the leaf: only a leaf that is empty goes out.
fn unput(leaf: &Leaf) -> Option<(u8, Fate)>
    ensures { (vs : List Level) (ns : List ℕ) →
        LeafHasMoved Kind.Croissant leaf.now.at 0 vs vs ns ns leaf.now leaf.now result }
{
    if leaf.around.len() == 0 {
        Some((1, Fate::Goes))
    } else {
        None
    }
}

// From a bracket's slot 0, where its level has the leaf: that level becomes two.
fn unpack(
    values: &Values,
    levels: &mut Vec<Val>,
    leaf: &mut Leaf,
    none: Val,
) -> Result<Option<(u8, Fate)>, NoMemory>
    requires held { AreHeldWith values.now levels.old.items leaf.old }
    requires none { IsNumberOf values.now none empty }
    ensures held { OnOk result (AreHeldWith values.now levels.new.items leaf.new) }
    ensures moved { IfOk result (λ r.
        LeafHasMoved Kind.Bracket leaf.old.at 0 values.now values.now levels.old.items
        levels.new.items leaf.old leaf.new r) }
    ensures kept { IfOk result (λ r.
        IfNoMove r (IsKept levels.old.items levels.new.items leaf.old leaf.new)) }
    ensures err { OnErr result (IsKept levels.old.items levels.new.items leaf.old leaf.new) }
{
    let count = leaf.around.len();
    if count == 0 {
        return Ok(None);
    }
    if leaf.at >= 18446744073709551615 {
        return Err(NoMemory);
    }
    match leaf.around[count - 1] {
        Around::First(low) => {
            put_in(levels, leaf.at, low, none)?;
            let _part = leaf.around.pop();
            leaf.at += 1;
            Ok(Some((1, Fate::Stays)))
        }
        Around::Second(high) => {
            put_in(levels, leaf.at, high, none)?;
            let _part = leaf.around.pop();
            Ok(Some((1, Fate::Stays)))
        }
        Around::O => Ok(None),
        Around::Star => Ok(None),
    }
}

// From slot 0, where the level of the node's index has the leaf.
fn fall_there(
    values: &Values,
    levels: &mut Vec<Val>,
    leaf: &mut Leaf,
    kind: Kind,
) -> Result<Option<(u8, Fate)>, NoMemory>
    requires held { AreHeldWith values.now levels.old.items leaf.old }
    ensures held { OnOk result (AreHeldWith values.now levels.new.items leaf.new) }
    ensures moved { IfOk result (λ r.
        LeafHasMoved kind leaf.old.at 0 values.now values.now levels.old.items levels.new.items
        leaf.old leaf.new r) }
    ensures kept { IfOk result (λ r.
        IfNoMove r (IsKept levels.old.items levels.new.items leaf.old leaf.new)) }
    ensures err { OnErr result (IsKept levels.old.items levels.new.items leaf.old leaf.new) }
{
    match kind {
        Kind::Lam => Ok(unmark(leaf)),
        Kind::App => Ok(unmark(leaf)),
        Kind::Fan => Ok(unmark(leaf)),
        Kind::Croissant => Ok(unput(leaf)),
        Kind::Bracket => {
            let fallen = unpack(values, levels, leaf, values.empty())?;
            Ok(fallen)
        }
        Kind::Eraser => Ok(None),
    }
}

// Which level has the leaf once a node of this kind at an earlier level has been left by an
// auxiliary slot.
fn level_after(at: usize, kind: Kind) -> usize
    requires { (0 < at) × (at < 18446744073709551615) }
    ensures { result ≡ level_past kind at }
{
    match kind {
        Kind::Croissant => at - 1,
        Kind::Bracket => at + 1,
        Kind::Lam => at,
        Kind::App => at,
        Kind::Fan => at,
        Kind::Eraser => at,
    }
}

// From slot 0, where an earlier level is that of the node's index.
fn fall_before(
    values: &Values,
    levels: &mut Vec<Val>,
    leaf: &mut Leaf,
    kind: Kind,
    i: usize,
) -> Result<Option<(u8, Fate)>, NoMemory>
    requires held { AreHeldWith values.now levels.old.items leaf.old }
    requires small { i < 4294967296 }
    requires before { i < leaf.old.at }
    ensures held { OnOk result (AreHeldWith values.now levels.new.items leaf.new) }
    ensures moved { IfOk result (λ r.
        LeafHasMoved kind i 0 values.now values.now levels.old.items levels.new.items leaf.old
        leaf.new r) }
    ensures kept { IfOk result (λ r.
        IfNoMove r (IsKept levels.old.items levels.new.items leaf.old leaf.new)) }
    ensures err { OnErr result (IsKept levels.old.items levels.new.items leaf.old leaf.new) }
{
    if leaf.at >= 18446744073709551615 {
        return Err(NoMemory);
    }
    let fallen = fall(values, levels, kind, i)?;
    let Some(s) = fallen else {
        return Ok(None);
    };
    leaf.at = level_after(leaf.at, kind);
    Ok(Some((s + 1, Fate::Stays)))
}

/// The way from the principal port to an auxiliary port, slot `s + 1`.
pub fn fall_open(
    values: &Values,
    levels: &mut Vec<Val>,
    leaf: &mut Leaf,
    kind: Kind,
    i: usize,
) -> Result<Option<(u8, Fate)>, NoMemory>
    requires held { AreHeldWith values.now levels.old.items leaf.old }
    requires small { i < 4294967296 }
    ensures held { OnOk result (AreHeldWith values.now levels.new.items leaf.new) }
    ensures moved { IfOk result (λ r.
        LeafHasMoved kind i 0 values.now values.now levels.old.items levels.new.items leaf.old
        leaf.new r) }
    ensures kept { IfOk result (λ r.
        IfNoMove r (IsKept levels.old.items levels.new.items leaf.old leaf.new)) }
    ensures err { OnErr result (IsKept levels.old.items levels.new.items leaf.old leaf.new) }
{
    if i > leaf.at {
        let fallen = fall(values, levels, kind, i - 1)?;
        let Some(s) = fallen else {
            return Ok(None);
        };
        return Ok(Some((s + 1, Fate::Stays)));
    }
    if i < leaf.at {
        let fallen = fall_before(values, levels, leaf, kind, i)?;
        return Ok(fallen);
    }
    let fallen = fall_there(values, levels, leaf, kind)?;
    Ok(fallen)
}
