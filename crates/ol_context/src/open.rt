//! Open contexts.

ghost use Rattle.std.specs.Prelude.{◌≡◌, ◌^◌, ◌+◌, ◌-◌, ◌<◌, ◌≤◌, IfOk, OnOk, OnErr};
ghost use Rattle.ol_net.specs.Parts.{arity};
ghost use Rattle.ol_context.specs.Contexts.{empty};
ghost use Rattle.ol_context.specs.Shapes.{value, IsHeld, AreHeld, Extends, IsNumberOf, context_of};
ghost use Rattle.ol_context.specs.Open.{opened, wrapped, filled, open_at, IsHeldOpen, IsHeldPart, AreHeldParts};
ghost use Rattle.ol_context.specs.Leaves.{AreHeldWith, IsKept, LeafHasMoved, IfNoMove};
ghost use Rattle.ol_context.specs.Passing.{HasPassed};

use crate::arena::{Val, Values};
use crate::crossing::cross_node;
use crate::leaf::{Around, Fate, Leaf};
use crate::leaf_changes::{fall_open, put_in, rise_open};
use crate::row::Context;
use ol_limits::NoMemory;
use ol_net::Kind;
use std::marker::Model;

/// A context in which at most one level has a leaf instead of a value, and a number `lams`. For
/// each n from `lams` on it represents the context in which the leaf is n - `lams` times `o` before
/// the empty value. After the leaf was removed, it represents a single context, for n = `lams`.
///
/// Contracts view the numbers of the levels except the level with the leaf, which level this is,
/// with the constructors around the leaf, and `lams`.
#[derive(Drop)]
pub struct OpenContext {
    levels: Vec<Val>,
    leaf: Option<Leaf>,
    lams: u64,
}

impl Model for OpenContext {
    ghost use Rattle.std.specs.Prelude.{option_map};
    ghost use Rattle.ol_context.specs.Open.{Open};

    ghost Value = { Open };

    ghost view = { λ a. record {
      levels = a.levels.items;
      leaf = option_map (λ l. (l.at, l.around.items)) a.leaf;
      lams = a.lams;
    } };
}

// Enters a node of this kind and index by a slot. The answer is the slot by which the walk leaves,
// and what has become of the leaf.
fn cross_leaf(
    values: &mut Values,
    levels: &mut Vec<Val>,
    leaf: &mut Leaf,
    kind: Kind,
    index: u32,
    slot: u8,
) -> Result<Option<(u8, Fate)>, NoMemory>
    requires held { AreHeldWith values.old levels.old.items leaf.old }
    requires slot { slot ≤ arity kind }
    ensures extends { Extends values.old values.new }
    ensures held { OnOk result (AreHeldWith values.new levels.new.items leaf.new) }
    ensures moved { IfOk result (λ r.
        LeafHasMoved kind index slot values.old values.new levels.old.items levels.new.items
        leaf.old leaf.new r) }
    ensures kept { IfOk result (λ r.
        IfNoMove r (IsKept levels.old.items levels.new.items leaf.old leaf.new)) }
    ensures err { OnErr result (IsKept levels.old.items levels.new.items leaf.old leaf.new) }
{
    let i = index as usize;
    if slot == 0 {
        let fallen = fall_open(values, levels, leaf, kind, i)?;
        return Ok(fallen);
    }
    rise_open(values, levels, leaf, kind, i, slot - 1)?;
    Ok(Some((0, Fate::Stays)))
}

// The value with this part round it.
fn put_part(values: &mut Values, part: Around, v: Val) -> Result<Val, NoMemory>
    requires part { IsHeldPart values.old part }
    requires value { IsHeld values.old v }
    ensures extends { Extends values.old values.new }
    ensures new { IfOk result (λ w.
        IsNumberOf values.new w (wrapped values.old part (value values.old v))) }
{
    match part {
        Around::O => values.put_o(v),
        Around::Star => values.put_star(v),
        Around::First(low) => values.put_pair(v, low),
        Around::Second(high) => values.put_pair(high, v),
    }
}

// The value with these parts round it, the innermost first.
fn fill(values: &mut Values, around: &Vec<Around>, v: Val) -> Result<Val, NoMemory>
    requires held { AreHeldParts values.old around.now.items }
    requires value { IsHeld values.old v }
    ensures extends { Extends values.old values.new }
    ensures new { IfOk result (λ w.
        IsNumberOf values.new w (filled values.old around.now.items (value values.old v))) }
{
    let mut whole = v;
    let mut k = 0;
    while k < around.len() {
        whole = put_part(values, around[k], whole)?;
        k += 1;
    }
    Ok(whole)
}

impl OpenContext {
    /// These levels, followed by the leaf, with `lams` 0. Takes no memory.
    pub fn of(levels: Vec<Val>) -> OpenContext
        ensures { result ≡ opened levels.items }
    {
        let at = levels.len();
        let around = Vec::new(*levels.allocator());
        OpenContext {
            levels,
            leaf: Some(Leaf { at, around }),
            lams: 0,
        }
    }

    /// The least number n for which it represents a context.
    pub fn lams(&self) -> u64
        ensures { result ≡ self.now.lams }
    {
        self.lams
    }

    /// The context that it stands for at `lams`: a leaf that is left is the empty value. Its values
    /// are of this holder. `NoMemory`: no memory was found.
    pub(crate) fn closed(self, values: &mut Values) -> Result<Context, NoMemory>
        requires { IsHeldOpen values.old self }
        ensures extends { Extends values.old values.new }
        ensures held { IfOk result (λ c. AreHeld values.new c) }
        ensures is { IfOk result (λ c.
            context_of values.new c ≡ open_at values.old self self.lams) }
    {
        let OpenContext { levels, leaf, .. } = self;
        let mut levels = levels;
        let Some(leaf) = leaf else {
            return Ok(Context::of(levels));
        };
        if leaf.at >= 18446744073709551615 {
            return Err(NoMemory);
        }
        let none = values.empty();
        let whole = fill(values, &leaf.around, none)?;
        put_in(&mut levels, leaf.at, whole, none)?;
        Ok(Context::of(levels))
    }

    /// Enters a node of this kind and index by a slot. The answer is the slot by which the walk
    /// leaves, or `None` where no crossing is defined for any number that the context stands for.
    pub(crate) fn pass(
        &mut self,
        values: &mut Values,
        kind: Kind,
        index: u32,
        slot: u8,
    ) -> Result<Option<u8>, NoMemory>
        requires held { IsHeldOpen values.old self.old }
        requires slot { slot ≤ arity kind }
        requires few { self.old.lams < 2 ^ 64 - 1 }
        ensures extends { Extends values.old values.new }
        ensures held { IsHeldOpen values.new self.new }
        ensures passed { IfOk result (λ r.
            HasPassed kind index slot values.old values.new self.old self.new r) }
        ensures lams { self.new.lams ≤ self.old.lams + 1 }
        ensures err { OnErr result (self.new ≡ self.old) }
    {
        let Some(leaf) = &mut self.leaf else {
            let crossed = cross_node(values, &mut self.levels, kind, index, slot)?;
            return Ok(crossed);
        };
        let crossed = cross_leaf(values, &mut self.levels, leaf, kind, index, slot)?;
        match crossed {
            None => Ok(None),
            Some((slot, Fate::Stays)) => Ok(Some(slot)),
            Some((slot, Fate::Grows)) => {
                self.lams += 1;
                Ok(Some(slot))
            }
            Some((slot, Fate::Goes)) => {
                self.leaf = None;
                Ok(Some(slot))
            }
        }
    }
}
