//! Contexts.

ghost use Rattle.std.specs.Prelude.{◌≡◌, ◌<◌, length, Some, slice_get, slice_index_or};
ghost use Rattle.ol_context.specs.Shapes.{value, IsHeld, AreHeld, context_of};

use crate::arena::{Val, Values};
use std::marker::Model;

/// An infinite sequence of level values: a finite list, followed by empty levels. Contracts view
/// the list. All values of the list are of the same holder.
#[derive(Drop)]
pub struct Context {
    pub(crate) levels: Vec<Val>,
}

impl Model for Context {
    ghost use Rattle.std.specs.Prelude.{List, ℕ};

    ghost Value = { List ℕ };

    ghost view = { λ a. a.levels.items };
}

impl Context {
    /// The context that starts with these levels. Takes no memory.
    pub fn of(levels: Vec<Val>) -> Context
        ensures { result ≡ levels.items }
    {
        Context { levels }
    }

    /// The length of the list. All further levels are empty.
    pub fn len(&self) -> usize
        ensures { result ≡ length self.now }
    {
        self.levels.len()
    }

    /// Level `k`, which is the empty value after the end of the list. The levels are of this
    /// holder.
    pub fn level(&self, values: &Values, k: usize) -> Val
        requires { AreHeld values.now self.now }
        ensures held { IsHeld values.now result }
        ensures is { value values.now result ≡ context_of values.now self.now k }
        ensures within { k < length self.now → slice_get self.now k ≡ Some result }
    {
        level_or(&self.levels, k, values.empty())
    }
}

/// Level `k` of a list, or `none` after its end.
pub fn level_or(levels: &Vec<Val>, k: usize, none: Val) -> Val
    ensures { result ≡ slice_index_or levels.now.items k none }
{
    if k < levels.len() { levels[k] } else { none }
}
