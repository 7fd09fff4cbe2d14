//! An exit compared with a single frame.

ghost use Rattle.std.specs.Prelude.{◌≡◌, ℕ, ◌+◌, ◌^◌, ◌<◌, ◌≤◌, ◌↔◌, length, map, IfOk, IsTrue, MatchBool};
ghost use Rattle.ol_context.specs.Contexts.{empty};
ghost use Rattle.ol_context.specs.Shapes.{value, IsHeld, AreHeld, context_of};
ghost use Rattle.ol_readback.specs.Fitting.{Stripped, IsFit, IsSomeStar, IsNoStar, TellsBegin, IsMark, IsCount, IsLastCount, IsNameOf};

use ol_context::{Context, Shape, Val, Values};
use ol_limits::NoMemory;

// How many o stand before a value, and what they stand before.
fn strip(values: &Values, v: Val) -> Result<(u32, Val), NoMemory>
    requires { IsHeld values.now v }
    ensures { IfOk result (λ r. Stripped values.now v r.0 r.1) }
{
    let mut n: u32 = 0;
    let mut at = v;
    loop {
        match values.shape(at) {
            Shape::O(w) => {
                if n == u32::MAX {
                    return Err(NoMemory);
                }
                at = w;
                n += 1;
            }
            Shape::Empty => return Ok((n, at)),
            Shape::Star(_) => return Ok((n, at)),
            Shape::Pair(_, _) => return Ok((n, at)),
        }
    }
}

fn is_empty(values: &Values, v: Val) -> bool
    requires { IsHeld values.now v }
    ensures { IsTrue result ↔ (value values.now v ≡ empty) }
{
    match values.shape(v) {
        Shape::Empty => true,
        Shape::O(_) => false,
        Shape::Star(_) => false,
        Shape::Pair(_, _) => false,
    }
}

fn is_star(values: &Values, v: Val) -> bool
    requires { IsHeld values.now v }
    ensures { MatchBool result (IsSomeStar (value values.now v)) (IsNoStar (value values.now v)) }
{
    match values.shape(v) {
        Shape::Star(_) => true,
        Shape::Empty => false,
        Shape::O(_) => false,
        Shape::Pair(_, _) => false,
    }
}

// Whether all levels from this one on are empty.
fn all_empty(values: &Values, context: &Context, from: usize) -> bool
    requires { AreHeld values.now context.now }
    ensures { IsTrue result ↔ ((i : ℕ) → from ≤ i → context_of values.now context.now i ≡ empty) }
{
    for i in from..context.len() {
        let v = context.level(values, i);
        if !is_empty(values, v) {
            return false;
        }
    }
    true
}

// Whether a context begins with these levels.
fn begins_with(values: &Values, levels: &Vec<Val>, context: &Context) -> bool
    requires levels { AreHeld values.now levels.now.items }
    requires context { AreHeld values.now context.now }
    ensures { TellsBegin (map (value values.now) levels.now.items)
        (context_of values.now context.now) result }
{
    for i in 0..levels.len() {
        let wanted = levels[i];
        let there = context.level(values, i);
        let same = values.equal(there, wanted);
        if !same {
            return false;
        }
    }
    true
}

// How many o stand before a star.
fn binder_at(values: &Values, v: Val) -> Result<Option<u32>, NoMemory>
    requires { IsHeld values.now v }
    ensures { IfOk result (λ r. IsMark (value values.now v) r) }
{
    let stripped = strip(values, v)?;
    if !is_star(values, stripped.1) {
        return Ok(None);
    }
    Ok(Some(stripped.0))
}

// How many o stand before the empty value.
fn count_at(values: &Values, v: Val) -> Result<Option<u32>, NoMemory>
    requires { IsHeld values.now v }
    ensures { IfOk result (λ r. IsCount (value values.now v) r) }
{
    let stripped = strip(values, v)?;
    if !is_empty(values, stripped.1) {
        return Ok(None);
    }
    Ok(Some(stripped.0))
}

// How many o stand at level `m` before the empty value, where all later levels are empty.
fn arguments_at(values: &Values, context: &Context, m: usize) -> Result<Option<u32>, NoMemory>
    requires context { AreHeld values.now context.now }
    requires few { m + 1 < 2 ^ 64 }
    ensures { IfOk result (λ r. IsLastCount m (context_of values.now context.now) r) }
{
    let counted = context.level(values, m);
    let count = count_at(values, counted)?;
    if !all_empty(values, context, m + 1) {
        return Ok(None);
    }
    Ok(count)
}

/// The binder, from 0, and the number of arguments, if an exit with this context is a binder of a
/// frame with these levels and `lams` abstractions.
pub fn fits(
    values: &Values,
    levels: &Vec<Val>,
    lams: u32,
    context: &Context,
) -> Result<Option<(u32, u32)>, NoMemory>
    requires levels { AreHeld values.now levels.now.items }
    requires context { AreHeld values.now context.now }
    ensures { IfOk result (λ r.
        IsFit (map (value values.now) levels.now.items) lams
        (context_of values.now context.now) r) }
{
    // The levels are compared last, since most frames that are tried have another mark.
    let m = levels.len();
    let marked = context.level(values, m);
    let mark = binder_at(values, marked)?;
    match mark {
        None => Ok(None),
        Some(binder) => {
            if binder >= lams {
                return Ok(None);
            }
            let counted = arguments_at(values, context, m + 1)?;
            match counted {
                None => Ok(None),
                Some(args) => {
                    let begins = begins_with(values, levels, context);
                    if !begins {
                        return Ok(None);
                    }
                    Ok(Some((binder, args)))
                }
            }
        }
    }
}

/// The number of arguments, if an exit by this port with this context is a free name.
pub fn is_name(values: &Values, port: u32, context: &Context) -> Result<Option<u32>, NoMemory>
    requires { AreHeld values.now context.now }
    ensures { IfOk result (λ r. IsNameOf port (context_of values.now context.now) r) }
{
    if port < 1 {
        return Ok(None);
    }
    let args = arguments_at(values, context, 1)?;
    Ok(args)
}
