//! Which frame binds the exit of a walk.

ghost use Rattle.std.specs.Prelude.{◌≡◌, ◌≢◌, ◌<◌, ◌↔◌, ◌++◌, [], ◌∷◌, length, IfOk};
ghost use Rattle.ol_context.specs.Shapes.{IsHeld, AreHeld, context_of};
ghost use Rattle.ol_readback.specs.Frames.{frame_of, frames_of, ParentsFirst, AreHeldFrames};
ghost use Rattle.ol_readback.specs.Fitting.{IsFitOf, IsNamed};
ghost use Rattle.ol_readback.specs.Matching.{MatchesNothing};
ghost use Rattle.ol_readback.specs.Skipping.{AreSkipsOf};
ghost use Rattle.ol_readback.specs.declared.answers.Head.TheVariants.{NoHead, Budget};
ghost use Rattle.ol_readback.specs.Heads.{IsMatched, answer_of, IsHeldHead};

use crate::answers::{Head, HeadVar};
use crate::fitting::{fits, is_name};
use crate::frames::{Asked, Frame};
use crate::levels::Levels;
use crate::skipping::next_round;
use ol_context::{Context, Val, Values};
use ol_limits::NoMemory;
use std::alloc::{AllocError, Global};

// The binder of this frame, counted from 0, and the number of arguments.
fn fits_frame(
    values: &Values,
    frame: &Frame,
    lams: u32,
    port: u32,
    context: &Context,
) -> Result<Option<(u32, u32)>, NoMemory>
    requires levels { AreHeld values.now frame.now.levels }
    requires context { AreHeld values.now context.now }
    ensures { IfOk result (λ r.
        IsFitOf (frame_of values.now frame.now) lams port (context_of values.now context.now) r) }
{
    if lams == 0 || frame.port != port {
        return Ok(None);
    }
    let levels = &frame.levels;
    let fit = fits(values, &levels.levels, lams, context)?;
    Ok(fit)
}

fn with_last(alloc: Global, levels: &[Val], last: Val) -> Result<Vec<Val>, AllocError>
    ensures { IfOk result (λ r. r.items ≡ levels.now ++ last ∷ []) }
{
    let mut longer = Vec::from_slice(alloc, levels)?;
    longer.push(last)?;
    Ok(longer)
}

/// A copy of these levels with a further level at the end.
pub fn push_level(alloc: Global, levels: &Levels, last: Val) -> Result<Levels, NoMemory>
    ensures { IfOk result (λ r. r ≡ levels.now ++ last ∷ []) }
{
    let longer = with_last(alloc, levels.levels.as_slice(), last)?;
    Ok(Levels::of(longer))
}

// The free name of a port, or no head.
fn named(
    alloc: Global,
    values: &Values,
    lams: u32,
    port: u32,
    context: &Context,
) -> Result<Head, NoMemory>
    requires { AreHeld values.now context.now }
    ensures answer { IfOk result (λ h.
        IsNamed lams port (context_of values.now context.now) (answer_of values.now h)) }
    ensures held { IfOk result (λ h. IsHeldHead values.now h) }
{
    let name = is_name(values, port, context)?;
    match name {
        None => Ok(Head::NoHead),
        Some(args) => {
            let first = context.level(values, 0);
            let none = Levels::of(Vec::new(alloc));
            let levels = push_level(alloc, &none, first)?;
            Ok(Head::Is {
                lams,
                var: HeadVar::Free(port),
                args,
                at: levels,
            })
        }
    }
}

/// Returns what `leave` returns, without trying the frames that the skips pass over.
pub fn leave_by(
    alloc: Global,
    values: &Values,
    asked: &Asked<'_>,
    lams: u32,
    port: u32,
    context: &Context,
) -> Result<Head, NoMemory>
    requires at { asked.now.at < length asked.now.frames.now.items }
    requires parents { ParentsFirst (frames_of values.now asked.now.frames.now.items) }
    requires frames { AreHeldFrames values.now asked.now.frames.now.items }
    requires context { AreHeld values.now context.now }
    requires skips { AreSkipsOf asked.now.frames.now.items asked.now.skips.now.items }
    ensures answer { IfOk result (λ h.
        IsMatched (frames_of values.now asked.now.frames.now.items) asked.now.at lams port
        (context_of values.now context.now) (answer_of values.now h)) }
    ensures held { IfOk result (IsHeldHead values.now) }
{
    let mut i = asked.at;
    let mut abstractions = lams;
    loop {
        let frame = &asked.frames[i as usize];
        let fit = fits_frame(values, frame, abstractions, port, context)?;
        match fit {
            Some(found) => {
                let last = context.level(values, frame.levels.len());
                let levels = push_level(alloc, &frame.levels, last)?;
                return Ok(Head::Is {
                    lams,
                    var: HeadVar::Bound {
                        node: i,
                        binder: found.0 + 1,
                    },
                    args: found.1,
                    at: levels,
                });
            }
            None => match next_round(asked.frames, asked.skips, i) {
                Some(round) => {
                    abstractions = asked.frames[round as usize].lams;
                    i = round;
                }
                None => {
                    let last = named(alloc, values, lams, port, context)?;
                    return Ok(last);
                }
            },
        }
    }
}

/// The meaning of an exit by `port` with `context`, for the walk of frame `at` with `lams`
/// abstractions.
///
/// The call tries frame `at` with `lams` abstractions, then its parent, and so on to the root; the
/// nearest frame that fits binds the exit. If no frame fits, an exit by a port of at least 1 whose
/// level 1 encodes a number of arguments and whose later levels are empty is the free name of that
/// port. `NoHead` is returned exactly if neither applies. `NoMemory`: no memory was found. `at` is
/// less than the length of the list, each parent precedes its child, and all values are of this
/// holder.
pub fn leave(
    alloc: Global,
    values: &Values,
    frames: &Vec<Frame>,
    at: u32,
    lams: u32,
    port: u32,
    context: &Context,
) -> Result<Head, NoMemory>
    requires at { at < length frames.now.items }
    requires parents { ParentsFirst (frames_of values.now frames.now.items) }
    requires frames { AreHeldFrames values.now frames.now.items }
    requires context { AreHeld values.now context.now }
    ensures answer { IfOk result (λ h.
        IsMatched (frames_of values.now frames.now.items) at lams port
        (context_of values.now context.now) (answer_of values.now h)) }
    ensures no_head { IfOk result (λ h.
        (h ≡ NoHead) ↔ MatchesNothing (frames_of values.now frames.now.items) port
        (context_of values.now context.now) at lams) }
    ensures no_budget { IfOk result (λ h. h ≢ Budget) }
    ensures held { IfOk result (λ h. IsHeldHead values.now h) }
{
    let skips: Vec<Option<u32>> = Vec::new(alloc);
    let asked = Asked {
        frames,
        skips: &skips,
        at,
    };
    let left = leave_by(alloc, values, &asked, lams, port, context)?;
    Ok(left)
}
