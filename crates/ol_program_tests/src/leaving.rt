//! Exits of walks over the nets of small terms, against the root's frame.

ghost use Rattle.std.specs.Prelude.{◌≡◌, length, IfOk};
ghost use Rattle.ol_readback.specs.Frames.{frames_of, ParentsFirst, AreHeldFrames};

use crate::level_texts::begun;
use crate::rows::{Asked, Question, assert_rows};
use ol_context::Values;
use ol_limits::NoMemory;
use ol_readback::{Frame, Head, Levels, leave};
use std::alloc::{AllocError, Global};
use std::test::Fail;

/// The frame of the root alone, whose head has two abstractions.
fn root_alone(alloc: Global, values: &Values) -> Result<Vec<Frame>, AllocError>
    ensures count { IfOk result (λ fs. length fs.items ≡ 1) }
    ensures parents { IfOk result (λ fs. ParentsFirst (frames_of values.now fs.items)) }
    ensures held { IfOk result (λ fs. AreHeldFrames values.now fs.items) }
{
    let root = Frame {
        port: 0,
        levels: Levels::of(Vec::new(alloc)),
        parent: None,
        lams: 2,
    };
    let frames = vec![in alloc; root]?;
    Ok(frames)
}

/// The number of abstractions, the variable and the number of arguments.
fn head_text(alloc: Global, head: &Head) -> Result<String, AllocError> {
    match head {
        Head::Is {
            lams,
            var,
            args,
            ..
        } => format!(in alloc; "{} {:?} {}", *lams, *var, *args),
        Head::NoHead => String::from_str(alloc, "no head"),
        Head::Budget => String::from_str(alloc, "budget"),
    }
}

/// What the exit by port `second` with these levels says of the walk for `first` abstractions.
fn left_head(alloc: Global, asked: Asked<'_>) -> Result<Head, NoMemory> {
    let mut values = Values::new(alloc);
    let context = begun(alloc, &mut values, asked.signs)?;
    let frames = root_alone(alloc, &values)?;
    leave(
        alloc,
        &values,
        &frames,
        0,
        asked.first,
        asked.second,
        &context,
    )
}

/// The same as a text.
pub fn left(alloc: Global, asked: Asked<'_>) -> Result<String, Fail> {
    let head = left_head(alloc, asked)?;
    let text = head_text(alloc, &head)?;
    Ok(text)
}

/// `\x. f x`, asked for one abstraction, leaves by the port of f with levels `empty`, `o.empty`. No
/// head: by port 0, which is no free name, with the context of one; by the port of f, and as a
/// binder, where a level after the arguments' is not empty.
///
/// `let t = \f x. f (f x) in t t`, asked for two, leaves by the root with levels
/// `*.<<empty,o.empty>,o.empty>`, `o.empty`: binder 1 with one argument. An exit with
/// `o.*.<empty,empty>` is binder 2 of the root's frame, with no argument.
#[test]
fn leaves_by_a_name_and_as_a_binder(rt: HostRuntime) -> Result<(), Fail> {
    assert_rows(
        &rt,
        rt.alloc(),
        Question::Exit,
        b"1 1 ,o, - => 1 Free(1) 1
2 0 ,o, - => no head
2 1 ,o,* - => no head
2 0 *,o,* - => no head
2 0 *pp,o, - => 2 Bound { node: 0, binder: 1 } 1
2 0 o*e,, - => 2 Bound { node: 0, binder: 2 } 0",
    )
}
