//! The parser over tokens, with an explicit stack of open constructs.

ghost use Rattle.std.specs.Prelude.{◌≡◌, false, IfOk, OnOk};
ghost use Rattle.ol_parse.specs.Grammar.{name, let_key, in_key, lambda, dot, equals, open_bracket, close_bracket};
ghost use Rattle.ol_parse.specs.Flat.{Unwinds, Finishes, Takes, applied_if};

use crate::flat::{Mode, Op, Open};
use std::alloc::AllocError;

/// Ends what is open, unless it wants a bracket or an `in`.
fn unwind<'a>(innermost: Open<'a>, out: &mut Vec<Op<'a>>) -> Result<bool, AllocError>
    ensures kept { IfOk result (λ yes. yes ≡ false → out.new.items ≡ out.old.items) }
    ensures ended { IfOk result (λ yes. Unwinds innermost.entry out.old.items yes out.new.items) }
{
    match innermost {
        Open::Applied(false) => Ok(true),
        Open::Applied(true) => {
            out.push(Op::Apply)?;
            Ok(true)
        }
        Open::Abstracted(x) => {
            out.push(Op::Abstract(x))?;
            Ok(true)
        }
        Open::Bound(x) => {
            out.push(Op::Abstract(x))?;
            out.push(Op::ApplyBelow)?;
            Ok(true)
        }
        Open::Bracket(_) | Open::Defining(_) => Ok(false),
    }
}

/// Closes the innermost term, and all constructs that end with it. Returns the next open construct,
/// which is removed from the stack.
pub fn finish<'a>(
    opens: &mut Vec<Open<'a>>,
    out: &mut Vec<Op<'a>>,
) -> Result<Option<Open<'a>>, AllocError>
    ensures { IfOk result (λ closer.
        Finishes opens.old.items out.old.items closer opens.new.items out.new.items) }
{
    while let Some(innermost) = opens.pop() {
        if !unwind(innermost, out)? {
            return Ok(Some(innermost));
        }
    }
    Ok(None)
}

/// Applies what stood before to what came, where something did.
fn apply_if<'a>(spine: bool, out: &mut Vec<Op<'a>>) -> Result<(), AllocError>
    ensures { OnOk result (out.new.items ≡ applied_if spine out.old.items) }
{
    if spine {
        out.push(Op::Apply)?;
    }
    Ok(())
}

pub fn take_name<'a>(
    word: &'a [u8],
    mode: Mode,
    opens: &mut Vec<Open<'a>>,
    out: &mut Vec<Op<'a>>,
) -> Result<Option<Mode>, AllocError>
    ensures { IfOk result (λ next. Takes (name word.now)
        mode opens.old.items out.old.items next opens.new.items out.new.items) }
{
    match mode {
        Mode::Term(spine) => {
            out.push(Op::Push(word))?;
            apply_if(spine, out)?;
            Ok(Some(Mode::Term(true)))
        }
        Mode::FirstName | Mode::MoreNames => {
            opens.push(Open::Abstracted(word))?;
            Ok(Some(Mode::MoreNames))
        }
        Mode::LetName => {
            opens.push(Open::Defining(word))?;
            Ok(Some(Mode::LetEquals))
        }
        Mode::LetEquals => Ok(None),
    }
}

pub fn take_open<'a>(
    mode: Mode,
    opens: &mut Vec<Open<'a>>,
    out: &Vec<Op<'a>>,
) -> Result<Option<Mode>, AllocError>
    ensures { IfOk result (λ next. Takes open_bracket
        mode opens.old.items out.now.items next opens.new.items out.now.items) }
{
    match mode {
        Mode::Term(spine) => {
            opens.push(Open::Bracket(spine))?;
            Ok(Some(Mode::Term(false)))
        }
        _ => Ok(None),
    }
}

pub fn take_lambda<'a>(
    mode: Mode,
    opens: &mut Vec<Open<'a>>,
    out: &Vec<Op<'a>>,
) -> Result<Option<Mode>, AllocError>
    ensures { IfOk result (λ next. Takes lambda
        mode opens.old.items out.now.items next opens.new.items out.now.items) }
{
    match mode {
        Mode::Term(spine) => {
            opens.push(Open::Applied(spine))?;
            Ok(Some(Mode::FirstName))
        }
        _ => Ok(None),
    }
}

pub fn take_let<'a>(
    mode: Mode,
    opens: &mut Vec<Open<'a>>,
    out: &Vec<Op<'a>>,
) -> Result<Option<Mode>, AllocError>
    ensures { IfOk result (λ next. Takes let_key
        mode opens.old.items out.now.items next opens.new.items out.now.items) }
{
    match mode {
        Mode::Term(spine) => {
            opens.push(Open::Applied(spine))?;
            Ok(Some(Mode::LetName))
        }
        _ => Ok(None),
    }
}

pub fn take_dot(mode: Mode, opens: &Vec<Open>, out: &Vec<Op>) -> Option<Mode>
    ensures { Takes dot
        mode opens.now.items out.now.items result opens.now.items out.now.items }
{
    match mode {
        Mode::MoreNames => Some(Mode::Term(false)),
        _ => None,
    }
}

pub fn take_equals(mode: Mode, opens: &Vec<Open>, out: &Vec<Op>) -> Option<Mode>
    ensures { Takes equals
        mode opens.now.items out.now.items result opens.now.items out.now.items }
{
    match mode {
        Mode::LetEquals => Some(Mode::Term(false)),
        _ => None,
    }
}

pub fn take_close<'a>(
    mode: Mode,
    opens: &mut Vec<Open<'a>>,
    out: &mut Vec<Op<'a>>,
) -> Result<Option<Mode>, AllocError>
    ensures { IfOk result (λ next. Takes close_bracket
        mode opens.old.items out.old.items next opens.new.items out.new.items) }
{
    match mode {
        Mode::Term(true) => match finish(opens, out)? {
            Some(Open::Bracket(spine)) => {
                apply_if(spine, out)?;
                Ok(Some(Mode::Term(true)))
            }
            _ => Ok(None),
        },
        _ => Ok(None),
    }
}

pub fn take_in<'a>(
    mode: Mode,
    opens: &mut Vec<Open<'a>>,
    out: &mut Vec<Op<'a>>,
) -> Result<Option<Mode>, AllocError>
    ensures { IfOk result (λ next. Takes in_key
        mode opens.old.items out.old.items next opens.new.items out.new.items) }
{
    match mode {
        Mode::Term(true) => match finish(opens, out)? {
            Some(Open::Defining(word)) => {
                opens.push(Open::Bound(word))?;
                Ok(Some(Mode::Term(false)))
            }
            _ => Ok(None),
        },
        _ => Ok(None),
    }
}
