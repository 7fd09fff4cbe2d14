//! The innermost `let` that has no `in` yet at a place of a text.

ghost use Rattle.std.specs.Prelude.{◌≡◌, ℕ, ◌<◌, ◌≤◌, List, length, IfOk, IfSome, OnOk};
ghost use Rattle.ol_limits.specs.Limits.{most_term_bytes};
ghost use Rattle.ol_places.specs.Tokens.{kind_token};
ghost use Rattle.ol_places.specs.Lets.{IsInnermostLet, IsLetLine};
ghost use Rattle.ol_places.specs.Scanned.{lets_after, IsLastLet, IsOpenLine};

use crate::placing::{line_of, put_line_and_column};
use crate::stopping::goes_on;
use crate::tokens::{Kind, first_token};
use ol_limits::NoMemory;
use ol_subjects::put;
use std::alloc::Global;

// Takes a token of this kind, which begins at this byte.
fn take(lets: &mut Vec<usize>, at: usize, kind: Kind) -> Result<(), NoMemory>
    ensures { OnOk result ((word : List ℕ) →
        lets.new.items ≡ lets_after lets.old.items at (kind_token kind word)) }
{
    match kind {
        Kind::Let => {
            lets.push(at)?;
            Ok(())
        }
        Kind::In => {
            let _ended = lets.pop();
            Ok(())
        }
        Kind::Name => Ok(()),
        Kind::Sign(_) => Ok(()),
    }
}

// The last `let` that waits for its `in`, token by token.
fn last_let(alloc: Global, front: &[u8]) -> Result<Option<usize>, NoMemory>
    ensures { IfOk result (IsLastLet front.now) }
{
    let mut lets = Vec::new(alloc);
    let mut rest = front;
    while let Some(token) = first_token(rest) {
        let at = front.len() - rest.len() + token.gap;
        take(&mut lets, at, token.kind)?;
        let (_, left) = rest.split_at(token.gap + token.length);
        rest = left;
    }
    Ok(lets.pop())
}

// The innermost `let` that has no `in` yet behind these bytes.
fn innermost(alloc: Global, front: &[u8]) -> Result<Option<usize>, NoMemory>
    requires short { length front.now ≤ most_term_bytes }
    ensures innermost { IfOk result (IsInnermostLet front.now) }
    ensures within { IfOk result (λ last. IfSome last (λ at. at < length front.now)) }
{
    if !goes_on(alloc, front, b"\n")? {
        return Ok(None);
    }
    let last = last_let(alloc, front)?;
    Ok(last)
}

// The line that tells where this `let` stands.
fn open_line(alloc: Global, bytes: &[u8], at: usize) -> Result<Vec<u8>, NoMemory>
    requires within { at ≤ length bytes.now }
    ensures { IfOk result (λ text. IsOpenLine bytes.now at text.items) }
{
    let (start, _) = line_of(bytes, at);
    let mut text = Vec::new(alloc);
    put(&mut text, b"no in yet: let at ")?;
    put_line_and_column(alloc, &mut text, bytes, at, start)?;
    put(&mut text, b"\n")?;
    Ok(text)
}

/// The line that tells where the innermost `let` stands that has no `in` before this place. No line
/// comes if there is no such `let`, or if no text goes on with a line feed at the place: the place
/// is within λ, or behind a keyword that can't stand there, as byte 7 of `let let = a in b`.
pub fn let_line(alloc: Global, bytes: &[u8], place: usize) -> Result<Vec<u8>, NoMemory>
    requires within { place ≤ length bytes.now }
    requires short { length bytes.now ≤ most_term_bytes }
    ensures { IfOk result (λ text. IsLetLine bytes.now place text.items) }
{
    match innermost(alloc, &bytes[..place])? {
        None => Ok(Vec::new(alloc)),
        Some(at) => open_line(alloc, bytes, at),
    }
}
