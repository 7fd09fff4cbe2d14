//! Values and contexts as texts.

ghost use Rattle.std.specs.Prelude.{◌≡◌, ◌≢◌, ℕ, suc, ◌≤◌, ◌++◌, ◌∷◌, [], length, map, take, OnOk};
ghost use Rattle.ol_context.specs.Contexts.{empty, levels};
ghost use Rattle.ol_context.specs.Shapes.{IsHeld, AreHeld, context_of};
ghost use Rattle.ol_context.specs.Shapes as shapes;
ghost use Rattle.ol_decoding.specs.Lines.{level_text, levels_text};
ghost use Rattle.ol_decoding.specs.Pieces.{AreHeldPieces, Writes};
ghost use Rattle.ol_decoding.specs.AddedLines.{AddsContext};

use ol_context::{Context, Shape, Val, Values};
use ol_limits::NoMemory;
use ol_subjects::put;
use std::alloc::Global;

/// What is left to be written of a value.
#[derive(Clone, Copy)]
pub enum Piece {
    Value(Val),
    Comma,
    Close,
}

fn push(pieces: &mut Vec<Piece>, piece: Piece) -> Result<(), NoMemory>
    ensures { OnOk result (pieces.new.items ≡ pieces.old.items ++ piece ∷ []) }
{
    pieces.push(piece)?;
    Ok(())
}

// Writes the first bytes of a value, and leaves the others as pieces, the last of which comes first.
fn put_first(
    text: &mut Vec<u8>,
    values: &Values,
    pieces: &mut Vec<Piece>,
    of: Val,
) -> Result<(), NoMemory>
    requires held { IsHeld values.now of }
    requires pieces { AreHeldPieces values.now pieces.old.items }
    ensures { OnOk result (Writes values.now (pieces.old.items ++ Piece.Value of ∷ [])
        text.old.items pieces.new.items text.new.items) }
{
    match values.shape(of) {
        Shape::Empty => {
            put(text, b"empty")?;
            Ok(())
        }
        Shape::O(inside) => {
            put(text, b"o.")?;
            push(pieces, Piece::Value(inside))?;
            Ok(())
        }
        Shape::Star(inside) => {
            put(text, b"*.")?;
            push(pieces, Piece::Value(inside))?;
            Ok(())
        }
        Shape::Pair(first, second) => {
            put(text, b"<")?;
            push(pieces, Piece::Close)?;
            push(pieces, Piece::Value(second))?;
            push(pieces, Piece::Comma)?;
            push(pieces, Piece::Value(first))?;
            Ok(())
        }
    }
}

// Writes a piece, behind which these are left.
fn put_piece(
    text: &mut Vec<u8>,
    values: &Values,
    pieces: &mut Vec<Piece>,
    piece: Piece,
) -> Result<(), NoMemory>
    requires { AreHeldPieces values.now (pieces.old.items ++ piece ∷ []) }
    ensures { OnOk result (Writes values.now (pieces.old.items ++ piece ∷ []) text.old.items
        pieces.new.items text.new.items) }
{
    match piece {
        Piece::Value(of) => {
            put_first(text, values, pieces, of)?;
            Ok(())
        }
        Piece::Comma => {
            put(text, b",")?;
            Ok(())
        }
        Piece::Close => {
            put(text, b">")?;
            Ok(())
        }
    }
}

// Appends the text of a value. Values may be deep, so what is left stands in a list.
fn put_value(alloc: Global, text: &mut Vec<u8>, values: &Values, of: Val) -> Result<(), NoMemory>
    requires { IsHeld values.now of }
    ensures { OnOk result
        (text.new.items ≡ text.old.items ++ level_text (shapes.value values.now of)) }
{
    let mut pieces = Vec::new(alloc);
    push(&mut pieces, Piece::Value(of))?;
    while let Some(piece) = pieces.pop() {
        put_piece(text, values, &mut pieces, piece)?;
    }
    Ok(())
}

// How many levels of a context are written: those up to the last that isn't empty.
#[tactic(auto, using(crate::proofs::Levelled::all_levels, crate::proofs::Levelled::less_levels, crate::proofs::Levelled::last_full, crate::proofs::Levelled::none_full))]
fn written(values: &Values, context: &Context) -> usize
    requires { AreHeld values.now context.now }
    ensures within { result ≤ length context.now }
    ensures same { levels (take result (map (shapes.value values.now) context.now))
        ≡ context_of values.now context.now }
    ensures full { (k : ℕ) → suc k ≡ result → context_of values.now context.now k ≢ empty }
{
    let mut len = context.len();
    'levels: while len > 0 {
        let last = context.level(values, len - 1);
        if !values.equal(last, values.empty()) {
            return len;
        }
        len -= 1;
    }
    0
}

// Appends the first levels of a context.
fn put_levels(
    alloc: Global,
    text: &mut Vec<u8>,
    values: &Values,
    context: &Context,
    len: usize,
) -> Result<(), NoMemory>
    requires held { AreHeld values.now context.now }
    requires within { len ≤ length context.now }
    ensures { OnOk result (text.new.items ≡ text.old.items
        ++ levels_text (take len (map (shapes.value values.now) context.now))) }
{
    if len == 0 {
        return put(text, b"empty");
    }
    put_value(alloc, text, values, context.level(values, 0))?;
    for k in 1..len {
        put(text, b", ")?;
        put_value(alloc, text, values, context.level(values, k))?;
    }
    Ok(())
}

/// Appends the text of a context, whose levels are of this holder. `NoMemory`: no memory was found.
pub fn put_context(
    alloc: Global,
    text: &mut Vec<u8>,
    values: &Values,
    context: &Context,
) -> Result<(), NoMemory>
    requires { AreHeld values.now context.now }
    ensures { OnOk result
        (AddsContext (context_of values.now context.now) text.old.items text.new.items) }
{
    put_levels(alloc, text, values, context, written(values, context))?;
    Ok(())
}
