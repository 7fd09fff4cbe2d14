//! The lines of an answer.

ghost use Rattle.std.specs.Prelude.{◌≡◌, ◌++◌, length, true, Some, IfOk, OnOk};
ghost use Rattle.std.specs.Fmt.{decimal};
ghost use Rattle.std.specs.List.{flat_map};
ghost use Rattle.ol_term.specs.Trees.{tree_of, is_below, is_named_below};
ghost use Rattle.ol_beta.specs.Beta.{IsWithin};
ghost use Rattle.ol_steps.specs.Marks.{mark_line};
ghost use Rattle.ol_steps.specs.Terms.{named_of};
ghost use Rattle.ol_steps.specs.Trees.{binders_in};
ghost use Rattle.ol_steps.specs.Steps.{address_line, how_many, last_line, past_line, redex_lines, reached_end, reached_words, return_line, return_words, shown_term, term_line};

use crate::lettering::letter;
use crate::marking::put_mark;
use crate::naming::name;
use crate::printing::put_named;
use crate::stepping::Shown;
use crate::terms::NamedTerm;
use crate::trees::BinderTree;
use ol_beta::Address;
use ol_limits::{MOST_DEPTH, MOST_SIZE, NoMemory};
use ol_strategies::{Order, Reached};
use ol_subjects::{End, put, put_number};
use ol_term::{Names, Term, print_term};
use std::alloc::Global;

// A term with names: letters for its binders, or if it is wanted their own.
fn shown(
    alloc: Global,
    term: &Term,
    binders: &BinderTree,
    names: &Names,
    own: bool,
) -> Result<NamedTerm, NoMemory>
    requires bound { is_below 0 (tree_of term.now) ≡ true }
    requires named { is_named_below (length names.now) (tree_of term.now) ≡ true }
    requires within { IsWithin (tree_of term.now) }
    ensures { IfOk result (λ t. named_of t
        ≡ shown_term own names.now (tree_of term.now) (binders_in binders.now)) }
{
    if own {
        let named = name(alloc, term, binders, names)?;
        return Ok(named);
    }
    let named = letter(alloc, term, names)?;
    Ok(named)
}

// A term's line.
pub fn put_term(
    alloc: Global,
    text: &mut Vec<u8>,
    term: &Term,
    binders: &BinderTree,
    names: &Names,
    own: bool,
) -> Result<(), NoMemory>
    requires bound { is_below 0 (tree_of term.now) ≡ true }
    requires named { is_named_below (length names.now) (tree_of term.now) ≡ true }
    requires within { IsWithin (tree_of term.now) }
    ensures { OnOk result (text.new.items ≡ text.old.items
        ++ term_line own names.now (tree_of term.now) (binders_in binders.now)) }
{
    if own {
        let named = name(alloc, term, binders, names)?;
        put_named(text, &named)?;
    } else {
        let words = print_term(alloc, term, names)?;
        put(text, &words)?;
    }
    put(text, b"\n")
}

// The moves of an address.
fn put_moves(alloc: Global, text: &mut Vec<u8>, at: &Address) -> Result<(), NoMemory>
    ensures { OnOk result (text.new.items ≡ text.old.items ++ flat_map decimal at.now) }
{
    for k in 0..at.len() {
        let Some(to) = at.get(k) else { unreachable!() };
        put_number(alloc, text, to as u64)?;
    }
    Ok(())
}

// The line of an address: a dot for the root, else the digits of its moves.
fn put_address(alloc: Global, text: &mut Vec<u8>, at: &Address) -> Result<(), NoMemory>
    ensures { OnOk result (text.new.items ≡ text.old.items ++ address_line at.now) }
{
    put(text, b"  at ")?;
    if at.len() == 0 {
        put(text, b".")?;
    } else {
        put_moves(alloc, text, at)?;
    }
    put(text, b"\n")
}

// All moves of an address.
pub fn moves_of(alloc: Global, at: &Address) -> Result<Vec<u8>, NoMemory>
    ensures { IfOk result (λ moves. moves.items ≡ at.now) }
{
    let mut moves = Vec::new(alloc);
    for k in 0..at.len() {
        let Some(to) = at.get(k) else { unreachable!() };
        moves.push(to)?;
    }
    Ok(moves)
}

// The line of carets under the text of a redex.
fn put_carets(
    alloc: Global,
    text: &mut Vec<u8>,
    term: &Term,
    binders: &BinderTree,
    names: &Names,
    own: bool,
    at: &Address,
) -> Result<(), NoMemory>
    requires bound { is_below 0 (tree_of term.now) ≡ true }
    requires named { is_named_below (length names.now) (tree_of term.now) ≡ true }
    requires within { IsWithin (tree_of term.now) }
    ensures { OnOk result (text.new.items ≡ text.old.items ++ mark_line
        (shown_term own names.now (tree_of term.now) (binders_in binders.now)) at.now) }
{
    let named = shown(alloc, term, binders, names, own)?;
    let moves = moves_of(alloc, at)?;
    put_mark(alloc, text, &named, &moves)?;
    Ok(())
}

// The lines of a redex: carets under its text, if they are wanted, and its address.
pub fn put_redex(
    alloc: Global,
    text: &mut Vec<u8>,
    term: &Term,
    binders: &BinderTree,
    names: &Names,
    how: Shown,
    at: &Address,
) -> Result<(), NoMemory>
    requires bound { is_below 0 (tree_of term.now) ≡ true }
    requires named { is_named_below (length names.now) (tree_of term.now) ≡ true }
    requires within { IsWithin (tree_of term.now) }
    ensures { OnOk result (text.new.items
        ≡ text.old.items ++ redex_lines how names.now (tree_of term.now) (binders_in binders.now)
        (Some at.now)) }
{
    if how.marked {
        put_carets(alloc, text, term, binders, names, how.named, at)?;
    }
    put_address(alloc, text, at)
}

// So many of some things.
pub fn put_how_many(
    alloc: Global,
    text: &mut Vec<u8>,
    count: usize,
    thing: &[u8],
) -> Result<(), NoMemory>
    ensures { OnOk result (text.new.items ≡ text.old.items ++ how_many count thing.now) }
{
    put_number(alloc, text, count as u64)?;
    put(text, b" ")?;
    put(text, thing)?;
    if count != 1 {
        put(text, b"s")?;
    }
    Ok(())
}

// The last line: some words, and how many steps were made.
pub fn put_last(
    alloc: Global,
    text: &mut Vec<u8>,
    words: &[u8],
    made: usize,
) -> Result<(), NoMemory>
    ensures { OnOk result (text.new.items ≡ text.old.items ++ last_line words.now made) }
{
    put(text, words)?;
    put(text, b" after ")?;
    put_how_many(alloc, text, made, b"step")?;
    put(text, b"\n")
}

// The last line where a step's term is out of bounds: its size and depth.
pub fn past_line(alloc: Global, made: usize, size: u64, depth: u64) -> Result<Vec<u8>, NoMemory>
    ensures { IfOk result (λ text. text.items ≡ past_line made size depth) }
{
    let mut text = Vec::new(alloc);
    put(&mut text, b"step ")?;
    put_number(alloc, &mut text, made as u64)?;
    put(&mut text, b" exceeds the limits: size ")?;
    put_number(alloc, &mut text, size)?;
    put(&mut text, b" of ")?;
    put_number(alloc, &mut text, MOST_SIZE as u64)?;
    put(&mut text, b", depth ")?;
    put_number(alloc, &mut text, depth)?;
    put(&mut text, b" of ")?;
    put_number(alloc, &mut text, MOST_DEPTH as u64)?;
    put(&mut text, b"\n")?;
    Ok(text)
}

// The last line where the term of a step is that of an earlier one.
pub fn return_line(
    alloc: Global,
    order: Order,
    made: usize,
    earlier: usize,
) -> Result<Vec<u8>, NoMemory>
    ensures { IfOk result (λ text. text.items ≡ return_line order made earlier) }
{
    let mut text = Vec::new(alloc);
    put(&mut text, b"step ")?;
    put_number(alloc, &mut text, made as u64)?;
    put(&mut text, b" is step ")?;
    put_number(alloc, &mut text, earlier as u64)?;
    put(&mut text, b" again: ")?;
    put(&mut text, return_words(order).as_bytes())?;
    put(&mut text, b"\n")?;
    Ok(text)
}

// The words for what an order ends in.
pub fn reached_words(word: Reached) -> &'static str
    ensures { result.now ≡ reached_words word }
{
    match word {
        Reached::Normal => "normal",
        Reached::HeadNormal => "head normal",
        Reached::WeakHeadNormal => "weak head normal",
        Reached::Value => "value",
        Reached::Stuck => "stuck",
    }
}

// Whether what was reached is what the order looks for.
pub fn reached_end(word: Reached) -> End
    ensures { result ≡ reached_end word }
{
    match word {
        Reached::Stuck => End::No,
        _ => End::Yes,
    }
}

// What a term hasn't got, where one comes back in this order.
fn return_words(order: Order) -> &'static str
    ensures { result.now ≡ return_words order }
{
    match order {
        Order::Leftmost => "no normal form",
        Order::Head => "no head normal form",
        Order::WeakHead => "no weak head normal form",
        Order::Applicative | Order::Value => "no end in this order",
    }
}
