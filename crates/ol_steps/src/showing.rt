//! Terms as they are shown: parts that are values of lets are written by their names, and steps
//! that only unfold a let are one line.

ghost use Rattle.std.specs.Prelude.{◌≡◌, ◌++◌, ◌+◌, ◌<◌, ◌≤◌, ◌^◌, length, true, IfOk, OnOk};
ghost use Rattle.ol_term.specs.Trees.{tree_of, is_below, is_named_below};
ghost use Rattle.ol_beta.specs.Beta.{IsWithin};
ghost use Rattle.ol_strategies.specs.Redexes.{next};
ghost use Rattle.ol_steps.specs.Trees.{binders_in};
ghost use Rattle.ol_steps.specs.Lets.{values_of_lets};
ghost use Rattle.ol_steps.specs.ValueTrees.{rows_of};
ghost use Rattle.ol_steps.specs.Folded.{folded_at, pruned};
ghost use Rattle.ol_steps.specs.EarlierTerms.{glossary_of};
ghost use Rattle.ol_steps.specs.Steps.{begun, lines_of_step, shown_line, shown_tree, step_lines, unfold_line, unfolding_after, unfolds};

use crate::folding::{fold, fold_round, prune};
use crate::lets::{Lets, is_let_at};
use crate::lines::{moves_of, put_how_many, put_redex, put_term};
use crate::stepping::Shown;
use crate::trees::BinderTree;
use crate::wording::word;
use ol_beta::Address;
use ol_limits::NoMemory;
use ol_subjects::{put, put_number};
use ol_term::{Names, Term};
use std::alloc::Global;

/// How far lets at the front are unfolded.
#[derive(Clone, Copy)]
pub struct Unfolding {
    /// How many are left.
    pub left: u32,
    /// How many were unfolded since a term was shown.
    pub hidden: u32,
    /// How many steps were made.
    pub made: u32,
}

/// What is shown of terms: how, the names that are printed, and the values of those of lets.
#[derive(Drop)]
pub struct View {
    pub how: Shown,
    pub names: Names,
    pub lets: Lets,
}

/// A term of a reduction: the names of its binders, and how far lets are unfolded before it.
#[derive(Drop)]
pub struct Place {
    pub term: Term,
    pub binders: BinderTree,
    pub seen: Unfolding,
}

impl Place {
    /// The first term of a reduction, where so many lets are at the front.
    pub fn first(term: Term, binders: BinderTree, lets: u32) -> Place
        ensures term { result.term ≡ term }
        ensures binders { result.binders ≡ binders }
        ensures seen { result.seen ≡ begun lets }
    {
        let seen = Unfolding {
            left: lets,
            hidden: 0,
            made: 0,
        };
        Place {
            term,
            binders,
            seen,
        }
    }
}

// The line for lets that were unfolded since a term was shown.
fn put_unfolded(alloc: Global, text: &mut Vec<u8>, seen: Unfolding) -> Result<(), NoMemory>
    ensures { OnOk result (text.new.items ≡ text.old.items ++ unfold_line seen) }
{
    if seen.hidden == 0 {
        return Ok(());
    }
    put_how_many(alloc, text, seen.hidden as usize, b"let")?;
    put(text, b" unfolded: step ")?;
    put_number(alloc, text, seen.made as u64)?;
    put(text, b"\n")
}

// A term whose parts are written by names, where a redex is at an address, or there is none.
fn folded(
    alloc: Global,
    lets: &Lets,
    term: &Term,
    redex: &Option<Address>,
) -> Result<Term, NoMemory>
    requires bound { is_below 0 (tree_of term.now) ≡ true }
    requires named { is_named_below lets.now.first (tree_of term.now) ≡ true }
    requires within { IsWithin (tree_of term.now) }
    ensures tree { IfOk result (λ t. tree_of t ≡ folded_at lets.now.first
        (values_of_lets (rows_of lets.now.rows.items)) redex.now (tree_of term.now)) }
    ensures bound { IfOk result (λ t. is_below 0 (tree_of t) ≡ true) }
    ensures named { IfOk result (λ t.
        is_named_below (lets.now.first + length lets.now.rows.items) (tree_of t) ≡ true) }
    ensures within { IfOk result (λ t. IsWithin (tree_of t)) }
{
    match redex {
        None => {
            let whole = fold(alloc, lets, term)?;
            Ok(whole)
        }
        Some(at) => {
            let moves = moves_of(alloc, at)?;
            let whole = fold_round(alloc, lets, term, &moves)?;
            Ok(whole)
        }
    }
}

// A term as it is shown.
fn written(
    alloc: Global,
    view: &View,
    here: &Place,
    redex: &Option<Address>,
) -> Result<Term, NoMemory>
    requires bound { is_below 0 (tree_of here.now.term) ≡ true }
    requires named { is_named_below view.now.lets.first (tree_of here.now.term) ≡ true }
    requires within { IsWithin (tree_of here.now.term) }
    requires redex { redex.now ≡ next view.now.how.order (tree_of here.now.term) }
    ensures tree { IfOk result (λ t. tree_of t ≡ shown_tree view.now.how
        (glossary_of view.now.names view.now.lets) (tree_of here.now.term)
        (binders_in here.now.binders)) }
    ensures bound { IfOk result (λ t. is_below 0 (tree_of t) ≡ true) }
    ensures named { IfOk result (λ t. is_named_below
        (view.now.lets.first + length view.now.lets.rows.items) (tree_of t) ≡ true) }
    ensures within { IfOk result (λ t. IsWithin (tree_of t)) }
{
    let whole = folded(alloc, &view.lets, &here.term, redex)?;
    let worded = word(alloc, &view.lets, &view.names, &whole, &here.binders)?;
    Ok(worded)
}

// The line of a term as it is shown, and of the lets that were unfolded before.
pub fn put_shown(
    alloc: Global,
    text: &mut Vec<u8>,
    view: &View,
    here: &Place,
    redex: &Option<Address>,
) -> Result<(), NoMemory>
    requires bound { is_below 0 (tree_of here.now.term) ≡ true }
    requires named { is_named_below view.now.lets.first (tree_of here.now.term) ≡ true }
    requires within { IsWithin (tree_of here.now.term) }
    requires names { length view.now.names
        ≡ view.now.lets.first + length view.now.lets.rows.items }
    requires redex { redex.now ≡ next view.now.how.order (tree_of here.now.term) }
    ensures { OnOk result (text.new.items ≡ text.old.items ++ (unfold_line here.now.seen
        ++ shown_line view.now.how (glossary_of view.now.names view.now.lets)
        (tree_of here.now.term) (binders_in here.now.binders))) }
{
    put_unfolded(alloc, text, here.seen)?;
    let whole = written(alloc, view, here, redex)?;
    let left = prune(alloc, &whole, &here.binders)?;
    put_term(alloc, text, &whole, &left, &view.names, view.how.named)?;
    Ok(())
}

// The same, and the lines of the redex, where there is one.
pub fn put_step(
    alloc: Global,
    text: &mut Vec<u8>,
    view: &View,
    here: &Place,
    redex: &Option<Address>,
) -> Result<(), NoMemory>
    requires bound { is_below 0 (tree_of here.now.term) ≡ true }
    requires named { is_named_below view.now.lets.first (tree_of here.now.term) ≡ true }
    requires within { IsWithin (tree_of here.now.term) }
    requires names { length view.now.names
        ≡ view.now.lets.first + length view.now.lets.rows.items }
    requires redex { redex.now ≡ next view.now.how.order (tree_of here.now.term) }
    ensures { OnOk result (text.new.items ≡ text.old.items ++ (unfold_line here.now.seen
        ++ step_lines view.now.how (glossary_of view.now.names view.now.lets)
        (tree_of here.now.term) (binders_in here.now.binders))) }
{
    put_unfolded(alloc, text, here.seen)?;
    let whole = written(alloc, view, here, redex)?;
    let left = prune(alloc, &whole, &here.binders)?;
    put_term(alloc, text, &whole, &left, &view.names, view.how.named)?;
    if let Some(at) = redex {
        put_redex(alloc, text, &whole, &left, &view.names, view.how, at)?;
    }
    Ok(())
}

// Whether a step only unfolds a let.
fn unfolds(alloc: Global, left: u32, redex: &Option<Address>) -> Result<bool, NoMemory>
    ensures { IfOk result (λ b. b ≡ unfolds left redex.now) }
{
    match redex {
        None => Ok(false),
        Some(at) => {
            let moves = moves_of(alloc, at)?;
            Ok(is_let_at(left, &moves))
        }
    }
}

// The lines of a step that is made, and how far lets are unfolded then.
pub fn put_made(
    alloc: Global,
    text: &mut Vec<u8>,
    view: &View,
    here: &Place,
    redex: &Option<Address>,
) -> Result<Unfolding, NoMemory>
    requires bound { is_below 0 (tree_of here.now.term) ≡ true }
    requires named { is_named_below view.now.lets.first (tree_of here.now.term) ≡ true }
    requires within { IsWithin (tree_of here.now.term) }
    requires names { length view.now.names
        ≡ view.now.lets.first + length view.now.lets.rows.items }
    requires redex { redex.now ≡ next view.now.how.order (tree_of here.now.term) }
    requires few { here.now.seen.made + 1 < 2 ^ 32 }
    requires hidden { here.now.seen.hidden ≤ here.now.seen.made }
    ensures text { OnOk result (text.new.items ≡ text.old.items ++ lines_of_step view.now.how
        (glossary_of view.now.names view.now.lets) here.now.seen (tree_of here.now.term)
        (binders_in here.now.binders)) }
    ensures seen { IfOk result (λ u. u
        ≡ unfolding_after view.now.how.order here.now.seen (tree_of here.now.term)) }
{
    let made = here.seen.made + 1;
    let left = here.seen.left;
    if unfolds(alloc, left, redex)? {
        let hidden = here.seen.hidden + 1;
        let left = left.saturating_sub(1);
        return Ok(Unfolding { left, hidden, made });
    }
    put_step(alloc, text, view, here, redex)?;
    let hidden = 0;
    Ok(Unfolding { left, hidden, made })
}
