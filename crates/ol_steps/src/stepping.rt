//! The terms of a file's reduction, one after another.

ghost use Rattle.std.specs.Prelude.{◌≡◌, ℕ, List, ◌+◌, ◌++◌, ◌<◌, ◌≤◌, ◌^◌, ◌↔◌, ◌||◌, codes, length, true, None, IfOk, IsTrue, OnOk};
ghost use Rattle.ol_term.specs.declared.translations.Translation.TheVariants.{Two};
ghost use Rattle.ol_term.specs.Trees.{tree_of, is_below, is_named_below, term_size, depth};
ghost use Rattle.ol_beta.specs.Beta.{IsWithin};
ghost use Rattle.ol_limits.specs.Limits.{most_term_bytes};
ghost use Rattle.ol_strategies.specs.Redexes.{next};
ghost use Rattle.ol_strategies.specs.Ends.{IsEnd};
ghost use Rattle.ol_strategies.specs.declared.orders.Reached.{Reached};
ghost use Rattle.ol_subjects.specs.Subjects.{IsTerm};
ghost use Rattle.ol_parse.specs.Grammar.{Named};
ghost use Rattle.ol_parse.specs.Texts.{IsText};
ghost use Rattle.ol_steps.specs.Binders.{binders_of};
ghost use Rattle.ol_steps.specs.Contraction.{contracted};
ghost use Rattle.ol_steps.specs.Trees.{binders_in};
ghost use Rattle.ol_steps.specs.EarlierTerms.{glossary_of};
ghost use Rattle.ol_steps.specs.Steps.{glossary, last_line, lines_of_step, past_line, reached_end, reached_words, return_line, shown_line, step_lines, unfold_line, unfolding_after, HasLets, Tells, IsSource, IsStepsOf};

use crate::contracting::contract;
use crate::earlier::Earlier;
use crate::finding::step_of;
use crate::fronts::front_lets;
use crate::lets::{Lets, lets_of};
use crate::lines::{moves_of, past_line, put_last, reached_end, reached_words, return_line};
use crate::showing::{Place, View, put_made, put_shown, put_step};
use crate::sources::binders;
use crate::trees::BinderTree;
use ol_beta::{Address, BetaFault, beta};
use ol_limits::{MOST_DEPTH, MOST_SIZE, NoMemory};
use ol_strategies::{Order, reached, redex};
use ol_subjects::{Answer, End, TermRead, put, read_term};
use ol_term::{Names, Term, TermFile, Translation, depth, size};
use std::alloc::Global;
use std::mem;

/// How reduction is shown.
#[derive(Clone, Copy, Debug, PartialEq, Eq)]
pub struct Shown {
    /// Which redex is contracted next.
    pub order: Order,
    /// Whether carets stand under the redex that is contracted next.
    pub marked: bool,
    /// Whether binders keep the names that they have in the source.
    pub named: bool,
    /// Whether parts that are the value of a let at the front are written by its name, and steps
    /// that only unfold such a let are one line.
    pub folded: bool,
}

/// Whether a term is one that steps are made from: it has at most 100,000 constructors, at most
/// 1,000 of them one within another.
pub fn is_within(term: &Term) -> bool
    requires few { term_size (tree_of term.now) < 2 ^ 64 }
    ensures { IsTrue result ↔ IsWithin (tree_of term.now) }
{
    size(term) <= MOST_SIZE as u64 && depth(term) <= MOST_DEPTH as u64
}

// The names of a term's binders after contraction of the redex at an address.
fn contracted(
    alloc: Global,
    term: &Term,
    binders: &BinderTree,
    at: &Address,
) -> Result<BinderTree, NoMemory>
    requires within { IsWithin (tree_of term.now) }
    ensures { IfOk result (λ s. binders_in s
        ≡ contracted (tree_of term.now) (binders_in binders.now) at.now) }
{
    let moves = moves_of(alloc, at)?;
    let after = contract(alloc, term, binders, &moves)?;
    Ok(after)
}

// The last lines, where the term of a step is that of an earlier one.
fn put_return(
    alloc: Global,
    text: &mut Vec<u8>,
    view: &View,
    here: &Place,
    redex: &Option<Address>,
    made: usize,
    earlier: usize,
) -> Result<(), NoMemory>
    requires bound { is_below 0 (tree_of here.now.term) ≡ true }
    requires named { is_named_below view.now.lets.first (tree_of here.now.term) ≡ true }
    requires within { IsWithin (tree_of here.now.term) }
    requires names { length view.now.names
        ≡ view.now.lets.first + length view.now.lets.rows.items }
    requires redex { redex.now ≡ next view.now.how.order (tree_of here.now.term) }
    ensures { OnOk result (text.new.items ≡ (text.old.items ++ (unfold_line here.now.seen
        ++ shown_line view.now.how (glossary_of view.now.names view.now.lets)
        (tree_of here.now.term) (binders_in here.now.binders)))
        ++ return_line view.now.how.order made earlier) }
{
    put_shown(alloc, text, view, here, redex)?;
    let line = return_line(alloc, view.how.order, made, earlier)?;
    put(text, &line)?;
    Ok(())
}

// The last lines, where the order has no redex in a term.
fn put_end(
    alloc: Global,
    text: &mut Vec<u8>,
    view: &View,
    here: &Place,
    redex: &Option<Address>,
    made: usize,
) -> Result<End, NoMemory>
    requires bound { is_below 0 (tree_of here.now.term) ≡ true }
    requires named { is_named_below view.now.lets.first (tree_of here.now.term) ≡ true }
    requires within { IsWithin (tree_of here.now.term) }
    requires names { length view.now.names
        ≡ view.now.lets.first + length view.now.lets.rows.items }
    requires redex { redex.now ≡ next view.now.how.order (tree_of here.now.term) }
    requires none { redex.now ≡ None }
    ensures { IfOk result (λ e. (word : Reached)
        × IsEnd view.now.how.order (tree_of here.now.term) word × (e ≡ reached_end word)
        × (text.new.items ≡ (text.old.items ++ (unfold_line here.now.seen
        ++ shown_line view.now.how (glossary_of view.now.names view.now.lets)
        (tree_of here.now.term) (binders_in here.now.binders)))
        ++ last_line (reached_words word) made)) }
{
    put_shown(alloc, text, view, here, redex)?;
    let word = reached(view.how.order, &here.term);
    put_last(alloc, text, reached_words(word).as_bytes(), made)?;
    Ok(reached_end(word))
}

// The last lines, where all steps were made.
fn put_left(
    alloc: Global,
    text: &mut Vec<u8>,
    view: &View,
    here: &Place,
    redex: &Option<Address>,
    made: usize,
) -> Result<(), NoMemory>
    requires bound { is_below 0 (tree_of here.now.term) ≡ true }
    requires named { is_named_below view.now.lets.first (tree_of here.now.term) ≡ true }
    requires within { IsWithin (tree_of here.now.term) }
    requires names { length view.now.names
        ≡ view.now.lets.first + length view.now.lets.rows.items }
    requires redex { redex.now ≡ next view.now.how.order (tree_of here.now.term) }
    ensures { OnOk result (text.new.items ≡ (text.old.items ++ (unfold_line here.now.seen
        ++ step_lines view.now.how (glossary_of view.now.names view.now.lets)
        (tree_of here.now.term) (binders_in here.now.binders)))
        ++ last_line (codes "a redex is left") made) }
{
    put_step(alloc, text, view, here, redex)?;
    put_last(alloc, text, b"a redex is left", made)
}

// The last lines, where the next step gives a term of this size and depth, which is out of bounds.
fn put_past(
    alloc: Global,
    text: &mut Vec<u8>,
    view: &View,
    here: &Place,
    redex: &Option<Address>,
    made: usize,
    size: u64,
    depth: u64,
) -> Result<(), NoMemory>
    requires bound { is_below 0 (tree_of here.now.term) ≡ true }
    requires named { is_named_below view.now.lets.first (tree_of here.now.term) ≡ true }
    requires within { IsWithin (tree_of here.now.term) }
    requires names { length view.now.names
        ≡ view.now.lets.first + length view.now.lets.rows.items }
    requires redex { redex.now ≡ next view.now.how.order (tree_of here.now.term) }
    ensures { OnOk result (text.new.items ≡ (text.old.items ++ (unfold_line here.now.seen
        ++ step_lines view.now.how (glossary_of view.now.names view.now.lets)
        (tree_of here.now.term) (binders_in here.now.binders)))
        ++ past_line made size depth) }
{
    put_step(alloc, text, view, here, redex)?;
    let line = past_line(alloc, made, size, depth)?;
    put(text, &line)?;
    Ok(())
}

// The lines of a step that is made, and where it leads to.
fn step_on(
    alloc: Global,
    text: &mut Vec<u8>,
    view: &View,
    here: &Place,
    redex: &Option<Address>,
    at: &Address,
    after: Term,
) -> Result<Place, NoMemory>
    requires bound { is_below 0 (tree_of here.now.term) ≡ true }
    requires named { is_named_below view.now.lets.first (tree_of here.now.term) ≡ true }
    requires within { IsWithin (tree_of here.now.term) }
    requires names { length view.now.names
        ≡ view.now.lets.first + length view.now.lets.rows.items }
    requires redex { redex.now ≡ next view.now.how.order (tree_of here.now.term) }
    requires few { here.now.seen.made + 1 < 2 ^ 32 }
    requires hidden { here.now.seen.hidden ≤ here.now.seen.made }
    ensures text { OnOk result (text.new.items ≡ text.old.items ++ lines_of_step view.now.how
        (glossary_of view.now.names view.now.lets) here.now.seen (tree_of here.now.term)
        (binders_in here.now.binders)) }
    ensures term { IfOk result (λ p. p.term ≡ after) }
    ensures binders { IfOk result (λ p. binders_in p.binders
        ≡ contracted (tree_of here.now.term) (binders_in here.now.binders) at.now) }
    ensures seen { IfOk result (λ p. p.seen
        ≡ unfolding_after view.now.how.order here.now.seen (tree_of here.now.term)) }
{
    let seen = put_made(alloc, text, view, here, redex)?;
    let binders = contracted(alloc, &here.term, &here.binders, at)?;
    Ok(Place {
        term: after,
        binders,
        seen,
    })
}

// The terms from one that is within bounds, by at most so many steps.
fn walk(
    alloc: Global,
    view: &View,
    term: Term,
    binders: BinderTree,
    count: u32,
    most: u32,
) -> Result<Answer, NoMemory>
    requires bound { is_below 0 (tree_of term) ≡ true }
    requires named { is_named_below view.now.lets.first (tree_of term) ≡ true }
    requires within { IsWithin (tree_of term) }
    requires names { length view.now.names
        ≡ view.now.lets.first + length view.now.lets.rows.items }
    ensures { IfOk result (λ a. Tells view.now.how (glossary_of view.now.names view.now.lets) count
        most (tree_of term) (binders_in binders) a.text.items a.end) }
{
    let mut text = Vec::new(alloc);
    let mut kept: Vec<Earlier> = Vec::new(alloc);
    let mut here = Place::first(term, binders, count);
    loop {
        let made = kept.len();
        let next = redex(alloc, view.how.order, &here.term)?;
        if let Some(earlier) = step_of(&kept, &here.term) {
            put_return(alloc, &mut text, view, &here, &next, made, earlier)?;
            let end = End::No;
            return Ok(Answer { text, end });
        }
        let Some(at) = &next else {
            let end = put_end(alloc, &mut text, view, &here, &next, made)?;
            return Ok(Answer { text, end });
        };
        if made == most as usize {
            put_left(alloc, &mut text, view, &here, &next, made)?;
            let end = End::No;
            return Ok(Answer { text, end });
        }
        match beta(alloc, &here.term, at) {
            Ok(after) => {
                let behind = step_on(alloc, &mut text, view, &here, &next, at, after)?;
                let before = mem::replace(&mut here, behind);
                kept.push(Earlier::of(before.term))?;
            }
            Err(fault) => match fault {
                BetaFault::Past { size, depth } => {
                    put_past(alloc, &mut text, view, &here, &next, made + 1, size, depth)?;
                    let end = End::No;
                    return Ok(Answer { text, end });
                }
                BetaFault::NotRedex => unreachable!(),
                BetaFault::NoMemory => return Err(NoMemory),
            },
        }
    }
}

// The answer where the term itself is out of bounds.
fn too_large(alloc: Global, term: &Term) -> Result<Answer, NoMemory>
    requires few { term_size (tree_of term.now) < 2 ^ 64 }
    ensures text { IfOk result (λ a. a.text.items
        ≡ past_line 0 (term_size (tree_of term.now)) (depth (tree_of term.now))) }
    ensures no { IfOk result (λ a. a.end ≡ End.No) }
{
    let text = past_line(alloc, 0, size(term), depth(term))?;
    let end = End::No;
    Ok(Answer { text, end })
}

// The names of the binders of a file's term, if they are wanted.
fn own_binders(alloc: Global, bytes: &[u8], wanted: bool) -> Result<BinderTree, NoMemory>
    ensures { IfOk result (λ s. wanted ≡ true → (t : Named) → IsText bytes.now t
        → binders_in s ≡ binders_of t) }
{
    if wanted {
        let own = binders(alloc, bytes)?;
        return Ok(own);
    }
    Ok(BinderTree::Leaf)
}

// How many lets at the front of a file are told apart: all, if it is wanted.
fn lets_told(bytes: &[u8], all: bool) -> u32
    requires short { length bytes.now ≤ most_term_bytes }
    ensures { HasLets all bytes.now result }
{
    if all { front_lets(bytes) } else { 0 }
}

// The answer for the term of a file, which is within bounds.
fn of_small(
    alloc: Global,
    file: TermFile,
    own: BinderTree,
    count: u32,
    how: Shown,
    most: u32,
) -> Result<Answer, NoMemory>
    requires within { IsWithin (tree_of file.term) }
    ensures { IfOk result (λ a. Tells how
        (glossary file.names count (tree_of file.term) (binders_in own)) count most
        (tree_of file.term) (binders_in own) a.text.items a.end) }
{
    let mut names = file.names;
    let lets = lets_of(alloc, &mut names, count, &own, &file.term)?;
    let view = View { how, names, lets };
    let answer = walk(alloc, &view, file.term, own, count, most)?;
    Ok(answer)
}

// The answer for the term of a file.
fn of_file(
    alloc: Global,
    file: TermFile,
    own: BinderTree,
    count: u32,
    how: Shown,
    most: u32,
) -> Result<Answer, NoMemory>
    requires few { term_size (tree_of file.term) < 2 ^ 64 }
    ensures { IfOk result (λ a. (bytes : List ℕ) →
        IsTerm Two bytes (tree_of file.term) file.names
        → IsSource (how.named || how.folded) bytes (binders_in own)
        → HasLets how.folded bytes count
        → IsStepsOf bytes how most a.text.items a.end) }
{
    if is_within(&file.term) {
        let answer = of_small(alloc, file, own, count, how, most)?;
        Ok(answer)
    } else {
        let answer = too_large(alloc, &file.term)?;
        Ok(answer)
    }
}

fn needs_binders(how: Shown) -> bool
    ensures { result ≡ (how.named || how.folded) }
{
    how.named || how.folded
}

// The answer for a text of the term of a file.
fn of_text(
    alloc: Global,
    bytes: &[u8],
    file: TermFile,
    how: Shown,
    most: u32,
) -> Result<Answer, NoMemory>
    requires few { term_size (tree_of file.term) < 2 ^ 64 }
    requires short { length bytes.now ≤ most_term_bytes }
    ensures { IfOk result (λ a.
        IsTerm Two bytes.now (tree_of file.term) file.names
        → IsStepsOf bytes.now how most a.text.items a.end) }
{
    let own = own_binders(alloc, bytes, needs_binders(how))?;
    let count = lets_told(bytes, how.folded);
    let answer = of_file(alloc, file, own, count, how, most)?;
    Ok(answer)
}

/// The terms of reduction in an order, one under another, by at most `most` steps. Each has the
/// address of the redex that comes next, but for one that is that of an earlier step. If the redex
/// is to be marked, a line between the two has carets under its text, without brackets round it.
/// Law `redexes_are_marked` says so of terms that aren't folded, and `folded_redexes_are_marked` of
/// those that are. If binders are to keep their names, each has the one that it has in the file,
/// with as few primes as keep it from every free name and every binder round it that is used in its
/// body. The file has a term that `ol` takes by translation 2, in at most 1,048,576 bytes. Step 0
/// is the term itself.
///
/// If terms are to be folded, each abstraction or application that is the value of a let at the
/// front of the file is written by its name. The redex that comes next isn't, nor is what it stands
/// in, but its function and its argument may be. If a part is the value of several lets, it is
/// written by the names of those whose binders have the names of the part's binders, or, if there
/// are none, by the names of all, with a bar between each two names (`words_are_shown`). A let
/// counts if its value is closed, where those of the lets before it are put in, and its name is no
/// free name and no later let's. If a let gives a term that is out of the bounds below, none after
/// it counts. Steps one after another that only unfold a let are one line, which says how many they
/// are, and the step whose term comes next. Steps are counted as ever (`each_step_counts`), and the
/// end and the last line are those without folding (`showing_changes_no_end`).
///
/// - `Yes`: the last term is what the order ends in, and the last line has the order's word for it:
///   a normal form, for leftmost and applicative order; a head normal form; a weak head normal form;
///   for call-by-value a value.
/// - `No`: call-by-value is stuck at a free name; or the term of the last step is that of an earlier
///   one; or all steps were made and a redex is left; or the next step would give a term of more than
///   100,000 constructors or of more than 1,000 of them one within another; the last line has the
///   size and the depth of this term, and the limits of both.
/// - `Refused`: `ol` refuses the file, by this line.
///
/// A term that comes back ends the answer at the first step whose term is that of an earlier step.
/// Then the order has no end, and the last line says what the source hasn't got
/// (`returns_are_endless`).
///
/// `NoMemory`: no memory was found.
pub fn steps(alloc: Global, bytes: &[u8], how: Shown, most: u32) -> Result<Answer, NoMemory>
    requires short { length bytes.now ≤ most_term_bytes }
    ensures { IfOk result (λ a. IsStepsOf bytes.now how most a.text.items a.end) }
{
    match read_term(alloc, bytes, Translation::Two)? {
        TermRead::Refused(text) => {
            let end = End::Refused;
            Ok(Answer { text, end })
        }
        TermRead::Term { file, .. } => {
            let answer = of_text(alloc, bytes, file, how, most)?;
            Ok(answer)
        }
    }
}
