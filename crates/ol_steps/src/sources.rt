//! The names of a whole text.

ghost use Rattle.std.specs.Prelude.{ℕ, List, ◌≡◌, IfOk};
ghost use Rattle.ol_parse.specs.Grammar.{Named};
ghost use Rattle.ol_parse.specs.Texts.{IsText};
ghost use Rattle.ol_steps.specs.Binders.{binders_of};
ghost use Rattle.ol_steps.specs.Trees.{binders_in};

use crate::bytes::{Place, look, look_at_end};
use crate::tokens::{Reading, Round, ended};
use crate::trees::BinderTree;
use ol_limits::NoMemory;
use std::alloc::Global;

/// The names that the binders of a text's term have in the text, in the shape of the term. Where
/// the bytes are no text of the grammar, what is given says nothing. `NoMemory`: no memory was
/// found.
pub fn binders(alloc: Global, bytes: &[u8]) -> Result<BinderTree, NoMemory>
    ensures { IfOk result (λ s. (t : Named) → IsText bytes.now t → binders_in s ≡ binders_of t) }
{
    let mut rounds: Vec<Round> = Vec::new(alloc);
    let mut place = Place::Gap;
    let mut reading = Reading::Term(None);
    for k in 0..bytes.len() {
        let (next, then) = look(alloc, bytes, k, place, reading, &mut rounds)?;
        place = next;
        reading = then;
    }
    let reading = look_at_end(alloc, bytes, place, reading, &mut rounds)?;
    let tree = ended(alloc, reading, &mut rounds)?;
    Ok(tree)
}
