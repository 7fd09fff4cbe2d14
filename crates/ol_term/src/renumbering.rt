//! The free names of a term, numbered by another list.

ghost use Rattle.std.specs.Prelude.{◌≡◌, [], slice_index_or};
ghost use Rattle.ol_term.specs.Trees as trees;
ghost use Rattle.ol_term.specs.Trees.{tree_of};
ghost use Rattle.ol_term.specs.NameLists.{position_of, free_at, in_table};

use crate::name_list::Names;
use crate::terms::Term;

// The place of a name in a table, or 0 if the table doesn't contain it.
fn place_of(table: &Names, name: &[u8]) -> u32
    ensures { trees.free result ≡ free_at (position_of name.now table.now) }
{
    match table.find(name) {
        Some(place) => place,
        None => 0,
    }
}

// The name with a number, or no bytes if there is none.
fn name_of(names: &Names, k: u32) -> &[u8]
    ensures { result.now ≡ slice_index_or names.now k [] }
{
    match names.get(k) {
        Some(name) => name,
        None => b"",
    }
}

/// Numbers each free name of a term by its place in a table, or as 0 if the table doesn't contain
/// it. The call depth is the depth of the term.
pub fn renumber(term: &mut Term, names: &Names, table: &Names)
    ensures { tree_of term.new ≡ in_table table.now names.now (tree_of term.old) }
{
    match term {
        Term::Var(_) => {}
        Term::Free(k) => {
            *k = place_of(table, name_of(names, *k));
        }
        Term::Lam(body) => renumber(body, names, table),
        Term::App(function, argument) => {
            renumber(function, names, table);
            renumber(argument, names, table);
        }
    }
}
