//! Trees of the nets of small terms, and their printed texts.

ghost use Rattle.std.specs.Prelude.{◌≤◌, IfOk, length};
ghost use Rattle.ol_readback.specs.Texts.{AreNamed};
ghost use Rattle.ol_term.specs.Trees.{tree_of, depth, EachOccurs};

use crate::rows::{Asked, Question, assert_rows};
use crate::small_terms::{net_of, parsed};
use ol_invariance::run_kept;
use ol_readback::{ReadTree, read_back, tree_text};
use ol_term::{TermFile, Translation};
use std::alloc::Global;
use std::test::Fail;

/// The tree of a term's last net.
fn last_tree(alloc: Global, file: &TermFile, heads: u32, edges: u32) -> Result<ReadTree, Fail>
    requires each_name { EachOccurs (length file.now.names) (tree_of file.now.term) }
    requires shallow { depth (tree_of file.now.term) ≤ 1000 }
    ensures { IfOk result (λ tree. AreNamed (length file.now.names) tree) }
{
    let mut net = net_of(alloc, file, Translation::One)?;
    run_kept(alloc, &mut net, 1_000)?;
    let ports = net.free_ports();
    if heads < 1 || ports < 1 || ports - 1 != file.names.len() {
        return Err(Fail::from("names"));
    }
    let tree = read_back(alloc, &net, heads, edges as u64)?;
    Ok(tree)
}

/// What is printed of a term's last net, by `first` heads and walks of `second` crossings.
fn printed_bytes(alloc: Global, asked: Asked<'_>) -> Result<Vec<u8>, Fail> {
    let file = parsed(alloc, asked.text)?;
    let tree = last_tree(alloc, &file, asked.first, asked.second)?;
    let bytes = tree_text(alloc, &tree, &file.names)?;
    Ok(bytes)
}

/// The same as a text.
pub fn printed(alloc: Global, asked: Asked<'_>) -> Result<String, Fail> {
    let bytes = printed_bytes(alloc, asked)?;
    let text = str::from_utf8(bytes.as_slice()).unwrap_or("no text");
    Ok(String::from_str(alloc, text)?)
}

/// Binders, arguments that have some of their own, a name at two places; and 28 binders over a free
/// name: binder names go on past z, and leave the free name out. Then a net that 100 steps and more
/// rewrite.
#[test]
fn reads_and_prints(rt: HostRuntime) -> Result<(), Fail> {
    assert_rows(
        &rt,
        rt.alloc(),
        Question::Tree,
        b"9 12 - \\x y. x y => \\a b. a b
1 12 - \\x y. x y => \\a b. a ...
9 2 - \\x y. x y => ...
9 22 - \\f x. f (f x) => \\a b. a (a b)
2 22 - \\f x. f (f x) => \\a b. a (a ...)
9 10 - x x => x x
9 99 - \\x x x x x x x x x x x x x x x x x x x x x x x x x x x x. b => \\a c d e f g h i j k l m n o p q r s t u v w x y z a1 b1 c1. b
9 99 - let t = \\f x. f (f x) in t t => \\a b. a (a (a (a b)))",
    )
}
