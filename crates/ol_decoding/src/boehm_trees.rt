//! The command `tree`.

ghost use Rattle.std.specs.Prelude.{◌≡◌, ◌+◌, ◌-◌, ◌<◌, ◌≤◌, ◌↔◌, length, true, false, IfOk};
ghost use Rattle.ol_limits.specs.Limits.{most_nodes, most_term_bytes};
ghost use Rattle.ol_net.specs.Numbered.{net_of};
ghost use Rattle.ol_readback.specs.Sources.{HasHeadsOf};
ghost use Rattle.ol_readback.specs.Texts.{AreNamed};
ghost use Rattle.ol_law_meaning.specs.Shows.{LacksHead};
ghost use Rattle.ol_decoding.specs.Parts.{IsBoehmTree};
ghost use Rattle.ol_decoding.specs.ToldTrees.{TellsAll, IsTreeAnswer};
ghost use Rattle.ol_decoding.specs.TreesOfNets.{TellsNet};

use crate::asking::Parts;
use ol_limits::{Fuel, Heads, MOST_FUEL, NoMemory};
use ol_net::Net;
use ol_readback::{ReadNode, ReadTree, read, tree_text};
use ol_subjects::{Answer, End, TermRead, put, read_term};
use ol_term::{Names, Translation};
use std::alloc::Global;

fn is_lost(node: ReadNode) -> bool
    ensures { (result ≡ true) ↔ (node ≡ ReadNode.NoHead) }
{
    matches!(node, ReadNode::NoHead)
}

// Whether some place has no head.
fn lacks_head(tree: &ReadTree) -> bool
    ensures { (result ≡ true) ↔ LacksHead tree.now }
{
    for k in 0..tree.len() {
        let Some(node) = tree.get(k) else {
            unreachable!()
        };
        if is_lost(node) {
            return true;
        }
    }
    false
}

// Whether no place lacks a head, and there are no more than `heads` of them.
fn end_of(tree: &ReadTree, heads: u32) -> End
    ensures { TellsAll heads tree.now result }
{
    if lacks_head(tree) {
        return End::No;
    }
    if tree.len() > heads {
        End::No
    } else {
        End::Yes
    }
}

// The tree of a net.
fn tree_of(
    alloc: Global,
    net: &mut Net,
    depth: u32,
    fuel: Fuel,
    heads: Heads,
) -> Result<ReadTree, NoMemory>
    requires few { length net.old.nodes ≤ most_nodes }
    requires root { 0 < net.old.free }
    ensures tree { IfOk result (λ t. IsBoehmTree net.old depth heads.most fuel.most t) }
    ensures heads { IfOk result (λ t. HasHeadsOf (net_of net.old) false t) }
    ensures named { IfOk result (λ t. AreNamed (net.old.free - 1) t) }
{
    net.is_net();
    let mut parts = Parts {
        depth,
        fuel: fuel.most,
        left: MOST_FUEL,
    };
    let Some(nodes) = read(alloc, &mut parts, net, heads.most)? else {
        unreachable!()
    };
    Ok(ReadTree::of(nodes))
}

// The answer for a net whose free ports behind the first have these names.
fn of_net(
    alloc: Global,
    net: Net,
    names: &Names,
    depth: u32,
    fuel: Fuel,
    heads: Heads,
) -> Result<Answer, NoMemory>
    requires few { length net.nodes ≤ most_nodes }
    requires ports { net.free ≡ 1 + length names.now }
    ensures { IfOk result (λ a.
        TellsNet net names.now depth heads.most fuel.most a.text.items a.end) }
{
    let mut last = net;
    let tree = tree_of(alloc, &mut last, depth, fuel, heads)?;
    let mut text = tree_text(alloc, &tree, names)?;
    put(&mut text, b"\n")?;
    let end = end_of(&tree, heads.most);
    Ok(Answer { text, end })
}

/// The Böhm tree of a term down to some depth, as a line. The root is of depth 0, and an argument
/// of a head one deeper than it. The file has at most 1,048,576 bytes.
///
/// The net of the term's translation is read part by part, in preorder. A part that is less deep
/// than `depth` is asked for its head by demand order: its abstractions, its variable, and how many
/// arguments this has. At most `fuel` interactions are made for a part, and 8,000,000 for all of
/// them. So a part has less than `fuel` if fewer are left of these. If the places of the line
/// times `fuel` are at most 8,000,000, no part has less. A part for which no head is found so is
/// `?`, and the parts beside it are asked from there: steps keep the paths of a net. A part that
/// isn't asked is `...`: it is of this depth or deeper, or `heads` places stand before it. Each
/// head, `?` and `...` of the line is a place, so parts that are too deep count too.
///
/// - `Yes`: no part is `?`, and the line has at most `heads` places. So each part that is less deep
///   was asked, and has a head.
/// - `No`: some part is `?`, or the line has more than `heads` places, even if the places that are
///   too many are all too deep.
/// - `Refused`: `ol` refuses the file, by this line.
///
/// Each head is that of a head normal form of its part, to which head reduction leads (Barendregt,
/// The Lambda Calculus, 1984, chapters 8 and 10).
///
/// `NoMemory`: no memory was found.
pub fn tree(
    alloc: Global,
    bytes: &[u8],
    translation: Translation,
    depth: u32,
    fuel: Fuel,
    heads: Heads,
) -> Result<Answer, NoMemory>
    requires short { length bytes.now ≤ most_term_bytes }
    ensures { IfOk result (λ a.
        IsTreeAnswer bytes.now translation depth heads.most fuel.most a.text.items a.end) }
{
    match read_term(alloc, bytes, translation)? {
        TermRead::Refused(text) => {
            let end = End::Refused;
            Ok(Answer { text, end })
        }
        TermRead::Term { net, file } => {
            let answer = of_net(alloc, net, &file.names, depth, fuel, heads)?;
            Ok(answer)
        }
    }
}
