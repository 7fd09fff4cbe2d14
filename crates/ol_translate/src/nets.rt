//! The net of a term.

ghost use Rattle.std.specs.Prelude.{◌≡◌, ◌≢◌, ◌≤◌, ◌<◌, ◌+◌, ◌↔◌, length, Err, IfOk};
ghost use Rattle.ol_term.specs.Trees.{tree_of, depth, EachOccurs};
ghost use Rattle.ol_net.specs.Nets.{SameNet};
ghost use Rattle.ol_net.specs.Numbered.{net_of, all_live};
ghost use Rattle.ol_net.specs.Indexes.{top_index_of};
ghost use Rattle.ol_translate.specs.Translation.{nodes_of, translation_of};
ghost use Rattle.ol_translate.specs.Sizes.{size_of_translation};
ghost use Rattle.ol_limits.specs.Limits.{most_nodes};

use crate::faults::TransFault;
use crate::parts::Parts;
use ol_net::{BuildFault, Net};
use ol_term::{TermFile, Translation};
use std::alloc::Global;

/// The net of a term by one of the two translations: Lamping's sharing graph, with croissants and
/// brackets for levels (Gonthier, Abadi and Lévy, The Geometry of Optimal Lambda Reduction, POPL
/// 1992). Variants of the translation exist; this docstring defines the variant used here.
///
/// The root, at level 0, is linked to free port 0, and free name k, from 0, has free port k + 1. A
/// variable occurrence at level n is a croissant of index n. An abstraction at level n is an
/// abstraction node of index n, whose body is at level n; an eraser ends its variable's wire if the
/// variable isn't free in the body. An application at level n is an application node of index n,
/// whose function is at level n and whose argument is at level n + 1. Each free variable of the
/// argument has a bracket of index n, and each variable that is free in both subterms also has a
/// fan of index n, each once, in the order of first occurrence in the argument. The principal port
/// of a croissant, a bracket and a fan points towards the binder.
///
/// Translation 2 has a special case for an argument that is a variable: the argument has no nodes,
/// and slot 2 of the application is the wire of the variable. If the variable is also free in the
/// function, a fan of index n joins the two wires: slot 1 is the function's wire, and slot 2 the
/// argument's wire.
///
/// Nodes are numbered from 0 in preorder: a node before the nodes of its subterms, the function
/// before the argument, an eraser after the body of its abstraction, and brackets followed by fans
/// after both subterms of their application.
///
/// Each name of the file occurs in its term, and the depth of the term is at most 1,000, as in
/// every file that is parsed; it follows that there are at most as many names as nodes. `TooMany`:
/// exactly if the net has more than 200,000 nodes; construction stops at the first node after
/// these. `NoMemory`: no memory was found.
pub fn translate(
    alloc: Global,
    file: &TermFile,
    translation: Translation,
) -> Result<Net, TransFault>
    requires each_name { EachOccurs (length file.now.names) (tree_of file.now.term) }
    requires shallow { depth (tree_of file.now.term) ≤ 1000 }
    ensures net { IfOk result (λ net. SameNet (net_of net)
        (translation_of translation (tree_of file.now.term) (length file.now.names))) }
    ensures numbers { IfOk result (λ net.
        net.nodes ≡ all_live (nodes_of translation (tree_of file.now.term))) }
    ensures size { IfOk result (λ net.
        length net.nodes ≡ size_of_translation translation (tree_of file.now.term)) }
    ensures free { IfOk result (λ net. net.free ≡ length file.now.names + 1) }
    ensures few_names { IfOk result (λ net. length file.now.names ≤ length net.nodes) }
    ensures indexes { IfOk result (λ net. top_index_of net.nodes ≤ 1000000) }
    ensures too_many { result ≢ Err TransFault.NoMemory → ((result ≡ Err TransFault.TooMany)
        ↔ (most_nodes < size_of_translation translation (tree_of file.now.term))) }
{
    let parts = Parts::whole(alloc, &file.term, translation)?;
    match Net::build(alloc, file.names.len() + 1, parts.nodes, parts.links) {
        Ok(net) => Ok(net),
        Err(fault) => match fault {
            BuildFault::NoMemory => Err(TransFault::NoMemory),
            // The parts of a term are those of a net.
            _ => unreachable!(),
        },
    }
}
