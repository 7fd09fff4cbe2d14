//! Small terms and their nets.

ghost use Rattle.std.specs.Prelude.{◌≤◌, IfOk, length};
ghost use Rattle.ol_term.specs.Trees.{tree_of, depth, EachOccurs};

use ol_net::Net;
use ol_parse::parse;
use ol_term::{TermFile, Translation};
use ol_translate::translate;
use std::alloc::Global;
use std::test::Fail;

/// The term of a text, whose depth is at most 1,000.
pub fn parsed(alloc: Global, input: &str) -> Result<TermFile, Fail>
    ensures each_name { IfOk result (λ file.
        EachOccurs (length file.names) (tree_of file.term)) }
    ensures shallow { IfOk result (λ file. depth (tree_of file.term) ≤ 1000) }
{
    if input.len() > 1000 {
        return Err(Fail::from("too long"));
    }
    let file = parse(alloc, input.as_bytes()).ok().ok_or("no term")?;
    Ok(file)
}

/// The net of a term by a translation. It has at most 200,000 nodes.
pub fn net_of(alloc: Global, file: &TermFile, translation: Translation) -> Result<Net, Fail>
    requires each_name { EachOccurs (length file.now.names) (tree_of file.now.term) }
    requires shallow { depth (tree_of file.now.term) ≤ 1000 }
    ensures { IfOk result (λ net. length net.nodes ≤ 200000) }
{
    let net = translate(alloc, file, translation).ok().ok_or("no net")?;
    if net.born() > 200_000 {
        return Err(Fail::from("too large"));
    }
    Ok(net)
}
