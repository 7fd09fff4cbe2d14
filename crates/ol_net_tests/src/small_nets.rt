//! Small nets that more than one of the tests uses, by their names.

ghost use Rattle.std.specs.Prelude.{◌≡◌, ◌≤◌, IfOk, IsTrue, count_by, is_some, length};
ghost use Rattle.ol_wire.specs.Sizes.{IsSmallNet};

use ol_net::Net;
use ol_netfile::read_net;
use std::alloc::Global;
use std::test::Fail;

/// The names of the nets.
#[derive(Clone, Copy)]
pub enum Small {
    /// Two erasers that face each other.
    Erasers,
    /// A link of each sort.
    Links,
    /// A fan and an abstraction that face each other.
    Stuck,
    /// A bracket that faces an abstraction.
    Crossed,
    /// Two fans whose slots 1 are linked.
    Loop,
    /// Of (\x. x) (\y. y), which four steps make \y. y.
    Once,
    /// Of (\x. x x) (\y. y), which has one active pair, and which 17 steps make \y. y.
    Twice,
    /// Of (\x. x x) (\y. y y), which always has an active pair.
    Endless,
}

/// The text of a net.
fn text_of(small: Small) -> &'static [u8] {
    match small {
        Small::Erasers => b"ol net 1\nfree 0\nnode eraser -\nnode eraser -\nlink 0.0 1.0\n",
        Small::Links => {
            b"ol net 1\nfree 4\nnode app 0\nnode lam 0\nnode eraser -\nnode croissant 7\n\
            node eraser -\nlink f0 0.1\nlink f1 3.0\nlink f2 f3\nlink 0.0 1.0\nlink 0.2 2.0\n\
            link 1.1 1.2\nlink 3.1 4.0\n"
        }
        Small::Stuck => {
            b"ol net 1\nfree 4\nnode fan 0\nnode lam 0\n\
            link f0 0.1\nlink f1 0.2\nlink f2 1.1\nlink f3 1.2\nlink 0.0 1.0\n"
        }
        Small::Crossed => {
            b"ol net 1\nfree 3\nnode bracket 0\nnode lam 1\n\
            link f0 0.1\nlink f1 1.1\nlink f2 1.2\nlink 0.0 1.0\n"
        }
        Small::Loop => {
            b"ol net 1\nfree 2\nnode fan 0\nnode fan 0\n\
            link f0 0.2\nlink f1 1.2\nlink 0.0 1.0\nlink 0.1 1.1\n"
        }
        Small::Once => {
            b"ol net 1\nfree 1\nnode app 0\nnode lam 0\nnode croissant 0\nnode lam 1\n\
            node croissant 1\nlink f0 0.1\nlink 0.0 1.0\nlink 0.2 3.0\nlink 1.1 2.1\n\
            link 1.2 2.0\nlink 3.1 4.1\nlink 3.2 4.0\n"
        }
        Small::Twice => {
            b"ol net 1\nfree 1\nnode app 0\nnode lam 0\nnode app 0\nnode croissant 0\n\
            node croissant 1\nnode bracket 0\nnode fan 0\nnode lam 1\nnode croissant 1\n\
            link f0 0.1\nlink 0.0 1.0\nlink 0.2 7.0\nlink 1.1 2.1\nlink 1.2 6.0\nlink 2.0 3.1\n\
            link 2.2 4.1\nlink 3.0 6.1\nlink 4.0 5.1\nlink 5.0 6.2\nlink 7.1 8.1\nlink 7.2 8.0\n"
        }
        Small::Endless => {
            b"ol net 1\nfree 1\nnode app 0\nnode lam 0\nnode app 0\nnode croissant 0\n\
            node croissant 1\nnode bracket 0\nnode fan 0\nnode lam 1\nnode app 1\n\
            node croissant 1\nnode croissant 2\nnode bracket 1\nnode fan 1\nlink f0 0.1\n\
            link 0.0 1.0\nlink 0.2 7.0\nlink 1.1 2.1\nlink 1.2 6.0\nlink 2.0 3.1\nlink 2.2 4.1\n\
            link 3.0 6.1\nlink 4.0 5.1\nlink 5.0 6.2\nlink 7.1 8.1\nlink 7.2 12.0\nlink 8.0 9.1\n\
            link 8.2 10.1\nlink 9.0 12.1\nlink 10.0 11.1\nlink 11.0 12.2\n"
        }
    }
}

/// The net is small enough to be rewritten and laid out.
fn is_small(net: &Net) -> bool
    ensures few { IsTrue result → length net.now.nodes ≤ 100 }
    ensures whole { IsTrue result → count_by is_some net.now.nodes ≡ length net.now.nodes }
    ensures small { IsTrue result → IsSmallNet net.now }
{
    net.nodes() == net.born()
        && net.born() <= 100
        && net.free_ports() <= 1_000_000
        && net.top_index() <= 1_000_000
}

/// The net of a name.
pub fn net_of(alloc: Global, small: Small) -> Result<Net, Fail>
    ensures few { IfOk result (λ net. length net.nodes ≤ 100) }
    ensures whole { IfOk result (λ net. count_by is_some net.nodes ≡ length net.nodes) }
    ensures small { IfOk result (λ net. IsSmallNet net) }
{
    let text = text_of(small);
    if text.len() > 1_000 {
        return Err("long")?;
    }
    let net = read_net(alloc, text).ok().ok_or("refused")?;
    if !is_small(&net) {
        return Err("large")?;
    }
    Ok(net)
}
