//! Whole traces, checked by a replay.

ghost use Rattle.std.specs.Prelude.{◌≤◌, length, IfOk};
ghost use Rattle.ol_net.specs.Nets.{IsNet};
ghost use Rattle.ol_net.specs.Numbered.{net_of};
ghost use Rattle.ol_view.specs.Checks.{start_net_of_graph, IsFound, OnlyIsFound, IsReadAgain};

use crate::answers::Check;
use crate::feeding::Checker;
use ol_limits::NoMemory;
use ol_net::Net;
use std::alloc::Global;

/// Checks the text of a trace, in either format, by a replay on a net whose nodes are named by
/// their numbers. The lines are checked in order; the first bad line decides.
///
/// - `BadText`: the grammar doesn't allow this line. The first line is `ol trace 1` or
///   `ol trace 2`. In format 1 each further line is two names, separated by a space, the smaller
///   name first. In format 2 the name of the rule, a space, the wave and a space precede them.
///   Numbers are at most 4,294,967,295, without leading zeros; a place is a digit from 0 to 3;
///   every line ends with a line feed; there are at most 8,000,000 entries. An empty text is bad at
///   line 1.
/// - `NotARun`: the grammar allows this line, but its pair isn't active after the preceding lines
///   or, in format 2, its rule or its wave is wrong.
/// - `Complete`: all lines are good, and no active pair is left.
/// - `Run`: all lines are good, and an active pair is left.
///
/// The net has given at most 1,000,000 node numbers. It is unchanged. `NoMemory`: no memory was
/// found.
pub fn check(alloc: Global, net: &Net, text: &[u8]) -> Result<Check, NoMemory>
    requires { length net.now.nodes ≤ 1000000 }
    ensures exact { IfOk result (OnlyIsFound (start_net_of_graph net.now) text.now) }
    ensures read_again { IfOk result (IsReadAgain (start_net_of_graph net.now) text.now) }
{
    let found = find(alloc, net, text)?;
    Ok(found)
}

// What is found of the text.
fn find(alloc: Global, net: &Net, text: &[u8]) -> Result<Check, NoMemory>
    requires { length net.now.nodes ≤ 1000000 }
    ensures found { IfOk result (IsFound (start_net_of_graph net.now) text.now) }
    ensures is_net { IsNet (net_of net.now) }
{
    net.is_net();
    let mut checker = Checker::new(alloc, net)?;
    match checker.feed(text)? {
        Some(found) => Ok(found),
        None => Ok(checker.finish()),
    }
}
