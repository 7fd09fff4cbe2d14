//! A reading that ends where a place is asked.

ghost use Rattle.std.specs.Prelude.{◌≡◌, ◌<◌, ◌≤◌, length, slice_index_or, IfOk};
ghost use Rattle.ol_net.specs.Numbered.{net_of};
ghost use Rattle.ol_readback.specs.ReadTrees.{IsTree};
ghost use Rattle.ol_readback.specs.declared.answers.ReadNode.{ReadNode};
ghost use Rattle.ol_decoding.specs.AddedLines.{IsSeen};

use crate::questioning::questions;
use ol_context::Values;
use ol_limits::NoMemory;
use ol_net::Net;
use ol_readback::{Asked, Asks, Head, ReadTree, head, read};
use std::alloc::Global;

/// Paths of at most so many crossings, up to the place with this number. There the reading ends,
/// and `seen` has the lines of that place.
#[derive(Drop)]
pub struct Watch {
    pub edges: u64,
    pub place: u32,
    pub question: Option<u32>,
    pub lines: u32,
    pub seen: Vec<u8>,
}

impl<'a> Asks<&'a Net> for Watch {
    ghost use Rattle.std.specs.Prelude.{⊤, ◌≡◌};
    ghost use Rattle.ol_decoding.specs.AddedLines.{IsWatched, IsSeen};

    ghost free = { λ n. n.now.free };

    ghost ready = { λ w n. ⊤ };

    ghost reads = { λ w n w' n' heads r. IsWatched n.now n'.now heads w.edges w'.edges w.place
        w'.place r × (w'.question ≡ w.question) × (w'.lines ≡ w.lines) };

    ghost ends = { λ w n w' n' heads.
        IsSeen n.now heads w.edges w.place w.question w.lines w'.seen.items };

    ghost stops = { λ w n w' n' heads. ⊤ };

    fn ask(
        &mut self,
        alloc: Global,
        net: &mut &'a Net,
        values: &mut Values,
        asked: &Asked<'_>,
    ) -> Result<Option<Head>, NoMemory> {
        let seen: &Net = net;
        seen.is_net();
        if asked.at == self.place {
            let frame = &asked.frames[asked.at as usize];
            let told = questions(alloc, seen, values, frame, self.question, self.lines)?;
            self.seen = told;
            return Ok(None);
        }
        let head = head(alloc, seen, values, asked.frames, asked.at, self.edges)?;
        Ok(Some(head))
    }

    ghost may_stop = { λ s n s' n' heads r h. tt };
}

/// The lines of a place of the tree that is read of a net, which is one of the places that are
/// asked. `NoMemory`: no memory was found.
pub fn seen_at(
    alloc: Global,
    net: &Net,
    tree: &ReadTree,
    heads: u32,
    watch: Watch,
) -> Result<Vec<u8>, NoMemory>
    requires root { 0 < net.now.free }
    requires tree { IsTree (net_of net.now) heads watch.edges tree.now }
    requires there { watch.place < length tree.now }
    requires asked { watch.place < heads }
    ensures { IfOk result (λ text.
        IsSeen net.now heads watch.edges watch.place watch.question watch.lines text.items) }
{
    net.is_net();
    let mut watch = watch;
    let mut seen = net;
    let places = read(alloc, &mut watch, &mut seen, heads)?;
    match places {
        None => Ok(watch.seen),
        Some(nodes) => unreachable!(),
    }
}
