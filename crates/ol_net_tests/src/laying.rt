//! A net with a link of each sort, laid out in words.

use crate::closing::closed;
use crate::small_nets::Small;
use ol_wire::Words;
use std::alloc::Global;
use std::test::Fail;

/// How the words are laid out, how many entries they tell, and each of them.
fn shown(alloc: Global, words: &Words) -> Result<String, Fail> {
    let parts = words.parts();
    let events = words.events();
    let mut text = format!(in alloc; "{parts:?} {events}:")?;
    for at in 0..50u32 {
        let Some(word) = words.word(at) else {
            return Ok(text);
        };
        write!(text, " {word}")?;
    }
    Ok(text)
}

/// - The ticket word, the live word for one active pair, and the free ports: port 1 is linked to
///   node 3, and port 2 to port 3.
/// - The fields of the application: port 0, and node 2. The two of the abstraction: their wire.
/// - Of an eraser, of the croissant: node 4, and of the other eraser.
/// - The wire, the cell of the application and the abstraction, and the block of a ticket.
#[test]
fn lays_a_net_out(rt: HostRuntime) -> Result<(), Fail> {
    let words = closed(rt.alloc(), Small::Links, 1, [].as_slice())?;
    let text = shown(rt.alloc(), &words)?;
    assert!(rt;
        text.as_bytes()
            == b"Parts { free: 4, nodes: 5, wires: 1, cells: 1, fuel: 1 } 0: \
            0 1 0 6442451181 2684354562 0 \
            1073741826 5368709141 8589934594 8589934594 \
            0 0 7516192789 0 0 0 \
            0 3221225477 4294967297 \
            0 0 0 0 0 0 0 0 0 0 0 0 0 0 0 0 0 0 0 0 0 0"
                .as_slice(),
        "{text}"
    );
    Ok(())
}
