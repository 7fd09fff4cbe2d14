//! Views: what a seat knows and holds. Views exist in contracts only, and take no memory.
ghost use Rattle.std.specs.Prelude.{ℕ, List, Bool};
ghost use Rattle.std.specs.Borrow.{ftrue};
ghost use Rattle.ol_net.specs.Graph.{Graph};
ghost use Rattle.ol_rules.specs.declared.journal.Entry.{Entry};
ghost use Rattle.ol_wire.specs.declared.layout.Parts.{Parts};
ghost use Rattle.ol_wire.specs.declared.view.Link.{Link};

use std::marker::Model;

/// A pending link of an interaction: its two ends, as references, and the number of the left word
/// of the cell in which the ends are published if both are nodes.
pub struct Link {
    pub cell: u64,
    pub one: u64,
    pub two: u64,
}

/// What a seat has done and what it holds. No value of this type exists at run time.
pub struct View {
    /// The cells of its claims, in order.
    pub ghost claimed: { List ℕ },
    /// The cells in which it published pairs, in order.
    pub ghost published: { List ℕ },
    /// Its tickets below the fuel, each with its trace entry.
    pub ghost made: { List (ℕ × Entry) },
    /// The left word that its last claim read, and the right word, after it was loaded.
    pub ghost last: { ℕ × ℕ },
    /// The cell of its last claim.
    pub ghost cell: { ℕ },
    /// Whether it has read a ticket at or above the fuel.
    pub ghost over: { Bool },
    /// The number of seats that are joined in it, including itself.
    pub ghost holds: { ℕ },
    /// The pair that it has claimed: the number of the cell's left word, and the word's content.
    pub ghost taken: { List (ℕ × ℕ) },
    /// Words that it has read and that never change: number and content.
    pub ghost known: { List (ℕ × ℕ) },
    /// The words of a block that it has still to write: number and content.
    pub ghost due: { List (ℕ × ℕ) },
    /// The links that it has still to make.
    pub ghost pending: { List Link },
    /// The wires that its exchanges removed, by the numbers of their words.
    pub ghost dead: { List ℕ },
    /// The number of cells, from the first cell, that contain no active pair as far as it knows,
    /// after all other seats were joined in it.
    pub ghost swept: { ℕ },
    /// Its part of the live word, for active pairs that its work may still publish: 1 for each link
    /// that it has to make, and 1 for the pair that it is rewriting.
    pub ghost owed: { ℕ },
    /// Whether a load of the live word, by it or by a seat that was joined in it, read 0.
    pub ghost settled: { Bool },
    /// The values that its loads of the live word read, in order.
    pub ghost looked: { List ℕ },
    /// The layout and the number of seats of its table, and the table's initial net, which the
    /// contract of a step can't take from elsewhere.
    pub ghost parts: { Parts },
    pub ghost seats: { ℕ },
    pub ghost start: { Graph },
}

impl Model for View {
    ghost also_owns = { λ _. ftrue };
}
