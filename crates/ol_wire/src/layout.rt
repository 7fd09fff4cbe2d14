//! The layout of a table's words.
ghost use Rattle.std.specs.Prelude.{◌≡◌, ℕ, ◌+◌, ◌*◌, ◌<◌, ◌≤◌};
ghost use Rattle.ol_limits.specs.Limits.{most_fuel};
ghost use Rattle.ol_wire.specs.References.{place_in};
ghost use Rattle.ol_wire.specs.Layout.{port_word, start_node, start_wire, start_cell, block, table_size, left_word, cells_of, born_wire, born_cell};
ghost use Rattle.ol_wire.specs.Sizes.{IsSmall};
ghost use Rattle.ol_wire.specs.StepPlays.{IsNodeOf};

use crate::reference::place_in;

/// The numbers of parts of a table.
#[derive(Clone, Copy, Debug, PartialEq, Eq)]
pub struct Parts {
    /// The number of free ports. Each free port has a word.
    pub free: u32,
    /// The number of nodes of the initial net. Each node has two words, the fields of its auxiliary
    /// ports, slots 1 and 2.
    pub nodes: u32,
    /// The number of links between two auxiliary ports of the initial net. Each of these links has
    /// a word.
    pub wires: u32,
    /// The number of links between two principal ports of the initial net. Each of these pairs has
    /// a cell, which is two words.
    pub cells: u32,
    /// The greatest number of tickets. Each ticket has a block of 22 words.
    pub fuel: u32,
}

/// The number of words of a block: two nodes of the trace entry, two fields for each of four nodes,
/// four wires, and two words for each of four cells.
pub const BLOCK: u32 = 22;

/// The number of the word of a free port, in every table.
pub fn port_word(port: u32) -> u32
    requires { port < 4294967294 }
    ensures { result ≡ port_word port }
{
    2 + port
}

impl Parts {
    /// The place of a node of the initial net.
    pub fn start_node(self, node: u32) -> u32
        requires { IsSmall self × (node ≤ 1000000) }
        ensures { result ≡ start_node self node }
    {
        2 + self.free + 2 * node
    }

    /// The number of the word of a wire of the initial net.
    pub fn start_wire(self, wire: u32) -> u32
        requires { IsSmall self × (wire ≤ 2000000) }
        ensures { result ≡ start_wire self wire }
    {
        2 + self.free + 2 * self.nodes + wire
    }

    /// The number of the left word of a cell of the initial net.
    pub fn start_cell(self, cell: u32) -> u32
        requires { IsSmall self × (cell ≤ 2000000) }
        ensures { result ≡ start_cell self cell }
    {
        2 + self.free + 2 * self.nodes + self.wires + 2 * cell
    }

    /// The number of the first word of a ticket's block.
    pub fn block(self, ticket: u32) -> u32
        requires { IsSmall self × (ticket ≤ most_fuel) }
        ensures { result ≡ block self ticket }
    {
        2 + self.free + 2 * self.nodes + self.wires + 2 * self.cells + BLOCK * ticket
    }

    /// The number of all words.
    pub fn size(self) -> u32
        requires { IsSmall self }
        ensures { result ≡ table_size self }
    {
        self.block(self.fuel)
    }

    /// The number of cells: the cells of the initial net, and four for each ticket.
    pub fn all_cells(self) -> u32
        requires { IsSmall self }
        ensures { result ≡ cells_of self }
    {
        self.cells + 4 * self.fuel
    }

    /// The number of the left word of a cell.
    pub fn left_word(self, cell: u32) -> u32
        requires { IsSmall self × (cell < cells_of self) }
        ensures { result ≡ left_word self cell }
    {
        if cell < self.cells {
            return self.start_cell(cell);
        }
        let later = cell - self.cells;
        self.block(later / 4) + 14 + 2 * (later % 4)
    }

    // The word of the field of an auxiliary slot of a node. The slots are counted from 0.
    pub(crate) fn field(self, node: u64, slot: u32) -> u32
        requires { IsSmall self × IsNodeOf self node × (slot < 2) }
        ensures { result ≡ place_in node + slot }
    {
        place_in(node) + slot
    }

    // The left word of the cell of a join of a ticket.
    pub(crate) fn born_cell(self, ticket: u32, join: u32) -> u32
        requires { IsSmall self × (ticket ≤ most_fuel) × (join < 4) }
        ensures { result ≡ born_cell self ticket join }
    {
        self.block(ticket) + 14 + 2 * join
    }

    // The word of a wire or of a free port.
    pub(crate) fn word_of(self, wire: u64) -> u32
        requires { IsSmall self × (place_in wire < table_size self) }
        ensures { result ≡ place_in wire }
    {
        place_in(wire)
    }

    // The wire between the copy of f at slot q + 1 of g and the copy of g at slot p + 1 of f.
    pub(crate) fn born_wire(self, ticket: u32, q: u32, p: u32) -> u32
        requires { IsSmall self × (ticket ≤ most_fuel) × (q < 4) × (p < 4) }
        ensures { result ≡ born_wire self ticket q p }
    {
        self.block(ticket) + 10 + 2 * q + p
    }
}
