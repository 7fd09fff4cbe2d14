//! References: the content of a word that isn't empty.
ghost use Rattle.std.specs.Prelude.{◌≡◌, ◌<◌, ◌≤◌, ◌+◌, ◌*◌, ◌%◌, ◌^◌, true, ◌↔◌};
ghost use Rattle.ol_wire.specs.References.{kind_number, node_ref, wire_ref, kind_in, index_in, place_in, IsNodeRef};
ghost use Rattle.ol_wire.specs.References.{indexes, place_step};

use ol_net::Kind;

// A reference from its low end: its sort in two bits; of a node the kind in three, and the index in
// 24; then the place.

// How many sorts, kinds and indexes these bits hold.
const SORTS: u64 = 1 << 2;

const KINDS: u64 = 1 << 3;

const INDEXES: u64 = 1 << 24;

// The sorts of a node and of a wire or a free port.
const NODE: u64 = 1;

const WIRE: u64 = 2;

// What a kind, an index and a place of one more add.
const KIND: u64 = SORTS;

const INDEX: u64 = KIND * KINDS;

const PLACE: u64 = INDEX * INDEXES;

fn kind_number(kind: Kind) -> u64
    ensures number { result ≡ kind_number kind }
    ensures small { result < 6 }
{
    match kind {
        Kind::Lam => 0,
        Kind::App => 1,
        Kind::Fan => 2,
        Kind::Croissant => 3,
        Kind::Bracket => 4,
        Kind::Eraser => 5,
    }
}

/// A node by its kind, its index, below 2^24, and its place.
pub(crate) fn node_ref(kind: Kind, index: u32, place: u32) -> u64
    requires { index < indexes }
    ensures { result ≡ node_ref kind index place }
{
    NODE + KIND * kind_number(kind) + INDEX * index as u64 + PLACE * place as u64
}

/// A wire or a free port by the place of its word.
pub(crate) fn wire_ref(place: u32) -> u64
    ensures { result ≡ wire_ref place }
{
    WIRE + PLACE * place as u64
}

/// The reference of a node of the same kind and index whose place is so many words further on.
pub(crate) fn further(node: u64, words: u32) -> u64
    requires { (node < 2 ^ 62) × (words ≤ 8) }
    ensures { result ≡ node + place_step * words }
{
    node + PLACE * words as u64
}

/// Whether the reference is to a node.
pub fn is_node(reference: u64) -> bool
    ensures { (result ≡ true) ↔ IsNodeRef reference }
{
    reference % SORTS == NODE
}

pub fn kind_in(reference: u64) -> Kind
    ensures { result ≡ kind_in reference }
{
    match reference / KIND % KINDS {
        0 => Kind::Lam,
        1 => Kind::App,
        2 => Kind::Fan,
        3 => Kind::Croissant,
        4 => Kind::Bracket,
        _ => Kind::Eraser,
    }
}

pub fn index_in(reference: u64) -> u32
    ensures { result ≡ index_in reference }
{
    (reference / INDEX % INDEXES) as u32
}

pub fn place_in(reference: u64) -> u32
    requires { place_in reference < 4294967296 }
    ensures { result ≡ place_in reference }
{
    (reference / PLACE) as u32
}
