//! What a term's net is read as: what the term encodes, its Böhm tree, and the paths that read one
//! place.
//!
//! - `decoders`: decoders, each of one encoding
//! - `telling`: what is told of a term, and of the parts of its values
//! - `numerals`: Church numerals, however deep their terms are
//! - `showing`: the command `show`: the normal form of a term, and what is told of it
//! - `chaining`: chains: paths from a part up to the first active pair
//! - `asking`: one part asked for its head, and those who ask part by part
//! - `boehm_trees`: the command `tree`: the Böhm tree of a term down to some depth, and its text
//! - `writing`: values and contexts as texts
//! - `trailing`: the lines of one path
//! - `questioning`: the questions to a frame
//! - `watching`: a reading that ends where a place is asked
//! - `finding`: the place at the end of a path, and the path of a place
//! - `frame_walks`: the command `walk --frame`: the paths that read one place, crossing by crossing
//! - `laws`: what holds of encodings and of Böhm trees
//!
//! Each part of a Böhm tree is asked for its head by demand order, within a fuel of its own, as far
//! as the fuel of all parts reaches: so a part without an end doesn't hide those beside it. All
//! parts are asked in one net, which stays the net of the term whatever was rewritten in it. So
//! what one part has rewritten another one doesn't do again.
#![tactic(auto)]

mod asking;
mod boehm_trees;
mod chaining;
mod decoders;
mod finding;
mod frame_walks;
mod laws;
mod numerals;
mod questioning;
mod showing;
mod telling;
mod trailing;
mod watching;
mod writing;

pub use boehm_trees::tree;
pub use frame_walks::{Wanted, frame_walk};
pub use laws::{parts_have_source_heads, values_are_one};
pub use showing::show;
pub use telling::{Told, tell};
