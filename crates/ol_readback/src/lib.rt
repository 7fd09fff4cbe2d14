//! Readback: the term of a net, found along its paths (Gonthier, Abadi and Lévy, The Geometry of
//! Optimal Lambda Reduction, POPL 1992).
//!
//! A subterm is represented by a frame: a free port and a list of levels. A walk for the subterm
//! starts at this port, with these levels followed by a level of n times `o`, for all n at once.
//! The least n for which the walk leaves the net is the number of the subterm's abstractions. The
//! exit determines the head variable and the number of its arguments.
//!
//! `read` reads the places of a term in preorder, and is generic in how the head of a frame is
//! found. `read_back` finds heads by walks over a net that doesn't change.
//!
//! - `reading`: reading the places of a term, and a whole net
//! - `askers`: the trait of what finds the head of a frame
//! - `asking`: the head of a frame by a walk
//! - `frames`: frames
//! - `levels`: lists of level values
//! - `leaving`: which frame binds the exit of a walk
//! - `fitting`: an exit compared with a single frame
//! - `skipping`: how frames without abstractions are skipped
//! - `groups`: arguments that are still to be read
//! - `answers`: heads, and places of a tree
//! - `tree`: the tree that was read
//! - `printing`: the text of a tree
//! - `laws`: the theorems on heads and trees
//!
//! What a tree says about the term of its net is proved in `ol_law_meaning`. The number of
//! crossings of a walk over a net with active pairs isn't bounded by any contract, except by its
//! budget. `NoMemory` is also returned if a number exceeds its range, for example for more than
//! 4,294,967,295 places.
#![tactic(auto)]

mod answers;
mod askers;
mod asking;
mod fitting;
mod frames;
mod groups;
mod laws;
mod leaving;
mod levels;
mod printing;
mod reading;
mod skipping;
mod tree;

pub use answers::{Head, HeadVar, ReadNode};
pub use askers::Asks;
pub use asking::{head, head_counted};
pub use frames::{Asked, Frame};
pub use laws::{
    answers_are_one, heads_kept, printed_heads, printed_terms_are_read, trees_are_whole,
    walk_is_short,
};
pub use leaving::{leave, leave_by};
pub use levels::Levels;
pub use printing::tree_text;
pub use reading::{read, read_back};
pub use tree::ReadTree;
