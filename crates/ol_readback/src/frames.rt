//! Frames.

use crate::levels::Levels;

/// A frame, which represents a subterm: the free port `port` and the levels with which each walk
/// for the subterm starts. `parent` is the number of the enclosing frame, and `lams` the number of
/// abstractions of the head that was found for this frame. The number of a frame is its position in
/// a list of frames.
#[derive(Drop)]
pub struct Frame {
    pub port: u32,
    pub levels: Levels,
    pub parent: Option<u32>,
    pub lams: u32,
}

/// Frame number `at` of a list of frames, whose head is wanted, and the skips of that list: the
/// entry at a frame's position is the number of an enclosing frame, such that no frame between the
/// two has abstractions.
#[derive(Drop)]
pub struct Asked<'a> {
    pub frames: &'a Vec<Frame>,
    pub skips: &'a Vec<Option<u32>>,
    pub at: u32,
}
