//! The tree that was read of an application.

use ol_readback::ReadTree;
use ol_term::Names;

/// The tree that was read of an application, and its free names.
#[derive(Drop)]
pub struct Seen {
    pub tree: ReadTree,
    pub names: Names,
}
