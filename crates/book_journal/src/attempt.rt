//! What is being stored.

use sketchlet_wire::Upload;
use std::snapshot::Snapshot;

// An upload whose record may be on the disk, and the pass that applied it. The upload itself is not kept.
#[derive(Drop)]
pub(crate) struct Attempt {
    pub(crate) pass: u32,
    pub(crate) upload: Snapshot<Upload>,
}
