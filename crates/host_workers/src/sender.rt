//! What a host sends, and the work of its worker.

use host_collect::PackedUploads;
use lg_model::Letter;
use shared_book::Pass;
use upload_world::{Uploader, WorkFault};

/// What a host sends: its uploads, the letters of its link, and how the work on them ended, `Ok` before it began.
#[derive(Drop)]
pub struct Sender<'a> {
    /// The uploads, kept packed, and how far each is.
    pub uploader: Uploader<PackedUploads<'a>>,
    /// What the link does to them, one letter after the other.
    pub letters: &'a [Letter],
    /// How the work ended.
    pub result: Result<(), WorkFault>,
}

/// What a worker works with: a host's sender, and a pass of its own.
#[derive(Drop)]
pub(crate) struct Job<'a> {
    pub(crate) pass: Pass,
    pub(crate) sender: Sender<'a>,
}
