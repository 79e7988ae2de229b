//! What the analyser refused.

use upload_frame::RefusedWhy;

/// The analyser refuses an upload for good.
#[derive(Clone, Copy, Debug, PartialEq, Eq)]
pub struct Refused {
    /// The number of the upload.
    pub seq: u32,
    /// Why.
    pub why: RefusedWhy,
}
