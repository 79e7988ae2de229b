//! What hosts send.

use lg_model::Shape;
use sketchlet_wire::Upload;

/// What a host sends (docs/FORMATS.md, Frames).
#[derive(Debug, Drop)]
pub enum Frame {
    /// A session begins.
    Hello {
        /// The host's name.
        host: u16,
        /// The shape of the sketches that its uploads are of.
        shape: Shape,
    },
    /// An upload.
    Upload(Upload),
    /// A session ends.
    Bye {
        /// The host's name.
        host: u16,
    },
}
