//! An entry as a value.

use sketchlet_wire::Upload;

/// An entry of a book: the pass that stored it, and the record. The book keeps none of these; layers above that hold
/// lists of entries have this type.
#[derive(Debug, Drop)]
pub struct Entry {
    /// The number of the pass, 0 where the entry was read from a file.
    pub pass: u32,
    /// The record: what was new of an upload.
    pub stored: Upload,
}
