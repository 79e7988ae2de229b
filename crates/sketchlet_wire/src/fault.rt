//! Why bytes are no column.

/// The first fault from left to right (docs/FORMATS.md, Sketchlet).
#[derive(Clone, Copy, Debug, PartialEq, Eq)]
pub enum WireFault {
    /// A field isn't wholly there.
    Short,
    /// The letters or the version are others.
    NotSketchlet {
        /// The place of the first wrong byte, 0 to 2.
        at: u8,
    },
    /// The rows are not 1 to 8.
    BadRows {
        /// What stands there.
        rows: u8,
    },
    /// The width is not 1 to 4096.
    BadWidth {
        /// What stands there.
        width: u16,
    },
    /// The index is not below the width.
    BadIndex {
        /// What stands there.
        index: u16,
    },
}
