//! What the analyser answers.

use lg_model::Key;

/// Why an upload is refused.
#[derive(Clone, Copy, Debug, PartialEq, Eq)]
pub enum RefusedWhy {
    /// The column of this key is known with other cells.
    Conflict(Key),
    /// There is no room for its new columns.
    Full,
    /// A column is of a sketch of another size.
    Shape,
    /// The book is closed.
    Closed,
}

/// What the analyser answers to a frame (docs/FORMATS.md, Frames).
#[derive(Clone, Copy, Debug, PartialEq, Eq)]
pub enum Reply {
    /// To a hello.
    Welcome {
        /// The host's name.
        host: u16,
    },
    /// To an upload that is kept.
    Acknowledged {
        /// The host's name.
        host: u16,
        /// The number of the upload.
        seq: u32,
        /// Whether all its columns were known already.
        known: bool,
    },
    /// To an upload that is not kept.
    Refused {
        /// The host's name.
        host: u16,
        /// The number of the upload.
        seq: u32,
        /// Why.
        why: RefusedWhy,
    },
    /// To a bye.
    Goodbye {
        /// The host's name.
        host: u16,
    },
}
