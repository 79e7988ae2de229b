//! Why a book doesn't take an upload.

use lg_model::{Dims, Key};
use sketchlet_wire::Column;

/// Why an upload isn't taken. The first column that has the fault is named.
#[derive(Clone, Copy, Debug, PartialEq, Eq)]
pub enum BookFault {
    /// A column is of a sketch of another size.
    WrongShape {
        /// The size of the book's sketches.
        kept: Dims,
        /// The size of the column's.
        came: Dims,
    },
    /// A column's key is in the book with other buckets.
    Conflict {
        /// What names both.
        key: Key,
        /// The book's column.
        kept: Column,
        /// The upload's column.
        came: Column,
    },
    /// The new columns are more than the room that is left.
    Full {
        /// The columns in the book.
        held: u32,
        /// The new ones.
        more: u32,
    },
}
