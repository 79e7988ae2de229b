//! How far a walk came.

use crate::found::{Found, OpenFault};
use column_book::Book;

/// What the next bytes of the file are.
#[derive(Drop)]
pub enum Stage {
    /// The header.
    Head,
    /// A gate.
    Gate(Book),
    /// The first 7 bytes of a body, up to the count of its columns.
    Lead(Book),
    /// The columns of a body, whose first 7 bytes are kept.
    Body(Book),
    /// Nothing that matters: the answer is known.
    Ended(Result<Found, OpenFault>),
}
