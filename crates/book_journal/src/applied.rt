//! What a journal answers to an upload.
ghost use Rattle.std.specs.Prelude.{◌≡◌};
ghost use Rattle.book_journal.specs.Applied.{fault_of};

use column_book::BookFault;
use lg_model::{Dims, Key};
use sketchlet_wire::Column;

/// What an upload came to that a journal took.
#[derive(Clone, Copy, Debug, PartialEq, Eq)]
pub enum Applied {
    /// Its new columns were stored, as the record at this position.
    Stored(u32),
    /// All its columns were there already: nothing was written.
    Known,
}

/// Why an upload wasn't taken.
#[derive(Clone, Copy, Debug, PartialEq, Eq)]
pub enum ApplyFault {
    /// An earlier call met a fault of the disk: the journal takes no upload any more.
    Broken {
        /// How many records the journal has.
        records: u32,
    },
    /// A column is of a sketch of another size.
    WrongShape {
        /// The size of the book's sketches.
        kept: Dims,
        /// The size of the column's.
        came: Dims,
    },
    /// A column's key is in the book with other buckets.
    Conflict {
        /// What names both.
        key: Key,
        /// The book's column.
        kept: Column,
        /// The upload's column.
        came: Column,
    },
    /// The new columns are more than the room that is left.
    Full {
        /// The columns in the book.
        held: u32,
        /// The new ones.
        more: u32,
    },
    /// No memory was found.
    Memory,
    /// The disk failed.
    DiskFault,
}

impl From<BookFault> for ApplyFault {
    ghost from_gives = { λ fault apply. apply ≡ fault_of fault };

    fn from(fault: BookFault) -> Self {
        match fault {
            BookFault::WrongShape { kept, came } => ApplyFault::WrongShape { kept, came },
            BookFault::Conflict { key, kept, came } => ApplyFault::Conflict { key, kept, came },
            BookFault::Full { held, more } => ApplyFault::Full { held, more },
        }
    }
}
