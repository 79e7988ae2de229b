//! What a file holds, or why it is no journal.

use column_book::Book;
use lg_model::Shape;

/// What a whole file holds (docs/FORMATS.md, The book file).
#[derive(Drop)]
pub enum Found {
    /// A blank file, which stands for the empty list.
    Blank,
    /// The records of a journal.
    Book {
        /// The book of the records, each an entry of pass 0.
        book: Book,
        /// The offset in bytes of the closed gate after them.
        end: u64,
    },
}

/// Why a file isn't opened.
#[derive(Clone, Copy, Debug, PartialEq, Eq)]
pub enum OpenFault {
    /// A call of the disk failed.
    DiskFault,
    /// The file isn't blank, and doesn't begin with an open gate and a well-formed header.
    NotAJournal,
    /// The header has another shape than the one that is asked for.
    WrongShape {
        /// The shape of the header.
        kept: Shape,
        /// The one that is asked for.
        asked: Shape,
    },
    /// The file ends where a gate should be, or no well-formed body stands after an open gate.
    Damaged {
        /// The length of the file in bytes, or the offset of the gate.
        at: u64,
    },
    /// The next body has more columns than there is room for.
    Full {
        /// The columns before it.
        held: u32,
        /// Its columns.
        more: u32,
    },
    /// The program runs out of memory.
    Memory,
}
