//! What is read off a book's entries.
ghost use Rattle.std.specs.Prelude.{◌≡◌, ◌<◌, length, slice_index_or};
ghost use Rattle.sketchlet_wire.specs.Uploads.{no_column};
ghost use Rattle.column_book.specs.Entries.{head_of, no_entry};

use crate::book::Book;
use crate::head::Head;
use sketchlet_wire::Column;

impl Book {
    /// The front of the entry at a position, which is below the number of entries.
    pub fn head(&self, i: u32) -> Head
        requires { i < length self.now.entries }
        ensures { result ≡ head_of (slice_index_or self.now.entries i no_entry) }
    {
        self.rows[i as usize].head
    }

    /// The column at a place of the entry at a position. Both are below the numbers that are there.
    pub fn column_at(&self, i: u32, k: u8) -> Column
        requires entry { i < length self.now.entries }
        requires column { k < length (slice_index_or self.now.entries i no_entry).stored.columns }
        ensures { result ≡ slice_index_or (slice_index_or self.now.entries i no_entry).stored.columns k no_column }
    {
        let at = self.rows[i as usize].first as usize + k as usize;
        let Some(column) = self.find(&self.keys[at]) else {
            unreachable!()
        };
        column
    }
}
