//! The book (docs/DEFINITIONS.md, Book).
ghost use Rattle.std.specs.Prelude.{◌≡◌, ◌≤◌, [], length, IfOk, IfSome};
ghost use Rattle.std.specs.Option.{option_map};
ghost use Rattle.lg_model.specs.Answer.{found};
ghost use Rattle.sketchlet_wire.specs.Spelling.{IsDims};
ghost use Rattle.lg_model.specs.Columns.{dims_of};
ghost use Rattle.lg_model.specs.declared.limits.TheConstants.{MOST_WIDTH};
ghost use Rattle.column_book.specs.declared.book.TheConstants.{ROOM};
ghost use Rattle.column_book.specs.Applying.{column_with};
ghost use Rattle.column_book.specs.Entries.{records, columns_in, content, IsBook};

use crate::blocks::Blocks;
use crate::head::Row;
use lg_base::Memory;
use lg_model::{Dims, Key, Shape};
use sketchlet_wire::Column;
use std::alloc::Global;
use std::marker::Model;

/// The most columns that a book may have.
pub const ROOM: u32 = 262_144;

/// What came in uploads, entry after entry. Contracts see it as its shape, its room, its entries and its ready list.
#[derive(Drop)]
pub struct Book {
    pub(crate) shape: Shape,
    pub(crate) room: u32,
    pub(crate) blocks: Blocks,
    // The keys of all entries, in their order.
    pub(crate) keys: Vec<Key>,
    pub(crate) rows: Vec<Row>,
    // The keys whose blocks are made, and for which there is room.
    pub(crate) ready: Vec<Key>,
}

impl Model for Book {
    ghost use Rattle.std.specs.Vec.{vec_capacity};
    ghost use Rattle.lg_model.specs.Columns.{dims_of};
    ghost use Rattle.column_book.specs.Entries.{BookState};
    ghost use Rattle.column_book.specs.Kept.{entries_of, shelf, IsKept};

    ghost Value = { BookState };

    ghost view = { λ b. record {
      shape = b.shape;
      room = b.room;
      ready = b.ready.items;
      entries = entries_of (dims_of b.shape) (shelf b.shape.rows b.blocks.map.entries) b.keys.items b.rows.items;
    } };

    ghost invariant = { λ b. IsKept b.shape.width b.room b.blocks.map.entries b.keys.items b.rows.items b.ready.items
        (vec_capacity b.keys) (vec_capacity b.rows) };
}

// The size of the sketches of a shape.
pub(crate) fn dims(shape: &Shape) -> Dims
    ensures value { result ≡ dims_of shape.now }
    ensures range { IsDims result }
{
    Dims {
        rows: shape.rows(),
        width: shape.width(),
    }
}

// A shape has no more than 4,096 buckets a row. Nothing is done here; the clause is what counts.
fn width_fits(shape: &Shape)
    ensures { shape.now.width ≤ MOST_WIDTH }
{
    shape.width();
}

impl Book {
    /// The book of this shape that keeps no column, and may keep `room`, 1 to `ROOM`.
    pub fn new(alloc: Global, shape: &Shape, room: u32) -> Result<Book, Memory>
        requires some { 1 ≤ room }
        requires few { room ≤ ROOM }
        ensures { IfOk result (λ b. b ≡ record { shape = shape.now; room = room; entries = []; ready = [] }) }
    {
        width_fits(shape);
        Ok(Book {
            shape: *shape,
            room,
            blocks: Blocks::new(alloc),
            keys: Vec::new(alloc),
            rows: Vec::new(alloc),
            ready: Vec::with_capacity(alloc, 16)?,
        })
    }

    /// The shape of the sketches whose columns are kept.
    pub fn shape(&self) -> Shape
        ensures { result ≡ self.now.shape }
    {
        self.shape
    }

    /// How many columns may be kept, 1 to `ROOM`.
    pub fn room(&self) -> u32
        ensures value { result ≡ self.now.room }
        ensures some { 1 ≤ result }
        ensures few { result ≤ ROOM }
    {
        self.room
    }

    /// How many columns are kept.
    pub fn count(&self) -> u32
        ensures value { result ≡ length (columns_in (records self.now.entries)) }
        ensures content { result ≡ length (content self.now.entries) }
        ensures book { IsBook self.now }
        ensures few { result ≤ self.now.room }
    {
        self.keys.len() as u32
    }

    /// How many entries there are.
    pub fn records(&self) -> u32
        ensures { result ≡ length self.now.entries }
    {
        self.rows.len() as u32
    }

    /// The column under a key. None exactly where none is kept there.
    pub fn find(&self, key: &Key) -> Option<Column>
        ensures value { result ≡ option_map (column_with key.now (dims_of self.now.shape)) (found (content self.now.entries) key.now) }
        ensures cells { option_map (λ c. c.cells) result ≡ found (content self.now.entries) key.now }
        ensures named { IfSome result (λ c. (c.key ≡ key.now) × (c.dims ≡ dims_of self.now.shape)) }
    {
        let buckets = self.blocks.get(key)?;
        Column::new(*key, dims(&self.shape), *buckets)
    }
}
