//! The bytes of a column: a sketchlet, one spelling for each column (docs/FORMATS.md, Sketchlet).
//!
//! | Item | What it is |
//! |---|---|
//! | [`Column`] | the buckets of one index over all rows, with its key and the size of its sketch |
//! | [`encode`], [`decode`] | a column to bytes and back |
//! | [`WireFault`] | why bytes are no column |
//! | [`Packed`] | a spelling in an array |
//! | [`put_column`] | writes a column's bytes at the front of others |
//! | [`put_key`], [`take_key`] | the 8 bytes of a key |
//! | [`put_cells`], [`take_cells`] | the bytes of the cells of a column, 6 for each row |
//! | [`put_shape`], [`take_shape`] | the 12 bytes of a shape of sketches |
//! | [`Upload`], [`holds`] | 1 to 16 columns that a host sends at once; whether a key stands in a list |
//! | [`Bucket`], [`Dims`], [`Key`] | the parts of a column, of the model's crate |
//! | [`spellings_are_apart`], [`fields_are_read_back`], [`worked_bytes`] | laws over the spellings |
//!
//! Nothing here takes memory. A sketchlet is the letters `LG`, a version, the rows, the width, the key and then 6 bytes
//! for each row; all numbers are big-endian. Frames and journal records are made of the same keys, cells and shapes.
#![tactic(auto)]

mod cells;
mod column;
mod fault;
mod key;
mod laws;
mod packed;
mod ranges;
mod reading;
mod shape;
mod upload;
mod writing;

pub use cells::{put_cells, take_cells};
pub use column::Column;
pub use fault::WireFault;
pub use key::{put_key, take_key};
pub use laws::{fields_are_read_back, spellings_are_apart, worked_bytes};
pub use lg_model::{Bucket, Dims, Key};
pub use packed::Packed;
pub use reading::decode;
pub use shape::{put_shape, take_shape};
pub use upload::{Upload, holds};
pub use writing::{encode, put_column};

#[cfg(test)]
mod tests;
