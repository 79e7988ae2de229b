//! Big-endian numbers of 1, 2, 4 and 8 bytes, taken from the front of a slice and put at the front of one. Sketchlets,
//! frames and journal records are made of them (docs/FORMATS.md). Nothing here takes memory.
//!
//! | Item | What it is |
//! |---|---|
//! | [`take_u8`], [`take_u16`], [`take_u32`], [`take_u64`] | the number at the front, and the bytes after it |
//! | [`put_u8`], [`put_u16`], [`put_u32`], [`put_u64`] | writes a number at the front; the bytes after it stay |
//! | [`numbers_are_read_back`] | the law that ties both together |
//!
//! A field that is not wholly there is the error that the caller names. What is read is stated over lists of bytes, in
//! `do` notation (`specs/Reading.antt`), so that a reader of several fields reads like its format.
#![tactic(auto)]

mod laws;
mod putting;
mod taking;

pub use laws::numbers_are_read_back;
pub use putting::{put_u8, put_u16, put_u32, put_u64};
pub use taking::{take_u8, take_u16, take_u32, take_u64};

#[cfg(test)]
mod tests;
