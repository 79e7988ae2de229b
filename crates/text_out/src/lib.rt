//! Texts, decimal numbers and the words of a shape, appended to the bytes of a list (docs/FORMATS.md).
//!
//! | Item | What it is |
//! |---|---|
//! | [`put_text`], [`put_number`], [`put_field`] | bytes, a decimal number, and a number after a word |
//! | [`put_shape`] | the words of a shape: `R W ports` or `R W seed N` |
//!
//! Each answers `Memory` where memory runs out, and then what stood before still stands at the front of the list.
#![tactic(auto, using(crate::proofs::Keeping::keeps_itself, crate::proofs::Keeping::keeps_after))]

mod growing;
mod put;
mod shape;
#[cfg(test)]
mod tests;

pub use growing::{Room, TextOut};
pub use put::{put_field, put_number, put_text};
pub use shape::put_shape;
