//! The book: what came in uploads, as a list of entries of one shape of sketches.
//!
//! | Item | What it is |
//! |---|---|
//! | [`Book`] | the entries, in the order in which they were added, and the columns under their keys |
//! | [`ROOM`] | the most columns that a book may have |
//! | [`BookFault`] | why an upload isn't taken |
//! | [`Head`], [`Entry`] | the front of an entry; an entry as a value |
//! | [`check_and_add_apply`], [`answers_follow`], [`contents_are_joined`] | laws over what an upload does to a list of entries |
//! | [`Column`], [`Key`], [`Shape`], [`Upload`] | the parts, of the crates below |
//!
//! An upload is applied in three calls: [`Book::check`] tells what is new or the fault, [`Book::reserve`] takes all
//! memory, and [`Book::add`] stores it and cannot fail. The columns are kept in blocks of 16 neighbouring indexes.
#![tactic(auto)]

mod adding;
mod block;
mod blocks;
mod book;
mod checking;
mod comparing;
mod entry;
mod fault;
mod head;
mod laws;
mod reading;
mod storing;
#[cfg(test)]
mod tests;
mod walking;

pub use book::{Book, ROOM};
pub use entry::Entry;
pub use fault::BookFault;
pub use head::Head;
pub use laws::{answers_follow, check_and_add_apply, contents_are_joined};
pub use lg_model::{Key, Shape};
pub use sketchlet_wire::{Column, Upload};
