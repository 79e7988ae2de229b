//! The journal of a book: records on a disk, added so that no crash can tear them.
//!
//! | Item | What it is |
//! |---|---|
//! | [`Journal`] | a book whose records stand in the file of a disk |
//! | [`look`] | the book of a file, which is only read |
//! | [`Applied`], [`ApplyFault`] | what came of an upload |
//! | [`OpenFault`] | why a file isn't opened |
#![tactic(auto)]

mod applied;
mod attempt;
mod creating;
mod fault;
mod journal;
mod looking;
mod opening;
mod synced;
#[cfg(test)]
mod tests;

pub use applied::{Applied, ApplyFault};
pub use book_file::OpenFault;
pub use journal::Journal;
pub use looking::look;
