//! The file of a book: its bytes, what a whole file stands for, and a walk over a file that comes in pieces
//! (docs/FORMATS.md, The book file). Nothing here touches a disk.
//!
//! | Item | What it is |
//! |---|---|
//! | [`Walk`] | a walk over the records of a file that is fed to it in pieces |
//! | [`Found`], [`OpenFault`] | what a whole file holds, or why it is no journal that can be opened |
//! | [`empty_file`], [`body_of`] | the bytes of the empty journal; those of a record and the closed gate after it |
//! | [`files_are_apart`], [`files_have_one_answer`] | a file stands for one list, and has one answer |
//! | [`whole_files_have_no_fault`], [`worked_files`] | a file with room for its list has no fault; files by computation |
//!
//! A file is a header with its gate, and then records, each after an open gate. The first closed gate ends the journal;
//! what follows it means nothing.
#![tactic(auto)]

mod found;
mod header;
mod laws;
mod reading;
mod stage;
mod steps;
#[cfg(test)]
mod tests;
mod walk;
mod writing;

pub use found::{Found, OpenFault};
pub use header::empty_file;
pub use laws::{files_are_apart, files_have_one_answer, whole_files_have_no_fault, worked_files};
pub use walk::Walk;
pub use writing::body_of;
