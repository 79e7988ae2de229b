//! One worker per host: each pumps its host's uploads into one shared book, with a pass of its own.
//!
//! | Item | What it is |
//! |---|---|
//! | [`Sender`] | what a host sends, over which link, and how that ended |
//! | [`room_for`] | all memory that the workers need of their own |
//! | [`run_workers`] | starts a worker for each sender, waits for all, and closes the book |
//!
//! The order in which the workers' calls come to the book is free, and nothing here depends on it
//! (docs/DEFINITIONS.md, Runs over a book). Without senders no worker starts.
#![tactic(auto)]

mod joining;
mod running;
mod sender;
mod splitting;
mod working;

pub use running::{Seats, room_for, run_workers};
pub use sender::Sender;

#[cfg(test)]
mod tests;
