//! How a host's uploads reach the analyser's book: a worker's pump over a link, and the law of every link.
//!
//! | Item | What it is |
//! |---|---|
//! | [`pump`], [`WorkFault`] | sends a host's uploads over a link until all are acknowledged |
//! | [`World`], [`Event`] | uploaders, the net between and the book as one machine |
//! | [`acknowledged_is_kept`] | law: what is acknowledged is in the book, after every list of events |
//! | [`Book`], [`Uploader`], [`Uploads`], [`Memory`] | the parts, of the crates below |
//!
//! In a world nothing waits, knows the time or touches a disk; a loss is a delivery that never comes
//! (docs/DEFINITIONS.md, World). A pump applies uploads to the shared book of a real disk, in the order of its link's
//! letters (docs/DEFINITIONS.md, Deliveries).
#![tactic(auto)]

mod deliver;
mod event;
mod fault;
mod laws;
mod round;
mod send;
mod settle;
mod steps;
mod worker;
mod world;

pub use column_book::Book;
pub use event::Event;
pub use fault::WorkFault;
pub use laws::acknowledged_is_kept;
pub use lg_base::Memory;
pub use uploader_core::{Uploader, Uploads};
pub use worker::pump;
pub use world::World;

#[cfg(test)]
mod tests;
