//! What every run keeps, said of the definitions alone: no command is needed for it.
//!
//! | Item | What it is |
//! |---|---|
//! | [`books_are_true`] | the law: what a book tells is true of each scenario with which it agrees |
//! | [`runs_are_true`] | the law: what a run's output says of the network is true |
//! | [`bookings_hold`] | the law: a book of a run has all that came to the hosts, or is too small for it |
#![tactic(auto)]

mod laws;

pub use laws::{bookings_hold, books_are_true, runs_are_true};
