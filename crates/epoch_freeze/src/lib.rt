//! Two sketches of a switch: one that counts the epoch that runs, and one that was frozen at the end of the epoch
//! before it.
//!
//! | Item | What it is |
//! |---|---|
//! | [`Twins`] | the two sketches, the epoch, and how often each column of the frozen one was put out |
//! | [`epochs_are_told`] | the law: what the two are after any list of packets and ends |
#![tactic(auto)]

mod laws;
#[cfg(test)]
mod tests;
mod twins;

pub use laws::epochs_are_told;
pub use twins::Twins;
