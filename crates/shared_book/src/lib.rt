//! One book that many passes apply uploads to (docs/DEFINITIONS.md, Shared book).
//!
//! | Item | What it is |
//! |---|---|
//! | [`SharedBook`], [`share`] | a journal behind a lock that gives each pass its turn |
//! | [`Pass`] | the right to apply uploads to it |
//! | [`answer`] | the answer to a frame, over a pass |
//! | [`reply_of`] | the reply to an upload, from what a journal answered |
//! | [`applies_are_told`] | law: what an apply answers, by what the pass has seen after it |
//! | [`replies_follow_decisions`] | law: these replies are the rule's |
#![tactic(auto)]

mod answering;
mod bells;
mod book;
mod laws;
mod pass;
mod reply;
mod serving;
mod turns;

pub use answering::answer;
pub use book::{SharedBook, share};
pub use laws::{applies_are_told, replies_follow_decisions};
pub use pass::Pass;
pub use reply::reply_of;

#[cfg(test)]
mod tests;
