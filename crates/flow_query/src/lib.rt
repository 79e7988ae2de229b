//! What a book tells of a flow, and the sketches that it holds whole.
//!
//! | Item | What it is |
//! |---|---|
//! | [`answer`] | the least counters of the flow's known rows |
//! | [`rebuild`], [`RebuildFault`] | the sketch of a switch and epoch, where all its columns are known |
//! | [`Answer`], [`Value`] | what is told of a flow and of a counter, of the model's crate |
//! | [`answers_are_exact`] | the law of what an answer says |
#![tactic(auto)]

mod answering;
mod laws;
mod least;
mod rebuilding;
#[cfg(test)]
mod tests;

pub use answering::answer;
pub use laws::answers_are_exact;
pub use lg_model::{Answer, Value};
pub use rebuilding::{RebuildFault, rebuild};
