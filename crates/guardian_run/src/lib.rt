//! The top call: what the words ask for, of a scenario from a source and a book on a disk, told into a sink.
//!
//! | Item | What it is |
//! |---|---|
//! | [`guardian`] | does what the words say |
//! | [`guardian_read`] | does it for the words that never write to the disk |
//! | [`Status`] | how it ended |
//! | [`outcomes_are_one`] | the law: what a call comes to is one output or one refusal |
//!
//! A command is a file: it reads what it needs and gives its output, or a refusal that carries what its line says. The
//! end of the call turns either into bytes and a status.
#![tactic(auto)]

mod ask;
mod capture;
mod demo;
#[cfg(test)]
mod demo_tests;
mod ending;
#[cfg(test)]
mod gate_tests;
mod list;
mod looking;
mod make;
#[cfg(test)]
mod read_tests;
mod rebuild;
mod refusal;
mod reporting;
mod run;
#[cfg(test)]
mod run_tests;
mod status;
mod storing;
mod telling;
#[cfg(test)]
mod tests;
mod top;

pub use status::Status;
pub use top::{guardian, guardian_read, outcomes_are_one};
