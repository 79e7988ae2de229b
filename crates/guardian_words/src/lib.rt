//! The words of the command line (docs/FORMATS.md, Command line).
//!
//! | Item | What it is |
//! |---|---|
//! | [`Command`] | what the words ask for |
//! | [`command`] | the command of some words |
#![tactic(auto)]

mod commands;
mod words;

pub use commands::Command;
pub use words::command;
