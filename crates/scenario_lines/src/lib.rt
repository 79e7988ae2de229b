//! The lines of a scenario text: what each line says, and the parts of the scenario that the lines have said so far.
//!
//! | Type | What it is |
//! |---|---|
//! | [`Draft`] | what the lines so far have said; takes one line after the other |
//! | [`Section`], [`Keyword`] | the part of the text that a line stands in, and the first words of lines |
//! | [`Why`] | why a line, or a whole text, is refused |
//! | [`LineFault`] | why a line was not taken: a why, or no memory |
#![tactic(auto)]

mod declarations;
mod draft;
mod fault;
mod fields;
mod header;
mod index;
mod keys;
mod line;
mod lists;
mod names;
mod section;
mod steps;
mod tail;
#[cfg(test)]
mod tests;
mod why;

pub use draft::Draft;
pub use fault::LineFault;
pub use section::{Keyword, Section};
pub use why::Why;
