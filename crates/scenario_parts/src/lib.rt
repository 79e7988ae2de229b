//! The parts of a scenario: whether they fit each other so that a text can say them, and that text.
//!
//! | Item | What it is |
//! |---|---|
//! | [`is_whole`] | whether parts make a scenario |
//! | [`put_parts`] | puts the text of parts, or counts its bytes |
#![tactic(auto, using(text_out::proofs::Putting::grown_on, text_out::proofs::Putting::grown_none, text_out::proofs::Putting::put_is, text_out::proofs::Putting::put_or_not_is))]

mod apart;
mod counts;
mod fits;
mod lists;
mod printing;
mod put;
mod put_declared;
mod put_first;
mod put_steps;
mod whole;

pub use printing::put_parts;
pub use whole::is_whole;
