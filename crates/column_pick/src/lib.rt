//! Pickers: whether a packet is given a column at a switch, and which.
//!
//! | Item | What it is |
//! |---|---|
//! | [`Picker`] | what every picker does |
//! | [`Turns`] | gives the columns one after the other, at each offer whose number the hops left divide |
//! | [`Chance`] | gives columns by the words of a random stream |
//! | [`Script`] | gives the answers of a list |
//! | [`AnyPicker`] | a picker by turns or by chance |
#![tactic(auto)]

mod any_picker;
mod chance;
mod laws;
mod picker;
mod script;
#[cfg(test)]
mod tests;
mod turns;

pub use any_picker::AnyPicker;
pub use chance::Chance;
pub use laws::{answers_by_offers, words_by_offers};
pub use picker::Picker;
pub use script::Script;
pub use turns::Turns;
