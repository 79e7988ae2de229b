//! Shapes of sketches, and the places of a flow in the rows of one.
//!
//! | Item | What it is |
//! |---|---|
//! | [`Hash`] | how the places of a flow are found |
//! | [`Shape`] | how many rows, how many buckets a row, and the hash |
//! | [`Places`] | the places of a flow, one a row |
//! | [`places`] | the places of a key in the rows of a shape |
#![tactic(auto)]

mod hashing;
mod row_places;
#[cfg(test)]
mod tests;

pub use hashing::places;
pub use lg_model::{Hash, Shape};
pub use row_places::Places;
