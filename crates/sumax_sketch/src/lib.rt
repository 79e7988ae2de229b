//! Sketches of sums and maxima: tables of buckets in which each flow has one bucket a row.
//!
//! | Item | What it is |
//! |---|---|
//! | [`Sketch`] | a table of buckets of a shape |
//! | [`Bucket`] | the two counters of one row at one index |
#![tactic(auto)]

mod row;
mod rows;
mod sketch;
#[cfg(test)]
mod tests;
mod touched;

pub use sketch::Sketch;
pub use sumax_row::Bucket;
