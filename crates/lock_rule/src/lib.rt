//! The rule of a shared book's lock: what holds of its words, its slot and its passes between any two steps, and what
//! each step tells (docs/DEFINITIONS.md, The lock's words and steps). Definitions and lemmas alone; `shared_book` has
//! the steps.
//!
//! | Item | What it is |
//! |---|---|
//! | [`View`], [`Doing`], [`Mark`] | what a pass knows |
//! | [`Joined`] | what a pass that was joined had seen |
#![tactic(auto)]

mod view;

pub use view::{Doing, Joined, Mark, View};
