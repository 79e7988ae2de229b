//! Generated scenarios: a network to try, of as many rounds as are asked for.
//!
//! | Item | What it is |
//! |---|---|
//! | [`make`] | the generated scenario of some rounds |
//! | [`MOST_ROUNDS`] | the most rounds |
//! | [`generated_are_scenarios`], [`worked_round`] | laws: each is a scenario, and one is printed as it has to be |
#![tactic(auto)]

mod declared;
mod generator;
mod happening;

pub use generator::{MOST_ROUNDS, generated_are_scenarios, make, worked_round};
