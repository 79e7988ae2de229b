//! The plain data that several crates handle, the definitions of what a network of switches does
//! (in `specs/`), and the laws over these definitions.
//!
//! | Type | What it is |
//! |---|---|
//! | [`Bucket`] | the two counters of one row at one index |
//! | [`Key`], [`Dims`] | what names a column, and the size of the sketch that it is of |
//! | [`Hash`] | how the places of a flow are found |
//! | [`HostLine`], [`Flow`], [`Step`], [`Ask`], [`Pick`] | the parts of a scenario, one by one |
//! | [`Parts`] | all of them together |
//! | [`Letter`], [`Fate`] | what a link does to uploads, and what becomes of a packet |
//! | [`Answer`], [`Value`] | what is told of a flow |
//! | [`Letters`], [`Path`], [`Delays`] | short lists within these parts |
#![tactic(auto)]

mod answer;
mod column;
mod laws;
pub mod limits;
mod lists;
mod parts;
mod ranges;
mod scenario;
mod shape;

pub use answer::{Answer, Value};
pub use column::{Bucket, Dims, Key};
pub use laws::{
    answers_are_true, arrivals_are_few, counters_are_bounds, counters_stay_low, frozen_is_settled,
    picked_lists_are_allowed, worked_scenarios,
};
pub use lists::{Delays, Letters, Path};
pub use parts::Parts;
pub use scenario::{Ask, Fate, Flow, Hash, HostLine, Letter, Pick, Step};
pub use shape::Shape;
