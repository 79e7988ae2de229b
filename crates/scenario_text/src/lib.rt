//! Scenario texts: reading a scenario from a source of bytes, and printing one.
//!
//! | Item | What it is |
//! |---|---|
//! | [`Scenario`] | the parts of a scenario, which fit each other |
//! | [`read`] | the scenario that the bytes of a source say |
//! | [`print`] | the text of a scenario |
//! | [`Pick`], [`HostLine`], [`Flow`], [`Step`], [`Fate`], [`Ask`], [`Letter`] | the parts, and what is in them |
//! | [`Letters`], [`Path`], [`Delays`] | short lists within the parts |
//! | [`ScenarioFault`], [`Why`] | why there is none: a faulty line and its why, a failed source, no memory |
#![tactic(auto)]

mod fault;
mod laws;
#[cfg(test)]
mod new_tests;
#[cfg(test)]
mod print_tests;
mod printing;
mod reader;
mod reading;
mod scenario;
#[cfg(test)]
mod tests;
#[cfg(test)]
mod whys_tests;

pub use fault::ScenarioFault;
pub use laws::{
    prefix_decides, prefix_is_shortest, printed_is_read, unfinished_line_is_the_last, worked_texts,
};
pub use lg_model::{Ask, Delays, Fate, Flow, HostLine, Letter, Letters, Path, Pick, Step};
pub use printing::print;
pub use reading::read;
pub use scenario::Scenario;
pub use scenario_lines::Why;
