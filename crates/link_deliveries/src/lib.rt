//! What a link makes of a host's uploads: in which order they come to the analyser, and which replies come back
//! (docs/DEFINITIONS.md, Deliveries). Definitions and laws alone; `upload_world` has the worker that sends.
//!
//! | Item | What it is |
//! |---|---|
//! | [`every_upload_comes`], [`no_letters_no_change`], [`deliveries_are_few`] | laws of the deliveries |
//! | [`worked_deliveries`] | the definitions, worked out by computation |
#![tactic(auto)]

mod laws;

pub use laws::{deliveries_are_few, every_upload_comes, no_letters_no_change, worked_deliveries};
