//! Cuts the sketchlets that come to a host into uploads (docs/DEFINITIONS.md, Uploads).
//!
//! | Item | What it is |
//! |---|---|
//! | [`Cutter`] | takes sketchlets one by one, and gives each upload when it is finished |
//! | [`uploads`] | the uploads of a list of sketchlets |
//! | [`PackedUploads`], [`pack_columns`] | the uploads of what came to a host, kept as places of packed columns in a pool |
//! | [`CollectFault`] | why a sketchlet is not taken |
//! | [`cuts_are_longest`], [`cutters_cut`] | laws over the cut |
//!
//! Each upload is the longest front of the rest that has at most 16 columns and no key twice.
#![tactic(auto)]

mod collecting;
mod cutter;
mod fault;
mod laws;
mod packed_uploads;

pub use collecting::uploads;
pub use cutter::Cutter;
pub use fault::CollectFault;
pub use laws::{cuts_are_longest, cutters_cut};
pub use packed_uploads::{PackedUploads, pack_columns};

#[cfg(test)]
mod tests;
