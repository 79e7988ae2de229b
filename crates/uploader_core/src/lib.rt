//! The sending end of a host: which upload goes next, and what the analyser's replies do (docs/DEFINITIONS.md, Uploader).
//!
//! | Item | What it is |
//! |---|---|
//! | [`Uploader`] | the uploads of a host, and how far each is |
//! | [`Uploads`] | what it needs of the uploads, however they are kept |
//! | [`are_own`] | whether uploads are those of a host by their numbers, as [`Uploader::new`] needs them |
//! | [`SeqState`] | how far an upload is: idle, outstanding, acknowledged or refused |
//! | [`Refused`] | an upload that the analyser refuses for good, and why |
//! | [`Memory`] | no memory was found |
//!
//! Each upload is named by its number, its seq, which is its position in the list of the host's uploads. At most 8 are
//! outstanding. Nothing here waits or knows the time: [`Uploader::tick`] is the caller's word that it has waited enough.
#![tactic(auto)]

mod refused;
mod state;
mod states;
mod uploader;
mod uploads;

pub use lg_base::Memory;
pub use refused::Refused;
pub use state::SeqState;
pub use uploader::{Uploader, are_own};
pub use uploads::Uploads;

#[cfg(test)]
mod tests;
