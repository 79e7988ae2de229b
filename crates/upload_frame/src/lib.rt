//! The frames that hosts send and the replies that they get, on streams that come in any pieces (docs/FORMATS.md, Frames).
//!
//! | Item | What it is |
//! |---|---|
//! | [`Frame`], [`Reply`], [`RefusedWhy`] | what is sent |
//! | [`write_frame`], [`write_upload`], [`write_reply`] | the one spelling of a frame, of the frame of an upload that is lent, of a reply |
//! | [`write_packed`] | the frame of an upload whose columns are kept packed |
//! | [`Reader`], [`ReplyReader`] | take frames and replies off a stream |
//! | [`frames_of`] | the frames of a whole stream, by its pieces |
//! | [`read_upload`] | the upload of a whole frame |
//! | [`FrameFault`], [`NextFault`] | why bytes are no frame |
//! | [`frames_follow_streams`], [`replies_follow_streams`], [`columns_are_spelled`], [`worked_frames`] | laws over streams and spellings |
//!
//! A frame is a length of 2 bytes, which counts the bytes after it, then a kind of 1 byte, then the fields.
#![tactic(auto)]

mod fault;
mod frame;
mod frame_fields;
mod head;
mod laws;
mod pieces;
mod reader;
mod reply;
mod reply_fields;
mod stream;
mod upload_fields;
mod writing;
mod writing_packed;
mod writing_replies;

pub use fault::{FrameFault, NextFault};
pub use frame::Frame;
pub use laws::{columns_are_spelled, frames_follow_streams, replies_follow_streams, worked_frames};
pub use pieces::frames_of;
pub use reader::{Reader, ReplyReader, read_upload};
pub use reply::{RefusedWhy, Reply};
pub use writing::{write_frame, write_upload};
pub use writing_packed::write_packed;
pub use writing_replies::write_reply;

#[cfg(test)]
mod tests;
