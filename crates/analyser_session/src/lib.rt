//! A session: it answers the frames of a stream of bytes, whoever sends them (docs/DEFINITIONS.md, Sessions).
//!
//! | Item | What it is |
//! |---|---|
//! | [`serve_session`] | answers each frame of a source, and writes each reply before the next frame is answered |
//! | [`Served`] | a session that was ended by a bye |
//! | [`SessionFault`] | why a session stopped before that |
//! | [`MOST_SESSION_FRAMES`], [`MOST_PIECE_BYTES`] | the limits of a session |
//! | [`inputs_come_to_one_end`] | law: every input comes to something, and to one thing alone |
#![tactic(auto)]

mod fault;
mod laws;
mod limits;
mod next;
mod served;
mod session;

pub use fault::SessionFault;
pub use laws::inputs_come_to_one_end;
pub use limits::{MOST_PIECE_BYTES, MOST_SESSION_FRAMES};
pub use served::Served;
pub use session::serve_session;

#[cfg(test)]
mod tests;
