//! What may happen next.

/// What may happen next (docs/DEFINITIONS.md, World). A loss is a delivery that never comes.
#[derive(Clone, Copy, Debug, PartialEq, Eq)]
pub enum Event {
    /// An uploader sends its next upload.
    Send {
        /// The uploader's position.
        at: u16,
    },
    /// An uploader gives up waiting for replies.
    Tick {
        /// The uploader's position.
        at: u16,
    },
    /// A frame comes to the book, and a reply goes out.
    Deliver {
        /// The number of the frame, of all frames ever sent, from 0.
        frame: u32,
    },
    /// A reply comes to the uploader of its host.
    Back {
        /// The number of the reply, of all replies ever sent, from 0.
        reply: u32,
    },
    /// The analyser crashes. The book stays as it is.
    Crash,
    /// A frame comes, and the analyser crashes before it replies.
    CrashIn {
        /// The number of the frame, of all frames ever sent, from 0.
        frame: u32,
        /// Whether the frame was applied to the book before the crash.
        kept: bool,
    },
}
