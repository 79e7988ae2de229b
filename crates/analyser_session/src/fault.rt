//! Why a session stopped.
ghost use Rattle.std.specs.Prelude.{◌≡◌};

use upload_frame::FrameFault;

/// Why a session stopped before a bye was answered and its goodbye written. Whatever it is, what was acknowledged before
/// it stays in the book.
#[derive(Clone, Copy, Debug, PartialEq, Eq)]
pub enum SessionFault {
    /// A frame fails its checks. All frames before it were answered and their replies written; it was not answered.
    Frame {
        /// How many bytes the frames before it have.
        at: u64,
        /// The first check that fails.
        fault: FrameFault,
    },
    /// The source has nothing left, and no frame is there. All frames before were answered and their replies written.
    Early {
        /// How many bytes were taken, those after the last frame with them.
        at: u64,
    },
    /// 1,000,000 frames were answered and their replies written, and none was a bye.
    TooMany,
    /// The source failed. All frames taken before were answered and their replies written.
    ReadFault,
    /// The sink failed. Of the reply to the last frame answered a front was written, of all others everything.
    WriteFault,
    /// The program runs out of memory. Of the reply to the last frame answered nothing or all was written, of all others
    /// everything.
    Memory,
}
