//! Laws over streams and spellings, each on a function with an empty body, and worked bytes.
ghost use Rattle.upload_frame.specs.Frames.{frames, IsFrame, frame_bytes};
ghost use Rattle.upload_frame.specs.Law.{LawOfColumns, LawOfFronts, LawOfFrames, LawOfReaders};
ghost use Rattle.upload_frame.specs.Replies.{replies, IsReply, reply_bytes};
ghost use Rattle.upload_frame.specs.Worked.{WorkedFrames};

/// What a stream of frames gives does not depend on how it is cut; nothing is at its front exactly where the rest is
/// unfinished; no spelling of a frame is a proper prefix of another, and each is of one frame; and a reader follows the
/// stream that it is fed.
pub fn frames_follow_streams()
    ensures fronts { LawOfFronts frames }
    ensures spellings { LawOfFrames frames IsFrame frame_bytes }
    ensures readers { LawOfReaders frames }
{}

/// The same of replies.
pub fn replies_follow_streams()
    ensures fronts { LawOfFronts replies }
    ensures spellings { LawOfFrames replies IsReply reply_bytes }
    ensures readers { LawOfReaders replies }
{}

/// The columns of an upload are read as they are spelled, and spelled as they are read.
pub fn columns_are_spelled()
    ensures { LawOfColumns }
{}

/// The spellings of known frames and the faults of bytes that are close to them, worked out by computation.
pub fn worked_frames()
    ensures { WorkedFrames }
{}
