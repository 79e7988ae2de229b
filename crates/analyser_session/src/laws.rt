//! Laws of sessions, over the definitions alone.
ghost use Rattle.analyser_session.specs.Hearing.{LawOfInputs};

/// Every input comes to something, and to one thing alone: the frames up to a bye, to one that fails its checks, to an
/// unfinished end, or to the last that a session answers (docs/DEFINITIONS.md, Sessions). So a session over an input
/// answers `Ok`, `Frame`, `Early` or `TooMany` exactly where the input comes to it, unless it is cut short.
pub fn inputs_come_to_one_end()
    ensures { LawOfInputs }
{}
