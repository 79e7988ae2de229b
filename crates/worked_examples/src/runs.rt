//! Worked examples of what a run leaves and keeps.
ghost use Rattle.worked_examples.specs.Keeping.{WorkedKeeping};

/// Which lists are legal, what is left and kept, what is acknowledged, and what a rebuilt sketch is not.
pub fn worked_keeping()
    ensures { WorkedKeeping }
{}
