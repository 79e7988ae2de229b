//! Laws over the cut, each on a function with an empty body.
ghost use Rattle.host_collect.specs.Cutting.{LawOfTheCut, LawOfLongestFronts};
ghost use Rattle.host_collect.specs.Collecting.{LawOfCutters};

/// The pieces of a cut are the list, each can be an upload, and each is the longest front of the rest.
pub fn cuts_are_longest()
    ensures cut { LawOfTheCut }
    ensures longest { LawOfLongestFronts }
{}

/// What a cutter gave, with what it holds, is the cut of what it took.
pub fn cutters_cut()
    ensures { LawOfCutters }
{}
