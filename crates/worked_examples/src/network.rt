//! Worked examples of the network.
ghost use Rattle.worked_examples.specs.Carrying.{WorkedCarrying};
ghost use Rattle.worked_examples.specs.Hashes.{WorkedHashes};
ghost use Rattle.worked_examples.specs.Limits.{WorkedLimits};
ghost use Rattle.worked_examples.specs.Packets.{WorkedPackets};
ghost use Rattle.worked_examples.specs.Pickers.{WorkedPickers};
ghost use Rattle.worked_examples.specs.Sketches.{WorkedSketches};

/// Keys, their bytes and their text; the places of flows, by ports and by a seed.
pub fn worked_hashes()
    ensures { WorkedHashes }
{}

/// Packets, whom they meet, and what the switches see.
pub fn worked_packets()
    ensures { WorkedPackets }
{}

/// What packets do to a sketch, and what a switch freezes.
pub fn worked_sketches()
    ensures { WorkedSketches }
{}

/// Which packets carry which columns, by turns and by chance.
pub fn worked_pickers()
    ensures { WorkedPickers }
{}

/// Which lists of carried columns are allowed, and which not.
pub fn worked_carrying()
    ensures { WorkedCarrying }
{}

/// A scenario at its limits, and what is past each of them.
pub fn worked_limits()
    ensures { WorkedLimits }
{}
