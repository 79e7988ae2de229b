//! A law over the definitions of the two sketches, on a function with an empty body.
ghost use Rattle.epoch_freeze.specs.History.{LawOfTheEpochs};

/// After any list of packets and ends the epoch is the number of ends, the current sketch counts what was seen since
/// the last end, and the frozen one what was seen between the last two (docs/DEFINITIONS.md, Twins).
pub fn epochs_are_told()
    ensures { LawOfTheEpochs }
{}
