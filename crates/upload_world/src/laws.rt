//! The law of the world, over the definitions alone.
ghost use Rattle.upload_world.specs.Law.{LawOfTheWorld};

/// Whatever the net loses, repeats and delays, and wherever the analyser crashes: an acknowledged upload has all its
/// columns in the book, with equal buckets, no key stands there twice, the entries only grow at their end, and what was
/// acknowledged stays so. For every list of events, from a world of hosts that differ in which nothing is acknowledged
/// (docs/DEFINITIONS.md, World).
pub fn acknowledged_is_kept()
    ensures { LawOfTheWorld }
{}
