//! Laws over the definitions alone.
ghost use Rattle.shared_book.specs.Passes.{LawOfApplies};
ghost use Rattle.shared_book.specs.Replying.{LawOfReplies};

/// What a journal answers to an upload, where it finds memory and its disk works, is replied to as the rule says of what
/// the book decides: known, stored or the first fault (docs/DEFINITIONS.md, Replies).
pub fn replies_follow_decisions()
    ensures { LawOfReplies }
{}

/// What [`SharedBook::apply`] answers, by the list that the pass has seen after it: at `Stored(p)` that list has length
/// p + 1 and ends with what the upload becomes on the first p entries; at every other answer the decision is the one on
/// it (docs/DEFINITIONS.md, Shared book).
///
/// [`SharedBook::apply`]: crate::SharedBook::apply
pub fn applies_are_told()
    ensures { LawOfApplies }
{}
