//! Laws over the definitions, each on a function with an empty body.
ghost use Rattle.column_book.specs.Law.{LawOfApplying};
ghost use Rattle.column_book.specs.Outcomes.{LawOfContents, LawOfOutcomes};

/// A check and an addition are what an upload does to a list of entries (docs/DEFINITIONS.md, Apply).
pub fn check_and_add_apply()
    ensures { LawOfApplying }
{}

/// What follows from each answer to an upload: the first column of another size, the first that is in conflict, the
/// room that is too small, that all is known, or which columns are new (docs/DEFINITIONS.md, Apply).
pub fn answers_follow()
    ensures { LawOfOutcomes }
{}

/// The content after an upload that was taken is the join of the content before and the upload's, and the two can be
/// joined (docs/DEFINITIONS.md, Content).
pub fn contents_are_joined()
    ensures { LawOfContents }
{}
