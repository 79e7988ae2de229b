//! Laws over the pickers' definitions, each on a function with an empty body.
ghost use Rattle.column_pick.specs.Laws.{LawOfTheOffers, LawOfTheWords};

/// A stream from which each offer takes three words gives every offer what the scenario chooses by chance
/// (docs/DEFINITIONS.md, Picked list).
pub fn words_by_offers()
    ensures { LawOfTheWords }
{}

/// A picker that began fresh answers the offer of each number as the scenario's choice says, while the offers can be
/// counted (docs/DEFINITIONS.md, Picked list).
pub fn answers_by_offers()
    ensures { LawOfTheOffers }
{}
