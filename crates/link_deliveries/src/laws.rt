//! Laws over the definitions alone, each on a function with an empty body, and worked links.
ghost use Rattle.link_deliveries.specs.Laws.{LawOfDeliveries, LawOfFewness, LawOfNoLetters};
ghost use Rattle.link_deliveries.specs.Worked.{WorkedDeliveries};

/// However the letters fall, each upload that is not acknowledged comes, and no other, and by these deliveries all are
/// acknowledged, where the analyser refused none (docs/DEFINITIONS.md, Deliveries).
pub fn every_upload_comes()
    ensures { LawOfDeliveries }
{}

/// Without letters, and with none outstanding, each upload that is to be sent comes once, in order.
pub fn no_letters_no_change()
    ensures { LawOfNoLetters }
{}

/// There are at most two deliveries a letter, and one an upload that is not acknowledged.
pub fn deliveries_are_few()
    ensures { LawOfFewness }
{}

/// The definitions, worked out by computation at links with known deliveries.
pub fn worked_deliveries()
    ensures { WorkedDeliveries }
{}
