//! Laws over the definitions alone, on functions with empty bodies.
ghost use Rattle.run_laws.specs.Booking.{LawOfBookings};
ghost use Rattle.run_laws.specs.Truth.{LawOfTrueBooks, LawOfTrueRuns};

/// The law of true books: in a book whose content agrees with a scenario, the answer to each ask is true, and each sketch
/// that can be rebuilt is the one that its switch froze (docs/DEFINITIONS.md, Answer).
pub fn books_are_true()
    ensures { LawOfTrueBooks }
{}

/// The law of true runs: in the run of any scenario, what the packets carry is allowed, each column that comes to a host
/// is the one its switch froze, columns of one key are equal, and each answer of the report is true
/// (docs/DEFINITIONS.md, Answer).
pub fn runs_are_true()
    ensures { LawOfTrueRuns }
{}

/// The law of bookings: where the uploads of a run are booked one after the other in an empty book, the one fault is that
/// of too little room, and it comes exactly where the columns that came to the hosts have more keys than there is room
/// for. Where there is none, the content of the book is that of all columns that came (docs/DEFINITIONS.md, Booking).
pub fn bookings_hold()
    ensures { LawOfBookings }
{}
