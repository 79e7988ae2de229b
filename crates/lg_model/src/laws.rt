//! Laws over the definitions alone, each on a function with an empty body, and worked scenarios.
ghost use Rattle.lg_model.specs.Bound.{LawOfTheBound, LawOfTheLimits, LawOfTheAnswer};
ghost use Rattle.lg_model.specs.Settled.{LawOfTheFrozen};
ghost use Rattle.lg_model.specs.Carrying.{LawOfThePickedList};
ghost use Rattle.lg_model.specs.Counting.{LawOfTheArrivals};
ghost use Rattle.lg_model.specs.Worked.{WorkedScenarios};

/// No counter of a flow is below its true value, up to the counter's last value
/// (docs/DEFINITIONS.md, Bound).
pub fn counters_are_bounds()
    ensures { LawOfTheBound }
{}

/// No counter of a sketch is above the last value of its type.
pub fn counters_stay_low()
    ensures { LawOfTheLimits }
{}

/// A printed number is at least the true one, where the columns are the frozen ones.
pub fn answers_are_true()
    ensures { LawOfTheAnswer }
{}

/// A frozen sketch depends on nothing that comes after the end of its epoch.
pub fn frozen_is_settled()
    ensures { LawOfTheFrozen }
{}

/// What a scenario's own pickers let the packets carry is allowed, with no run needed (docs/DEFINITIONS.md, Picked
/// list).
pub fn picked_lists_are_allowed()
    ensures { LawOfThePickedList }
{}

/// At most twice as many columns come to a host as there are packets (docs/DEFINITIONS.md, Brought columns).
pub fn arrivals_are_few()
    ensures { LawOfTheArrivals }
{}

/// The definitions, worked out by computation at scenarios with known answers.
pub fn worked_scenarios()
    ensures { WorkedScenarios }
{}
