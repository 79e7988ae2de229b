//! A law over the definition of an answer, on a function with an empty body.
ghost use Rattle.flow_query.specs.Told.{LawOfExactAnswers};

/// An answer is `unknown` exactly where no row of the flow is known, `saturated` exactly where the least known counter
/// is the counter's last value, and else the least known counter (docs/DEFINITIONS.md, Answer).
pub fn answers_are_exact()
    ensures { LawOfExactAnswers }
{}
