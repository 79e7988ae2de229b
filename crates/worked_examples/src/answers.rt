//! Worked examples of what arrives, what is known then, and what it answers.
ghost use Rattle.worked_examples.specs.Answers.{WorkedAnswers};
ghost use Rattle.worked_examples.specs.Arrivals.{WorkedArrivals};
ghost use Rattle.worked_examples.specs.Contents.{WorkedContents};

/// What comes to the hosts, and in which order.
pub fn worked_arrivals()
    ensures { WorkedArrivals }
{}

/// What is known after some columns, in which order, and what is joined.
pub fn worked_contents()
    ensures { WorkedContents }
{}

/// What a content answers, at the limits too.
pub fn worked_answers()
    ensures { WorkedAnswers }
{}
