//! Laws over the definitions, each on a function with an empty body.
ghost use Rattle.std.specs.Prelude.{◌≡◌, ℕ, List, Ok};
ghost use Rattle.lg_model.specs.Scenario.{Scenario};
ghost use Rattle.scenario_parts.specs.Printed.{text_of};
ghost use Rattle.scenario_parts.specs.Whole.{IsWhole};
ghost use Rattle.scenario_text.specs.Text.{reading, deciding, IsShortest, LawOfTheLastLine};
ghost use Rattle.scenario_text.specs.Worked.{WorkedTexts};

/// The deciding prefix of an input says what the whole input says.
pub fn prefix_decides()
    ensures { (input : List ℕ) → reading (deciding input) ≡ reading input }
{}

/// The deciding prefix is the shortest that decides: it ends with the 0A of its last line where it is not all that is
/// looked at, and after a shorter prefix any byte would count.
pub fn prefix_is_shortest()
    ensures { (input : List ℕ) → IsShortest input }
{}

/// The line of an unfinished or too long text is one more than the 0A in its deciding prefix.
pub fn unfinished_line_is_the_last()
    ensures { LawOfTheLastLine }
{}

/// The reading, worked out by computation at texts with known answers.
pub fn worked_texts()
    ensures { WorkedTexts }
{}

/// What a scenario is printed as is read as that scenario. Every `Scenario` is whole: its text has at most 16,777,216
/// bytes.
pub fn printed_is_read()
    ensures { (w : Scenario) → IsWhole w → reading (text_of w) ≡ Ok w }
{}
