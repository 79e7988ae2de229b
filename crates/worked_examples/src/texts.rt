//! Worked examples of what is read, generated and written.
ghost use Rattle.worked_examples.specs.Commands.{WorkedCommands};
ghost use Rattle.worked_examples.specs.Generators.{WorkedGenerators};
ghost use Rattle.worked_examples.specs.Lines.{WorkedLines};
ghost use Rattle.worked_examples.specs.Readings.{WorkedReadings};

/// A text with every kind of line, and texts that are refused.
pub fn worked_readings()
    ensures { WorkedReadings }
{}

/// Generated scenarios of more than one round.
pub fn worked_generators()
    ensures { WorkedGenerators }
{}

/// Lines of output and of faults, letter by letter.
pub fn worked_lines()
    ensures { WorkedLines }
{}

/// Words that are a command, and words that are none.
pub fn worked_commands()
    ensures { WorkedCommands }
{}
