//! Why there is no scenario.
use scenario_lines::Why;

/// Why a source gave no scenario.
#[derive(Clone, Copy, Debug, PartialEq, Eq)]
pub enum ScenarioFault {
    /// The text is no scenario text: its first faulty line, counted from 1, and why.
    Bad {
        /// The line, from 1 to 16,777,217.
        line: u32,
        /// Why it is refused.
        why: Why,
    },
    /// The source failed.
    ReadFault,
    /// Memory ran out.
    Memory,
}
