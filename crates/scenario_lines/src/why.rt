//! Why a line or a text is refused.
ghost use Rattle.std.specs.Prelude.{◌≡◌};
ghost use Rattle.scenario_lines.specs.Whys.{why_text};

/// Why a line or a text is refused (docs/FORMATS.md, Scenario text, Whys), in the order of the whys' numbers.
#[derive(Clone, Copy, Debug, PartialEq, Eq)]
pub enum Why {
    /// The first line that isn't skipped is not `guardian 1`.
    Version,
    /// A known first word may not stand in this place.
    OutOfPlace,
    /// The first word is none that a line begins with.
    UnknownWord,
    /// A word is missing, or one follows the last.
    WordCount,
    /// A word isn't a number of its range.
    BadNumber,
    /// A word of a key is malformed.
    BadKey,
    /// A name, a `link` or a switch of a path comes twice.
    Repeated,
    /// A host, a switch or a flow isn't declared.
    UnknownName,
    /// A path has more than 16 switches.
    BadPath,
    /// A fixed word of the line's form is another one.
    BadWord,
    /// The letters aren't 1 to 4,096 of the five.
    BadLetters,
    /// The line would pass a limit.
    TooMany,
    /// The input ended before a line `done`.
    NoDone,
    /// No line `done` stands in the first 16,777,216 bytes.
    TooLong,
}

impl Why {
    /// The text of the why, as fault lines print it.
    pub fn text(&self) -> &'static [u8]
        ensures { result.now ≡ why_text self.now }
    {
        match self {
            Why::Version => b"not guardian 1",
            Why::OutOfPlace => b"out of place",
            Why::UnknownWord => b"unknown word",
            Why::WordCount => b"word count",
            Why::BadNumber => b"bad number",
            Why::BadKey => b"bad key",
            Why::Repeated => b"repeated",
            Why::UnknownName => b"unknown name",
            Why::BadPath => b"bad path",
            Why::BadWord => b"bad word",
            Why::BadLetters => b"bad letters",
            Why::TooMany => b"too many",
            Why::NoDone => b"no done",
            Why::TooLong => b"too long",
        }
    }
}
