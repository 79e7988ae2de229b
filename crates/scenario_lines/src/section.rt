//! The sections of a text and the first words of lines.
ghost use Rattle.std.specs.Prelude.{◌≡◌, ◌+◌, length, IfSome};
ghost use Rattle.scenario_lines.specs.Sections.{keyword_of, admits};
ghost use Rattle.scenario_lines.specs.PrintedLen.{keyword_size};

use flow_key::words::is;

/// The part of a text that the next line stands in (docs/FORMATS.md, Scenario text).
#[derive(Clone, Copy, Debug, PartialEq, Eq)]
pub enum Section {
    /// No line came that isn't skipped: the line of the version comes next.
    Version,
    /// The line of the version came: the shape comes next.
    Shape,
    /// The shape came: the pick comes next.
    Pick,
    /// The pick came, and no step or ask.
    Declarations,
    /// A step or an ask came.
    Steps,
    /// The line `done` came.
    Done,
}

/// The first words of lines.
#[derive(Clone, Copy, Debug, PartialEq, Eq)]
pub enum Keyword {
    /// `guardian`
    Guardian,
    /// `shape`
    Shape,
    /// `pick`
    Pick,
    /// `host`
    Host,
    /// `switch`
    Switch,
    /// `flow`
    Flow,
    /// `link`
    Link,
    /// `packet`
    Packet,
    /// `end`
    End,
    /// `release`
    Release,
    /// `ask`
    Ask,
    /// `done`
    Done,
}

impl Keyword {
    // The first word that this word is.
    #[tactic(auto, unfolding(crate::specs::Sections::keyword_of))]
    pub(crate) fn of(word: &[u8]) -> Option<Keyword>
        ensures value { result ≡ keyword_of word.now }
        ensures taken { IfSome result (λ k. length word.now + 1 ≡ keyword_size k) }
    {
        if is(word, b"guardian") {
            Some(Keyword::Guardian)
        } else if is(word, b"shape") {
            Some(Keyword::Shape)
        } else if is(word, b"pick") {
            Some(Keyword::Pick)
        } else if is(word, b"host") {
            Some(Keyword::Host)
        } else if is(word, b"switch") {
            Some(Keyword::Switch)
        } else if is(word, b"flow") {
            Some(Keyword::Flow)
        } else if is(word, b"link") {
            Some(Keyword::Link)
        } else if is(word, b"packet") {
            Some(Keyword::Packet)
        } else if is(word, b"end") {
            Some(Keyword::End)
        } else if is(word, b"release") {
            Some(Keyword::Release)
        } else if is(word, b"ask") {
            Some(Keyword::Ask)
        } else if is(word, b"done") {
            Some(Keyword::Done)
        } else {
            None
        }
    }
}

impl Section {
    // Whether a line with this first word may stand in the section.
    pub(crate) fn admits(self, word: Keyword) -> bool
        ensures { result ≡ admits self word }
    {
        match self {
            Section::Shape => matches!(word, Keyword::Shape),
            Section::Pick => matches!(word, Keyword::Pick),
            Section::Declarations => matches!(
                word,
                Keyword::Host
                    | Keyword::Switch
                    | Keyword::Flow
                    | Keyword::Link
                    | Keyword::Packet
                    | Keyword::End
                    | Keyword::Release
                    | Keyword::Ask
                    | Keyword::Done
            ),
            Section::Steps => matches!(
                word,
                Keyword::Packet | Keyword::End | Keyword::Release | Keyword::Ask | Keyword::Done
            ),
            _ => false,
        }
    }
}
