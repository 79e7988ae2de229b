//! How the program ends.
ghost use Rattle.std.specs.Prelude.{◌≡◌};
ghost use Rattle.guardian_run.specs.Statuses.{code_of};

/// How the program ends (docs/FORMATS.md, Fault lines and exit statuses).
#[derive(Clone, Copy, Debug, PartialEq, Eq)]
pub enum Status {
    /// The output was written.
    Ok,
    /// The words are no command.
    BadWords,
    /// The input is no scenario text.
    BadScenario,
    /// The source failed.
    ReadFault,
    /// All was well, but the sink failed.
    WriteFault,
    /// The disk failed.
    DiskFault,
    /// The book's file is neither blank nor a journal.
    NotAJournal,
    /// The book's file is of another shape than the scenario.
    WrongShape,
    /// The book's file is damaged.
    Damaged,
    /// The book has a column of the key of one that came, with other counters.
    Conflict,
    /// A book has no room for the columns that came to the hosts, or for those of its file.
    Full,
    /// No memory was found.
    NoMemory,
    /// Not all columns of a sketch are in the book.
    Missing,
}

impl Status {
    /// The exit status.
    pub fn code(&self) -> u8
        ensures { result ≡ code_of self.now }
    {
        match self {
            Status::Ok => 0,
            Status::BadWords => 1,
            Status::BadScenario => 2,
            Status::ReadFault => 3,
            Status::WriteFault => 4,
            Status::DiskFault => 5,
            Status::NotAJournal => 6,
            Status::WrongShape => 7,
            Status::Damaged => 8,
            Status::Conflict => 9,
            Status::Full => 10,
            Status::NoMemory => 11,
            Status::Missing => 12,
        }
    }
}
