//! Why a command gives no output.
ghost use Rattle.std.specs.Prelude.{◌≡◌};
ghost use Rattle.guardian_run.specs.Refusals.{file_refusal, refusal_of};
ghost use Rattle.guardian_run.specs.declared.refusal.Refusal.TheVariants as refusals;

use book_journal::OpenFault;
use lg_base::Memory;
use lg_model::Shape;
use scenario_text::{ScenarioFault, Why};

/// Why a command gives no output, with what its line says (docs/FORMATS.md, Fault lines and exit statuses).
#[derive(Clone, Copy, Debug, PartialEq, Eq)]
pub enum Refusal {
    /// The words are no command.
    BadWords,
    /// The input is no scenario text: its first faulty line, from 1, and why.
    BadScenario {
        /// The line, from 1 to 16,777,217.
        line: u32,
        /// Why it is refused.
        why: Why,
    },
    /// The source failed.
    ReadFault,
    /// The disk failed.
    DiskFault,
    /// The book's file is neither blank nor a journal.
    NotAJournal,
    /// The book's file is of another shape than the scenario.
    WrongShape {
        /// The shape of the file.
        kept: Shape,
        /// The shape of the scenario.
        asked: Shape,
    },
    /// The book's file is damaged.
    Damaged {
        /// The place of the gate that is missing, or after which no record stands, in bytes.
        at: u64,
    },
    /// The book of the run, or of the file, has no room.
    Full {
        /// The columns that it has.
        held: u32,
        /// The new ones of the upload, or those of the record, for which it has no room.
        more: u32,
    },
    /// Not all columns of a sketch are in the book.
    Missing {
        /// The name of the switch.
        switch: u16,
        /// The epoch.
        epoch: u32,
        /// How many columns are.
        known: u16,
        /// How many the sketch has.
        width: u16,
    },
    /// A sketch is to be rebuilt, and the book is blank.
    Blank,
    /// No memory was found.
    Memory,
}

impl From<ScenarioFault> for Refusal {
    ghost from_gives = { λ fault refusal. refusal ≡ refusal_of fault };

    fn from(fault: ScenarioFault) -> Self {
        match fault {
            ScenarioFault::Bad { line, why } => Refusal::BadScenario { line, why },
            ScenarioFault::ReadFault => Refusal::ReadFault,
            ScenarioFault::Memory => Refusal::Memory,
        }
    }
}

impl From<OpenFault> for Refusal {
    ghost from_gives = { λ fault refusal. refusal ≡ file_refusal fault };

    fn from(fault: OpenFault) -> Self {
        match fault {
            OpenFault::DiskFault => Refusal::DiskFault,
            OpenFault::NotAJournal => Refusal::NotAJournal,
            OpenFault::WrongShape { kept, asked } => Refusal::WrongShape { kept, asked },
            OpenFault::Damaged { at } => Refusal::Damaged { at },
            OpenFault::Full { held, more } => Refusal::Full { held, more },
            OpenFault::Memory => Refusal::Memory,
        }
    }
}

impl From<Memory> for Refusal {
    ghost from_gives = { λ _ refusal. refusal ≡ refusals.Memory };

    fn from(_: Memory) -> Self {
        Refusal::Memory
    }
}
