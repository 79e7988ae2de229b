//! The start of a text, its first three lines and its last line.
ghost use Rattle.std.specs.Prelude.{◌≡◌, ◌≤◌, ◌+◌, true, OnOk, length};
ghost use Rattle.std.specs.Option.{option_copied};
ghost use Rattle.flow_key.specs.Words.{words_left};
ghost use Rattle.scenario_lines.specs.declared.section.Keyword.TheVariants as words;
ghost use Rattle.scenario_lines.specs.Sections.{is_first, admits};
ghost use Rattle.lg_model.specs.Placing.{IsShape};
ghost use Rattle.lg_model.specs.Scenario.{scenario_of};
ghost use Rattle.scenario_lines.specs.Draft.{view, no_parts, start, FitsSoFar};
ghost use Rattle.scenario_lines.specs.Fields.{LeavesState};
ghost use Rattle.scenario_lines.specs.Spelling.{size};
ghost use Rattle.scenario_lines.specs.PrintedLen.{printed_len};
ghost use Rattle.scenario_lines.specs.Line.{first_line, shape_line, pick_line, done_line};

use crate::draft::Draft;
use crate::fault::LineFault;
use crate::fields::{end_field, hash_field, number_field, pick_field};
use crate::section::Section;
use crate::why::Why;
use flow_key::words::is;
use lg_model::limits::{MOST_ROWS, MOST_SWITCHES, MOST_WIDTH};
use lg_model::{Hash, Parts, Pick, Shape};
use std::alloc::Global;

// A shape whose rows and width are in range.
fn shape_of(rows: u8, width: u16, hash: Hash) -> Shape
    requires { IsShape rows width }
    ensures { result ≡ record { rows = rows; width = width; hash = hash } }
{
    match Shape::new(rows, width, hash) {
        None => unreachable!(),
        Some(shape) => shape,
    }
}

// The parts before the first line.
fn no_parts(alloc: Global) -> Parts
    ensures { scenario_of result ≡ no_parts }
{
    Parts {
        shape: shape_of(1, 1, Hash::Ports),
        pick: Pick::Turns,
        hosts: Vec::new(alloc),
        switches: Vec::new(alloc),
        flows: Vec::new(alloc),
        steps: Vec::new(alloc),
        asks: Vec::new(alloc),
    }
}

impl Draft {
    /// Before the first line. Takes no memory yet; the parts will lie in memory of this allocator.
    pub fn new(alloc: Global) -> Draft
        ensures start { view result ≡ start }
        ensures fits { FitsSoFar result }
    {
        Draft {
            section: Section::Version,
            parts: no_parts(alloc),
            flow_positions: Vec::new(alloc),
            packets: 0,
            ends: [0; MOST_SWITCHES],
            ends_of_all: 0,
        }
    }

    // The first line, given whole.
    pub(crate) fn first(&mut self, line: &[u8]) -> Result<(), LineFault>
        requires fits { FitsSoFar self.old }
        requires section { is_first self.old.section ≡ true }
        ensures fits { OnOk result (FitsSoFar self.new) }
        ensures leaves { LeavesState result (view self.new) (first_line (view self.old) line.now) }
        ensures printed_len { OnOk result (printed_len (view self.new) ≤ printed_len (view self.old) + (length line.now + 1)) }
    {
        if is(line, b"guardian 1") {
            self.section = Section::Shape;
            Ok(())
        } else {
            Err(LineFault::Bad(Why::Version))
        }
    }

    // The rest of a `shape` line.
    #[tactic(auto, unfolding(crate::specs::Line::shape_line))]
    pub(crate) fn shape(&mut self, text: Option<&[u8]>) -> Result<(), LineFault>
        requires fits { FitsSoFar self.old }
        requires section { admits self.old.section words.Shape ≡ true }
        ensures fits { OnOk result (FitsSoFar self.new) }
        ensures leaves { LeavesState result (view self.new) (shape_line (view self.old) (words_left 32 (option_copied text.entry))) }
        ensures printed_len { OnOk result (printed_len (view self.new) ≤ printed_len (view self.old) + (6 + size (words_left 32 (option_copied text.entry)))) }
    {
        let (rows, text) = number_field(text, 1, u64::from(MOST_ROWS))?;
        let (width, text) = number_field(text, 1, u64::from(MOST_WIDTH))?;
        let (hash, text) = hash_field(text)?;
        end_field(text)?;
        self.section = Section::Pick;
        self.parts.shape = shape_of(rows as u8, width as u16, hash);
        Ok(())
    }

    // The rest of a `pick` line.
    #[tactic(auto, unfolding(crate::specs::Line::pick_line))]
    pub(crate) fn pick(&mut self, text: Option<&[u8]>) -> Result<(), LineFault>
        requires fits { FitsSoFar self.old }
        requires section { admits self.old.section words.Pick ≡ true }
        ensures fits { OnOk result (FitsSoFar self.new) }
        ensures leaves { LeavesState result (view self.new) (pick_line (view self.old) (words_left 32 (option_copied text.entry))) }
        ensures printed_len { OnOk result (printed_len (view self.new) ≤ printed_len (view self.old) + (5 + size (words_left 32 (option_copied text.entry)))) }
    {
        let (pick, text) = pick_field(text)?;
        end_field(text)?;
        self.section = Section::Declarations;
        self.parts.pick = pick;
        Ok(())
    }

    // The rest of a `done` line.
    #[tactic(auto, unfolding(crate::specs::Line::done_line))]
    pub(crate) fn done(&mut self, text: Option<&[u8]>) -> Result<(), LineFault>
        requires fits { FitsSoFar self.old }
        requires section { admits self.old.section words.Done ≡ true }
        ensures fits { OnOk result (FitsSoFar self.new) }
        ensures leaves { LeavesState result (view self.new) (done_line (view self.old) (words_left 32 (option_copied text.entry))) }
        ensures printed_len { OnOk result (printed_len (view self.new) ≤ printed_len (view self.old) + (5 + size (words_left 32 (option_copied text.entry)))) }
    {
        end_field(text)?;
        self.section = Section::Done;
        Ok(())
    }
}
