//! One line of a text.
ghost use Rattle.std.specs.Prelude.{◌≡◌, ◌≤◌, ◌+◌, length, OnOk};
ghost use Rattle.flow_key.specs.Words.{words_at};
ghost use Rattle.scenario_lines.specs.Draft.{view, FitsSoFar};
ghost use Rattle.scenario_lines.specs.Fields.{LeavesState};
ghost use Rattle.scenario_lines.specs.Line.{known_line, words_line, line_of};
ghost use Rattle.scenario_lines.specs.Spelling.{size};
ghost use Rattle.scenario_lines.specs.PrintedLen.{printed_len, first_size};
ghost use Rattle.std.specs.Option.{option_copied};
ghost use Rattle.flow_key.specs.Words.{words_left};

use crate::draft::Draft;
use crate::fault::LineFault;
use crate::section::{Keyword, Section};
use crate::why::Why;
use flow_key::words;

impl Draft {
    // The rest of a line after its first word.
    fn form(&mut self, word: Option<Keyword>, text: Option<&[u8]>) -> Result<(), LineFault>
        requires { FitsSoFar self.old }
        ensures fits { OnOk result (FitsSoFar self.new) }
        ensures leaves { LeavesState result (view self.new) (known_line word (view self.old) (words_left 32 (option_copied text.entry))) }
        ensures printed_len { OnOk result (printed_len (view self.new) ≤ printed_len (view self.old) + (first_size word + size (words_left 32 (option_copied text.entry)))) }
    {
        let Some(word) = word else {
            return Err(LineFault::Bad(Why::UnknownWord));
        };
        if !self.section.admits(word) {
            return Err(LineFault::Bad(Why::OutOfPlace));
        }
        match word {
            Keyword::Guardian => Err(LineFault::Bad(Why::OutOfPlace)),
            Keyword::Shape => self.shape(text),
            Keyword::Pick => self.pick(text),
            Keyword::Host => self.host(text),
            Keyword::Switch => self.switch(text),
            Keyword::Flow => self.flow(text),
            Keyword::Link => self.link(text),
            Keyword::Packet => self.packet(text),
            Keyword::End => self.end(text),
            Keyword::Release => self.release(text),
            Keyword::Ask => self.ask(text),
            Keyword::Done => self.done(text),
        }
    }

    // A line that isn't skipped and isn't the first.
    fn words(&mut self, line: &[u8]) -> Result<(), LineFault>
        requires { FitsSoFar self.old }
        ensures fits { OnOk result (FitsSoFar self.new) }
        ensures leaves { LeavesState result (view self.new) (words_line (view self.old) (words_at 32 line.now)) }
        ensures printed_len { OnOk result (printed_len (view self.new) ≤ printed_len (view self.old) + (length line.now + 1)) }
    {
        let (first, text) = words::cut(line, b' ');
        self.form(Keyword::of(first), text)
    }

    /// Takes the next line, given without its end. A line that is empty or begins with `#` is skipped. What the parts
    /// so far take when they are printed grows by at most the bytes of the line and one more for its end.
    ///
    /// `Bad` with a why exactly where the line is refused (docs/FORMATS.md, Scenario text), `Memory` where memory
    /// runs out. After an error the draft is to be dropped.
    #[tactic(auto, unfolding(crate::specs::Line::line_of))]
    pub fn line(&mut self, line: &[u8]) -> Result<(), LineFault>
        requires { FitsSoFar self.old }
        ensures fits { OnOk result (FitsSoFar self.new) }
        ensures leaves { LeavesState result (view self.new) (line_of (view self.old) line.now) }
        ensures printed_len { OnOk result (printed_len (view self.new) ≤ printed_len (view self.old) + (length line.now + 1)) }
    {
        match line {
            [] | [b'#', ..] => Ok(()),
            _ => {
                if matches!(self.section, Section::Version) {
                    self.first(line)
                } else {
                    self.words(line)
                }
            }
        }
    }
}
