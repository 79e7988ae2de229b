//! A text that comes in pieces.
ghost use Rattle.std.specs.Prelude.{◌≡◌, ◌≢◌, ◌+◌, ◌<◌, ◌≤◌, ◌^◌, ◌++◌, [], ◌∷◌, length, IfSome, IfNone, IfErr, OnOk, Err, true, false};
ghost use Rattle.std.specs.Str.Lines.{strip_carriage_return};
ghost use Rattle.lg_model.specs.declared.limits.TheConstants.{MOST_TEXT_BYTES};
ghost use Rattle.scenario_lines.specs.Draft.{view, start, FitsSoFar};
ghost use Rattle.scenario_lines.specs.Fields.{LeavesState};
ghost use Rattle.scenario_lines.specs.Line.{line_of};
ghost use Rattle.scenario_lines.specs.PrintedLen.{printed_len};
ghost use Rattle.scenario_parts.specs.Printed.{text_of};
ghost use Rattle.scenario_text.specs.declared.fault.ScenarioFault.TheVariants.{ReadFault, Memory};
ghost use Rattle.scenario_text.specs.Text.{Answers};
ghost use Rattle.scenario_text.specs.Reading.{Fed, Spent, Holds, len_so_far, IsReader, IsUnbroken, EndsAt, from_here};

use crate::fault::ScenarioFault;
use crate::scenario::Scenario;
use memchr::memchr;
use scenario_lines::{Draft, LineFault, Why};
use std::alloc::Global;

// What the lines so far have said, the bytes of the line that has not ended yet, and its number.
#[derive(Debug, Drop)]
pub(crate) struct Reader {
    pub(crate) draft: Draft,
    pub(crate) pending: Vec<u8>,
    pub(crate) line: u32,
}

fn without_return(line: &[u8]) -> &[u8]
    ensures value { result.now ≡ strip_carriage_return line.now }
    ensures short { length result.now ≤ length line.now }
{
    if line.is_empty() || line[line.len() - 1] != 13 {
        line
    } else {
        &line[..line.len() - 1]
    }
}

// How many bytes of a piece stand before its first 0A; nothing where it has none.
fn line_end(piece: &[u8]) -> Option<usize>
    ensures some { IfSome result (λ n. EndsAt n piece.now) }
    ensures none { IfNone result (IsUnbroken piece.now) }
{
    memchr(b'\n', piece)
}

impl Reader {
    pub(crate) fn new(alloc: Global) -> Reader
        ensures pending { result.pending.items ≡ [] }
        ensures line { result.line ≡ 1 }
        ensures start { view result.draft ≡ start }
        ensures reader { IsReader result }
    {
        Reader {
            draft: Draft::new(alloc),
            pending: Vec::new(alloc),
            line: 1,
        }
    }

    // The pending line with these last bytes of it, which are not copied where none are pending.
    #[tactic(auto, using(crate::proofs::ReaderLemmas::unbroken_both))]
    fn take_line(&mut self, front: &[u8]) -> Result<(), LineFault>
        requires reader { IsReader self.old }
        requires unbroken { IsUnbroken front.now }
        ensures leaves { LeavesState result (view self.new.draft) (line_of (view self.old.draft) (strip_carriage_return (self.old.pending.items ++ front.now))) }
        ensures reader { OnOk result (IsReader self.new) }
        ensures printed_len { OnOk result (printed_len (view self.new.draft) ≤ printed_len (view self.old.draft) + (length self.old.pending.items + length front.now + 1)) }
        ensures line { self.new.line ≡ self.old.line }
    {
        if self.pending.is_empty() {
            self.draft.line(without_return(front))
        } else {
            self.pending.extend_from_slice(front)?;
            self.draft.line(without_return(&self.pending))
        }
    }

    // The end of the pending line after these last bytes of it. `true` where it was the last one.
    fn end_line(&mut self, front: &[u8]) -> Result<bool, ScenarioFault>
        requires reader { IsReader self.old }
        requires unbroken { IsUnbroken front.now }
        requires short { self.old.line + 1 < 2 ^ 32 }
        ensures fed { Fed self.old (front.now ++ 10 ∷ []) self.new result }
        ensures spent { Spent self.old (front.now ++ 10 ∷ []) self.new result }
        ensures printed_len { Holds self.old (length front.now + 1) self.new result }
        ensures reader { OnOk result (IsReader self.new) }
        ensures short { self.new.line ≤ self.old.line + 1 }
    {
        match self.take_line(front) {
            Err(LineFault::Memory) => return Err(ScenarioFault::Memory),
            Err(LineFault::Bad(why)) => {
                return Err(ScenarioFault::Bad {
                    line: self.line,
                    why,
                });
            }
            Ok(()) => {}
        }
        if self.draft.is_done() {
            return Ok(true);
        }
        self.pending.clear();
        self.line += 1;
        Ok(false)
    }

    // Bytes of a line that doesn't end in them.
    fn keep(&mut self, front: &[u8]) -> Result<(), ScenarioFault>
        requires reader { IsReader self.old }
        requires unbroken { IsUnbroken front.now }
        ensures kept { OnOk result (self.new.pending.items ≡ self.old.pending.items ++ front.now) }
        ensures reader { OnOk result (IsReader self.new) }
        ensures draft { self.new.draft ≡ self.old.draft }
        ensures line { self.new.line ≡ self.old.line }
        ensures memory { IfErr result (λ e. e ≡ Memory) }
    {
        match self.pending.extend_from_slice(front) {
            Ok(()) => Ok(()),
            Err(_) => Err(ScenarioFault::Memory),
        }
    }

    // The next bytes. `true` where the line `done` ended in them; bytes after it are not looked at.
    pub(crate) fn feed(&mut self, piece: &[u8]) -> Result<bool, ScenarioFault>
        requires reader { IsReader self.old }
        requires short { self.old.line + length piece.now < 2 ^ 32 }
        ensures fed { Fed self.old piece.now self.new result }
        ensures spent { Spent self.old piece.now self.new result }
        ensures printed_len { Holds self.old (length piece.now) self.new result }
        ensures reader { OnOk result (IsReader self.new) }
        ensures short { self.new.line ≤ self.old.line + length piece.now }
    {
        let mut from = 0;
        while let Some(len) = line_end(&piece[from..]) {
            match self.end_line(&piece[from..from + len]) {
                Ok(false) => {}
                Ok(true) => return Ok(true),
                Err(e) => return Err(e),
            }
            from += len + 1;
        }
        match self.keep(&piece[from..]) {
            Ok(()) => Ok(false),
            Err(e) => Err(e),
        }
    }

    // The end of the input: an unfinished last line may be `done`.
    pub(crate) fn end(mut self) -> Result<Scenario, ScenarioFault>
        requires reader { IsReader self }
        requires short { len_so_far self < MOST_TEXT_BYTES }
        ensures says { Answers result (from_here false self []) }
        ensures no_fault { IfErr result (λ e. e ≢ ReadFault) }
    {
        match self.draft.line(&self.pending) {
            Err(LineFault::Memory) => return Err(ScenarioFault::Memory),
            Err(LineFault::Bad(why)) => {
                return Err(ScenarioFault::Bad {
                    line: self.line,
                    why,
                });
            }
            Ok(()) => {}
        }
        if self.draft.is_done() {
            Ok(self.scenario())
        } else {
            Err(ScenarioFault::Bad {
                line: self.line,
                why: Why::NoDone,
            })
        }
    }

    // No line `done` in the bytes that a text may have.
    pub(crate) fn stop(self) -> ScenarioFault
        requires { IsReader self }
        ensures says { Answers (Err result) (from_here true self []) }
        ensures no_fault { result ≢ ReadFault }
    {
        ScenarioFault::Bad {
            line: self.line,
            why: Why::TooLong,
        }
    }

    // The scenario of the lines so far.
    pub(crate) fn scenario(self) -> Scenario
        requires fits { FitsSoFar self.draft }
        requires short { length (text_of (view self.draft).parts) ≤ MOST_TEXT_BYTES }
        ensures { result ≡ (view self.draft).parts }
    {
        let Reader { draft, .. } = self;
        Scenario::of(draft)
    }
}
