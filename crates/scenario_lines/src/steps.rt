//! Steps and asks.
ghost use Rattle.std.specs.Prelude.{◌≡◌, ◌<◌, ◌≤◌, ◌+◌, IfOk, OnOk, true, length, slice_index};
ghost use Rattle.std.specs.Option.{option_copied};
ghost use Rattle.flow_key.specs.Words.{words_left};
ghost use Rattle.lg_model.specs.declared.limits.TheConstants.{MOST_SWITCHES, MOST_HOPS};
ghost use Rattle.lg_model.specs.Keeping.{names_of, ends_of};
ghost use Rattle.lg_model.specs.Scenario.{path_at};
ghost use Rattle.scenario_lines.specs.declared.section.Keyword.TheVariants as words;
ghost use Rattle.scenario_lines.specs.Sections.{admits};
ghost use Rattle.scenario_lines.specs.Draft.{view, FitsSoFar};
ghost use Rattle.scenario_lines.specs.Spelling.{size};
ghost use Rattle.scenario_lines.specs.PrintedLen.{printed_len};
ghost use Rattle.scenario_lines.specs.Fields.{LeavesState, GivesField, position_of, all_room, room_for_all};
ghost use Rattle.scenario_lines.specs.Line.{packet_line, end_line, end_one, end_all, release_line, ask_line};

use crate::draft::Draft;
use crate::fault::LineFault;
use crate::fields::{end_field, number_field, room_for, room_up_to};
use crate::index::find_flow;
use crate::lists::delays_field;
use crate::names::{known_name, position_of};
use crate::section::Section;
use crate::tail::{burst_field, fate_field};
use crate::why::Why;
use flow_key::words;
use flow_key::words::is;
use lg_model::limits::{MOST_ASKS, MOST_ENDS, MOST_PACKETS};
use lg_model::{Ask, Delays, Step};

impl Draft {
    #[tactic(auto, unfolding(crate::specs::Fields::position_of))]
    fn flow_at(&self, name: u16) -> Result<u16, LineFault>
        ensures gives { GivesField (λ x. x) result (position_of (names_of self.now.parts.flows.items) name) }
        ensures bound { IfOk result (λ i. i < length self.now.parts.flows.items) }
        ensures named { IfOk result (λ i. slice_index (names_of self.now.parts.flows.items) i ≡ name) }
    {
        match find_flow(&self.parts.flows, &self.flow_positions, name) {
            None => Err(LineFault::Bad(Why::UnknownName)),
            Some(at) => Ok(at),
        }
    }

    // The path of the flow at a position.
    fn path_of(&self, at: u16) -> &[u16]
        requires fits { FitsSoFar self.now }
        requires here { at < length self.now.parts.flows.items }
        ensures value { result.now ≡ path_at self.now.parts.flows.items at }
        ensures short { length result.now ≤ MOST_HOPS }
    {
        self.parts.flows[at as usize].path.items()
    }

    // The rest of a `packet` line.
    #[tactic(auto, unfolding(crate::specs::Line::packet_line))]
    pub(crate) fn packet(&mut self, text: Option<&[u8]>) -> Result<(), LineFault>
        requires fits { FitsSoFar self.old }
        requires section { admits self.old.section words.Packet ≡ true }
        ensures fits { OnOk result (FitsSoFar self.new) }
        ensures leaves { LeavesState result (view self.new) (packet_line (view self.old) (words_left 32 (option_copied text.entry))) }
        ensures printed_len { OnOk result (printed_len (view self.new) ≤ printed_len (view self.old) + (7 + size (words_left 32 (option_copied text.entry)))) }
    {
        let (name, text) = number_field(text, 0, 65535)?;
        let flow_at = self.flow_at(name as u16)?;
        let (size, text) = number_field(text, 0, 65535)?;
        let size = size as u16;
        let path = self.path_of(flow_at);
        let hops = path.len();
        let (delays, text) = delays_field(*self.parts.steps.allocator(), path, text)?;
        let (burst, text) = burst_field(text)?;
        let fate = fate_field(hops, text)?;
        let packets = self.packets + burst;
        room_up_to(MOST_PACKETS, packets)?;
        let delays = Delays::of_few(delays);
        self.parts.steps.push(Step::Packet {
            flow_at,
            size,
            delays,
            burst,
            fate,
        })?;
        self.packets = packets;
        self.section = Section::Steps;
        Ok(())
    }

    // How many epochs of the switch at a position have ended.
    fn ends_at(&self, at: usize) -> u64
        requires { at < MOST_SWITCHES }
        ensures { result ≡ ends_of at self.now.parts.steps.items }
    {
        self.ends[at] + self.ends_of_all
    }

    // Whether each of the first switches may end an epoch more.
    fn has_room(&self, switches: usize) -> bool
        requires { switches ≤ MOST_SWITCHES }
        ensures { result ≡ all_room self.now.parts.steps.items switches }
    {
        if switches == 0 {
            true
        } else if self.ends_at(switches - 1) < u64::from(MOST_ENDS) {
            self.has_room(switches - 1)
        } else {
            false
        }
    }

    #[tactic(auto, unfolding(crate::specs::Line::end_one))]
    fn end_of_one(&mut self, text: Option<&[u8]>) -> Result<(), LineFault>
        requires fits { FitsSoFar self.old }
        requires section { admits self.old.section words.End ≡ true }
        ensures fits { OnOk result (FitsSoFar self.new) }
        ensures leaves { LeavesState result (view self.new) (end_one (view self.old) (words_left 32 (option_copied text.entry))) }
        ensures printed_len { OnOk result (printed_len (view self.new) ≤ printed_len (view self.old) + (4 + size (words_left 32 (option_copied text.entry)))) }
    {
        let (switch, text) = number_field(text, 0, 65535)?;
        let switch = switch as u16;
        let switch_at = position_of(&self.parts.switches, switch)?;
        end_field(text)?;
        room_for(
            MOST_ENDS as usize,
            self.ends_at(switch_at as usize) as usize,
        )?;
        self.parts.steps.push(Step::End { switch_at })?;
        self.ends[switch_at as usize] += 1;
        self.section = Section::Steps;
        Ok(())
    }

    #[tactic(auto, unfolding(crate::specs::Line::end_all, crate::specs::Fields::room_for_all))]
    fn end_of_all(&mut self, text: Option<&[u8]>) -> Result<(), LineFault>
        requires fits { FitsSoFar self.old }
        requires section { admits self.old.section words.End ≡ true }
        ensures fits { OnOk result (FitsSoFar self.new) }
        ensures leaves { LeavesState result (view self.new) (end_all (view self.old) (words_left 32 (option_copied text.entry))) }
        ensures printed_len { OnOk result (printed_len (view self.new) ≤ printed_len (view self.old) + (8 + size (words_left 32 (option_copied text.entry)))) }
    {
        end_field(text)?;
        if !self.has_room(self.parts.switches.len()) {
            return Err(LineFault::Bad(Why::TooMany));
        }
        self.parts.steps.push(Step::EndAll)?;
        self.ends_of_all += 1;
        self.section = Section::Steps;
        Ok(())
    }

    // The rest of an `end` line.
    #[tactic(auto, unfolding(crate::specs::Line::end_line))]
    pub(crate) fn end(&mut self, text: Option<&[u8]>) -> Result<(), LineFault>
        requires fits { FitsSoFar self.old }
        requires section { admits self.old.section words.End ≡ true }
        ensures fits { OnOk result (FitsSoFar self.new) }
        ensures leaves { LeavesState result (view self.new) (end_line (view self.old) (words_left 32 (option_copied text.entry))) }
        ensures printed_len { OnOk result (printed_len (view self.new) ≤ printed_len (view self.old) + (4 + size (words_left 32 (option_copied text.entry)))) }
    {
        let Some(line) = text else {
            return Err(LineFault::Bad(Why::WordCount));
        };
        let (word, rest) = words::cut(line, b' ');
        if is(word, b"all") {
            self.end_of_all(rest)
        } else {
            self.end_of_one(Some(line))
        }
    }

    // The rest of a `release` line.
    #[tactic(auto, unfolding(crate::specs::Line::release_line))]
    pub(crate) fn release(&mut self, text: Option<&[u8]>) -> Result<(), LineFault>
        requires fits { FitsSoFar self.old }
        requires section { admits self.old.section words.Release ≡ true }
        ensures fits { OnOk result (FitsSoFar self.new) }
        ensures leaves { LeavesState result (view self.new) (release_line (view self.old) (words_left 32 (option_copied text.entry))) }
        ensures printed_len { OnOk result (printed_len (view self.new) ≤ printed_len (view self.old) + (8 + size (words_left 32 (option_copied text.entry)))) }
    {
        end_field(text)?;
        self.parts.steps.push(Step::Release)?;
        self.section = Section::Steps;
        Ok(())
    }

    // The rest of an `ask` line.
    #[tactic(auto, unfolding(crate::specs::Line::ask_line))]
    pub(crate) fn ask(&mut self, text: Option<&[u8]>) -> Result<(), LineFault>
        requires fits { FitsSoFar self.old }
        requires section { admits self.old.section words.Ask ≡ true }
        ensures fits { OnOk result (FitsSoFar self.new) }
        ensures leaves { LeavesState result (view self.new) (ask_line (view self.old) (words_left 32 (option_copied text.entry))) }
        ensures printed_len { OnOk result (printed_len (view self.new) ≤ printed_len (view self.old) + (4 + size (words_left 32 (option_copied text.entry)))) }
    {
        let (flow, text) = number_field(text, 0, 65535)?;
        let flow_at = self.flow_at(flow as u16)?;
        let (switch, text) = number_field(text, 0, 65535)?;
        let switch = switch as u16;
        known_name(&self.parts.switches, switch)?;
        let (epoch, text) = number_field(text, 0, 4294967295)?;
        let epoch = epoch as u32;
        end_field(text)?;
        room_for(MOST_ASKS, self.parts.asks.len())?;
        self.section = Section::Steps;
        self.parts.asks.push(Ask {
            flow_at,
            switch,
            epoch,
        })?;
        Ok(())
    }
}
