//! Declarations: hosts, switches, flows, links.
ghost use Rattle.std.specs.Prelude.{◌≡◌, ◌==◌, ◌<◌, ◌≤◌, ◌+◌, true, None, OnOk, length};
ghost use Rattle.std.specs.List.{position};
ghost use Rattle.std.specs.Option.{option_copied};
ghost use Rattle.flow_key.specs.Words.{words_left};
ghost use Rattle.lg_model.specs.Keeping.{names_of};
ghost use Rattle.scenario_lines.specs.declared.section.Keyword.TheVariants as words;
ghost use Rattle.scenario_lines.specs.Sections.{admits};
ghost use Rattle.scenario_lines.specs.Draft.{view, FitsSoFar};
ghost use Rattle.scenario_lines.specs.Spelling.{size};
ghost use Rattle.scenario_lines.specs.PrintedLen.{printed_len};
ghost use Rattle.scenario_lines.specs.Fields.{LeavesState, GivesField, fresh_flow};
ghost use Rattle.scenario_lines.specs.Line.{host_line, switch_line, flow_line, unlinked, linked, link_line};

use crate::draft::Draft;
use crate::fault::LineFault;
use crate::fields::{end_field, number_field, room_for, word_field};
use crate::index::{find_flow, push_flow};
use crate::keys::key_field;
use crate::lists::{letters_field, path_field};
use crate::names::{fresh_name, host_at, new_host};
use crate::why::Why;
use lg_model::limits::{MOST_FLOWS, MOST_HOSTS, MOST_SWITCHES};
use lg_model::{Flow, HostLine, Letters, Path};

fn set_letters(hosts: &mut Vec<HostLine>, at: u16, letters: Letters)
    requires { at < length hosts.old.items }
    ensures { hosts.new.items ≡ linked hosts.old.items at letters }
{
    hosts[at as usize].letters = letters;
}

impl Draft {
    // The rest of a `host` line.
    #[tactic(auto, unfolding(crate::specs::Line::host_line))]
    pub(crate) fn host(&mut self, text: Option<&[u8]>) -> Result<(), LineFault>
        requires { FitsSoFar self.old }
        ensures fits { OnOk result (FitsSoFar self.new) }
        ensures leaves { LeavesState result (view self.new) (host_line (view self.old) (words_left 32 (option_copied text.entry))) }
        ensures printed_len { OnOk result (printed_len (view self.new) ≤ printed_len (view self.old) + (5 + size (words_left 32 (option_copied text.entry)))) }
    {
        let (name, text) = number_field(text, 0, 65535)?;
        let name = name as u16;
        new_host(&self.parts.hosts, name)?;
        end_field(text)?;
        room_for(MOST_HOSTS, self.parts.hosts.len())?;
        let letters = Letters::new(Vec::new(*self.parts.hosts.allocator()));
        self.parts.hosts.push(HostLine { name, letters })?;
        Ok(())
    }

    // The rest of a `switch` line.
    #[tactic(auto, unfolding(crate::specs::Line::switch_line))]
    pub(crate) fn switch(&mut self, text: Option<&[u8]>) -> Result<(), LineFault>
        requires fits { FitsSoFar self.old }
        requires section { admits self.old.section words.Switch ≡ true }
        ensures fits { OnOk result (FitsSoFar self.new) }
        ensures leaves { LeavesState result (view self.new) (switch_line (view self.old) (words_left 32 (option_copied text.entry))) }
        ensures printed_len { OnOk result (printed_len (view self.new) ≤ printed_len (view self.old) + (7 + size (words_left 32 (option_copied text.entry)))) }
    {
        let (name, text) = number_field(text, 0, 65535)?;
        let name = name as u16;
        fresh_name(&self.parts.switches, name)?;
        end_field(text)?;
        room_for(MOST_SWITCHES, self.parts.switches.len())?;
        self.parts.switches.push(name)?;
        Ok(())
    }

    #[tactic(auto, unfolding(crate::specs::Fields::fresh_flow))]
    fn new_flow(&self, name: u16) -> Result<(), LineFault>
        ensures gives { GivesField (λ x. x) result (fresh_flow self.now.parts.flows.items name) }
        ensures fresh { OnOk result (position (λ m. m == name) (names_of self.now.parts.flows.items) ≡ None) }
    {
        match find_flow(&self.parts.flows, &self.flow_positions, name) {
            None => Ok(()),
            Some(_) => Err(LineFault::Bad(Why::Repeated)),
        }
    }

    // The rest of a `flow` line.
    #[tactic(auto, unfolding(crate::specs::Line::flow_line))]
    pub(crate) fn flow(&mut self, text: Option<&[u8]>) -> Result<(), LineFault>
        requires { FitsSoFar self.old }
        ensures fits { OnOk result (FitsSoFar self.new) }
        ensures leaves { LeavesState result (view self.new) (flow_line (view self.old) (words_left 32 (option_copied text.entry))) }
        ensures printed_len { OnOk result (printed_len (view self.new) ≤ printed_len (view self.old) + (5 + size (words_left 32 (option_copied text.entry)))) }
    {
        let (name, text) = number_field(text, 0, 65535)?;
        let name = name as u16;
        self.new_flow(name)?;
        let (key, text) = key_field(text)?;
        let text = word_field(text, b"host")?;
        let (host, text) = number_field(text, 0, 65535)?;
        let host = host as u16;
        let host_at = host_at(&self.parts.hosts, host)?;
        let text = word_field(text, b"path")?;
        let hops = path_field(*self.parts.flows.allocator(), &self.parts.switches, text)?;
        room_for(MOST_FLOWS, self.parts.flows.len())?;
        let path = Path::new(hops);
        let flow = Flow {
            name,
            key,
            host_at,
            path,
        };
        push_flow(&mut self.parts.flows, &mut self.flow_positions, flow)?;
        Ok(())
    }

    #[tactic(auto, unfolding(crate::specs::Line::unlinked))]
    fn unlinked_host(&self, at: u16) -> Result<(), LineFault>
        ensures { GivesField (λ x. x) result (unlinked self.now.parts.hosts.items at) }
    {
        match self.parts.hosts.get(at as usize) {
            None => Err(LineFault::Bad(Why::UnknownName)),
            Some(host) => {
                if host.letters.items().len() == 0 {
                    Ok(())
                } else {
                    Err(LineFault::Bad(Why::Repeated))
                }
            }
        }
    }

    // The rest of a `link` line.
    #[tactic(auto, unfolding(crate::specs::Line::link_line))]
    pub(crate) fn link(&mut self, text: Option<&[u8]>) -> Result<(), LineFault>
        requires { FitsSoFar self.old }
        ensures fits { OnOk result (FitsSoFar self.new) }
        ensures leaves { LeavesState result (view self.new) (link_line (view self.old) (words_left 32 (option_copied text.entry))) }
        ensures printed_len { OnOk result (printed_len (view self.new) ≤ printed_len (view self.old) + (5 + size (words_left 32 (option_copied text.entry)))) }
    {
        let (host, text) = number_field(text, 0, 65535)?;
        let host = host as u16;
        let at = host_at(&self.parts.hosts, host)?;
        self.unlinked_host(at)?;
        let (letters, text) = letters_field(*self.parts.hosts.allocator(), text)?;
        end_field(text)?;
        set_letters(&mut self.parts.hosts, at, letters);
        Ok(())
    }
}
