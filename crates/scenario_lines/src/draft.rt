//! What the lines of a text have said so far.
ghost use Rattle.std.specs.Prelude.{◌≡◌, ◌≤◌, ◌<◌, ◌+◌, ℕ, vec_len, slice_index};
ghost use Rattle.lg_model.specs.declared.limits.TheConstants.{MOST_HOSTS, MOST_SWITCHES, MOST_FLOWS, MOST_PACKETS};
ghost use Rattle.lg_model.specs.Scenario.{packet_count};
ghost use Rattle.scenario_lines.specs.Sections.{is_done};
ghost use Rattle.scenario_lines.specs.Index.{IsIndexed};
ghost use Rattle.lg_model.specs.Keeping.{names_of, ends_of};

use crate::section::Section;
use lg_model::Parts;
use lg_model::limits::MOST_SWITCHES;

/// What the lines of a text have said so far: the section and the parts, and what is kept to take the next line
/// without looking through them.
#[derive(Debug, Drop)]
pub struct Draft {
    /// The section that the next line stands in.
    pub section: Section,
    /// The parts that were said.
    pub parts: Parts,
    /// The position of each flow, at its name.
    pub flow_positions: Vec<u16>,
    /// The packets of the steps.
    pub packets: u32,
    /// How many steps end an epoch of the switch at each position, without those that end one of every switch.
    pub ends: [u64; MOST_SWITCHES],
    /// How many steps end an epoch of every switch.
    pub ends_of_all: u64,
    pub ghost few_hosts: { vec_len parts.hosts ≤ MOST_HOSTS },
    pub ghost few_switches: { vec_len parts.switches ≤ MOST_SWITCHES },
    pub ghost few_flows: { vec_len parts.flows ≤ MOST_FLOWS },
    pub ghost indexed: { IsIndexed (names_of parts.flows.items) flow_positions.items },
    pub ghost counted: { packets ≡ packet_count parts.steps.items },
    pub ghost few_packets: { packets ≤ MOST_PACKETS },
    pub ghost ended: { (i : ℕ) → i < MOST_SWITCHES → slice_index ends i + ends_of_all ≡ ends_of i parts.steps.items },
}

impl Draft {
    /// Whether the line `done` came.
    pub fn is_done(&self) -> bool
        ensures { result ≡ is_done self.now.section }
    {
        matches!(self.section, Section::Done)
    }
}
