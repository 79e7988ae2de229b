//! Scenarios.
ghost use Rattle.std.specs.Prelude.{◌≡◌, ◌≤◌, length, IfSome, IfNone, Ok};
ghost use Rattle.lg_model.specs.declared.limits.TheConstants.{MOST_TEXT_BYTES};
ghost use Rattle.lg_model.specs.Keeping.{IsScenario};
ghost use Rattle.lg_model.specs.Scenario.{scenario_of};
ghost use Rattle.scenario_parts.specs.Parts.{AreInRange};
ghost use Rattle.scenario_parts.specs.Printed.{text_of};
ghost use Rattle.scenario_parts.specs.Whole.{IsWhole};
ghost use Rattle.scenario_text.specs.Text.{reading};
ghost use Rattle.scenario_text.specs.New.{parts_of, IsUnsaid};
ghost use Rattle.scenario_lines.specs.Draft.{view, FitsSoFar};

use lg_model::{Ask, Flow, HostLine, Parts, Pick, Step};
use row_hash::Shape;
use scenario_lines::Draft;
use scenario_parts::is_whole;
use std::marker::Model;

/// A scenario (docs/FORMATS.md, Scenario text): a shape, a pick, and lists of hosts, switches, flows, steps and asks.
/// Steps and asks name flows by their positions, flows name hosts and switches so, and an ask names its switch by its
/// name. All positions are in range, no limit is passed, hosts, switches and flows have names of their own, and the text
/// has at most 16,777,216 bytes, so that what is printed can be read again.
#[derive(Debug, Drop)]
pub struct Scenario {
    parts: Parts,
}

impl Model for Scenario {
    ghost use Rattle.lg_model.specs.Scenario as model;
    ghost use Rattle.scenario_parts.specs.Whole as whole;

    ghost Value = { model.Scenario };

    ghost view = { λ s. model.scenario_of s.parts };

    ghost invariant = { λ s. whole.IsWhole (model.scenario_of s.parts) };
}

impl Scenario {
    /// The scenario of these parts. It takes no memory.
    ///
    /// None exactly where a position in the parts is out of range, or the text that [`print`](crate::print) would write
    /// of them is no scenario text; it may be too long to be one. The parts are dropped then.
    pub fn new(
        shape: Shape,
        pick: Pick,
        hosts: Vec<HostLine>,
        switches: Vec<u16>,
        flows: Vec<Flow>,
        steps: Vec<Step>,
        asks: Vec<Ask>,
    ) -> Option<Scenario>
        ensures some { IfSome result (λ s. s ≡ parts_of shape pick hosts.items switches.items flows.items steps.items asks.items) }
        ensures said { IfSome result (λ s. AreInRange s × (reading (text_of s) ≡ Ok s)) }
        ensures none { IfNone result (IsUnsaid (parts_of shape pick hosts.items switches.items flows.items steps.items asks.items)) }
    {
        let parts = Parts {
            shape,
            pick,
            hosts,
            switches,
            flows,
            steps,
            asks,
        };
        if !is_whole(&parts) {
            return None;
        }
        Some(Scenario { parts })
    }

    // The scenario of what the lines of a text have said.
    pub(crate) fn of(draft: Draft) -> Scenario
        requires fits { FitsSoFar draft }
        requires short { length (text_of (view draft).parts) ≤ MOST_TEXT_BYTES }
        ensures { result ≡ (view draft).parts }
    {
        let Draft { parts, .. } = draft;
        Scenario { parts }
    }

    // All parts.
    pub(crate) fn parts(&self) -> &Parts
        ensures value { scenario_of result.now ≡ self.now }
        ensures whole { IsWhole self.now }
    {
        &self.parts
    }

    /// The shape of the sketches of every switch. Clause `whole` says what every scenario keeps.
    pub fn shape(&self) -> Shape
        ensures value { result ≡ self.now.shape }
        ensures fits { IsScenario self.now }
        ensures whole { IsWhole self.now }
    {
        self.parts.shape
    }

    /// How every switch chooses the columns that packets carry.
    pub fn pick(&self) -> &Pick
        ensures value { result.now ≡ self.now.pick }
        ensures fits { IsScenario self.now }
    {
        &self.parts.pick
    }

    /// The hosts, at most 64, each with the letters of its link.
    pub fn hosts(&self) -> &[HostLine]
        ensures value { result.now ≡ self.now.hosts }
        ensures fits { IsScenario self.now }
    {
        &self.parts.hosts
    }

    /// The names of the switches, at most 64.
    pub fn switches(&self) -> &[u16]
        ensures value { result.now ≡ self.now.switches }
        ensures fits { IsScenario self.now }
    {
        &self.parts.switches
    }

    /// The flows, at most 4,096.
    pub fn flows(&self) -> &[Flow]
        ensures value { result.now ≡ self.now.flows }
        ensures fits { IsScenario self.now }
    {
        &self.parts.flows
    }

    /// What happens, in order: at most 1,000,000 packets with bursts, and at most 65,535 ends of each switch.
    pub fn steps(&self) -> &[Step]
        ensures value { result.now ≡ self.now.steps }
        ensures fits { IsScenario self.now }
    {
        &self.parts.steps
    }

    /// The questions, at most 10,000.
    pub fn asks(&self) -> &[Ask]
        ensures value { result.now ≡ self.now.asks }
        ensures fits { IsScenario self.now }
    {
        &self.parts.asks
    }
}
