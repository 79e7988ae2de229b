//! The parts of a scenario together.
ghost use Rattle.lg_model.specs.Ranges.{HasRanges};
ghost use Rattle.lg_model.specs.Scenario.{scenario_of};

use crate::ranges::{
    ask_ranges, flow_ranges, hash_range, host_ranges, pick_range, step_ranges, switch_ranges,
};
use crate::scenario::{Ask, Flow, HostLine, Pick, Step};
use crate::shape::Shape;

/// What may be the parts of a scenario (docs/FORMATS.md, Scenario text). Steps and asks name flows by their positions,
/// flows name hosts and switches so, and an ask names its switch by its name.
#[derive(Debug, Drop)]
pub struct Parts {
    /// The shape of the sketches of every switch.
    pub shape: Shape,
    /// How every switch chooses the columns that packets carry.
    pub pick: Pick,
    /// The hosts, each with the letters of its link.
    pub hosts: Vec<HostLine>,
    /// The names of the switches.
    pub switches: Vec<u16>,
    /// The flows.
    pub flows: Vec<Flow>,
    /// What happens, in order.
    pub steps: Vec<Step>,
    /// The questions.
    pub asks: Vec<Ask>,
}

impl Parts {
    /// Nothing is done here; the clause tells that all numbers are in the ranges of their fields, as the types have it.
    pub fn ranges(&self)
        ensures { HasRanges (scenario_of self.now) }
    {
        self.shape.rows();
        hash_range(self.shape.hash());
        pick_range(self.pick);
        host_ranges(&self.hosts);
        switch_ranges(&self.switches);
        flow_ranges(&self.flows);
        step_ranges(&self.steps);
        ask_ranges(&self.asks);
    }
}
