//! Whether parts make a scenario.
ghost use Rattle.std.specs.Prelude.{Decides};
ghost use Rattle.lg_model.specs.Keeping.{IsScenario};
ghost use Rattle.lg_model.specs.Ranges.{HasRanges};
ghost use Rattle.lg_model.specs.Scenario.{scenario_of};
ghost use Rattle.scenario_parts.specs.Whole.{IsWhole};

use crate::lists::{are_asks, are_flows, are_hosts, are_steps, are_switches};
use crate::printing::is_short;
use lg_model::Parts;

// Whether the parts fit each other and keep their limits, whatever the length of their text is.
fn is_scenario(parts: &Parts) -> bool
    ensures { Decides result (IsScenario (scenario_of parts.now)) }
{
    parts.ranges();
    let (hosts, switches) = (parts.hosts.len(), parts.switches.len());
    if !are_hosts(&parts.hosts) {
        return false;
    }
    if !are_switches(&parts.switches) {
        return false;
    }
    if !are_flows(hosts, switches, &parts.flows) {
        return false;
    }
    if !are_steps(&parts.switches, &parts.flows, &parts.steps) {
        return false;
    }
    are_asks(&parts.switches, &parts.flows, &parts.asks)
}

/// Whether the parts make a scenario: all positions are in range, no limit is passed, hosts, switches and flows have
/// names of their own, each flow goes by 1 to 16 switches, each once, each packet has a delay for each hop and
/// reaches no more hops than there are, each burst is of at least one packet, each ask is of a switch that is
/// declared, and the text of the parts is of at most 16,777,216 bytes. It takes no memory.
///
/// Clause `ranges` says that the numbers of the parts are in the ranges of their types, whatever the answer is.
pub fn is_whole(parts: &Parts) -> bool
    ensures ranges { HasRanges (scenario_of parts.now) }
    ensures whole { Decides result (IsWhole (scenario_of parts.now)) }
{
    parts.ranges();
    is_scenario(parts) && is_short(parts)
}
