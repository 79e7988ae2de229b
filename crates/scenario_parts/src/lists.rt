//! Whether the lists of some parts fit each other and keep their limits.
ghost use Rattle.std.specs.Prelude.{◌<◌, ◌≤◌, All, length, Decides};
ghost use Rattle.lg_model.specs.declared.limits.TheConstants.{MOST_SWITCHES};
ghost use Rattle.lg_model.specs.Keeping.{AreHosts, AreSwitches, AreFlows, AreSteps, AreAsks};
ghost use Rattle.lg_model.specs.Ranges.{IsFlowRange, IsStepRange, IsAskRange};

use crate::apart::{are_apart, are_flows_apart, are_hosts_apart};
use crate::counts::{are_few_ends, are_few_packets};
use crate::fits::{asks_fit, flows_fit, hosts_fit, steps_fit};
use lg_model::limits::{MOST_ASKS, MOST_FLOWS, MOST_HOSTS, MOST_SWITCHES};
use lg_model::{Ask, Flow, HostLine, Step};

pub(crate) fn are_hosts(hosts: &[HostLine]) -> bool
    requires { All (λ h. h.name < 65536) hosts.now }
    ensures { Decides result (AreHosts hosts.now) }
{
    hosts.len() <= MOST_HOSTS && hosts_fit(hosts) && are_hosts_apart(hosts)
}

pub(crate) fn are_switches(switches: &[u16]) -> bool
    ensures { Decides result (AreSwitches switches.now) }
{
    switches.len() <= MOST_SWITCHES && are_apart(switches)
}

pub(crate) fn are_flows(hosts: usize, switches: usize, flows: &[Flow]) -> bool
    requires { All IsFlowRange flows.now }
    ensures { Decides result (AreFlows hosts switches flows.now) }
{
    flows.len() <= MOST_FLOWS && flows_fit(hosts, switches, flows) && are_flows_apart(flows)
}

pub(crate) fn are_steps(switches: &[u16], flows: &[Flow], steps: &[Step]) -> bool
    requires ranges { All IsStepRange steps.now }
    requires few { length switches.now ≤ MOST_SWITCHES }
    ensures { Decides result (AreSteps (length switches.now) flows.now steps.now) }
{
    if !steps_fit(switches, flows, steps) {
        return false;
    }
    if !are_few_packets(steps) {
        return false;
    }
    are_few_ends(switches, steps)
}

pub(crate) fn are_asks(switches: &[u16], flows: &[Flow], asks: &[Ask]) -> bool
    requires { All IsAskRange asks.now }
    ensures { Decides result (AreAsks switches.now flows.now asks.now) }
{
    asks.len() <= MOST_ASKS && asks_fit(switches, flows, asks)
}
