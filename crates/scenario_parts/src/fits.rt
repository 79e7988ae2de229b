//! Whether the parts fit each other, list by list.
ghost use Rattle.std.specs.Prelude.{◌<◌, ◌≤◌, All, length, Decides};
ghost use Rattle.std.specs.List.{list_all};
ghost use Rattle.lg_model.specs.Keeping.{IsFlow, IsStep, IsAsk, AreApart, IsHost};
ghost use Rattle.lg_model.specs.Scenario.{reached};
ghost use Rattle.lg_model.specs.Ranges.{IsFlowRange, IsStepRange, IsAskRange};

use crate::apart::are_apart;
use lg_model::limits::{MOST_HOPS, MOST_LETTERS};
use lg_model::{Ask, Fate, Flow, HostLine, Step};

// Whether each host has at most 4,096 letters.
pub(crate) fn hosts_fit(hosts: &[HostLine]) -> bool
    requires { All (λ h. h.name < 65536) hosts.now }
    ensures { Decides result (All IsHost hosts.now) }
{
    for host in hosts {
        if host.letters.items().len() > MOST_LETTERS {
            return false;
        }
    }
    true
}

fn are_within(path: &[u16], switches: usize) -> bool
    ensures { Decides result (All (λ s. s < switches) path.now) }
{
    path.iter().all(|at| (*at as usize) < switches)
}

// Whether a flow's host is there, and its path goes by 1 to 16 switches that are, each once.
fn is_flow(hosts: usize, switches: usize, flow: &Flow) -> bool
    requires { IsFlowRange flow.now }
    ensures { Decides result (IsFlow hosts switches flow.now) }
{
    let path = flow.path.items();
    (flow.host_at as usize) < hosts
        && path.len() >= 1
        && path.len() <= MOST_HOPS
        && are_within(path, switches)
        && are_apart(path)
}

pub(crate) fn flows_fit(hosts: usize, switches: usize, flows: &[Flow]) -> bool
    requires { All IsFlowRange flows.now }
    ensures { Decides result (All (IsFlow hosts switches) flows.now) }
{
    for flow in flows {
        if !is_flow(hosts, switches, flow) {
            return false;
        }
    }
    true
}

fn is_fate(fate: Fate, hops: usize) -> bool
    ensures { Decides result (reached fate hops ≤ hops) }
{
    match fate {
        Fate::Lost(k) => k as usize <= hops,
        Fate::Straight | Fate::Twice | Fate::Late => true,
    }
}

// Whether what a step speaks of is there: its packets, at least one, have a delay for each hop and reach no more hops
// than there are.
fn is_step(switches: usize, flows: &[Flow], step: &Step) -> bool
    requires { IsStepRange step.now }
    ensures { Decides result (IsStep switches flows.now step.now) }
{
    match step {
        Step::Packet {
            flow_at,
            delays,
            burst,
            fate,
            ..
        } => match flows.get(*flow_at as usize) {
            None => false,
            Some(flow) => {
                let hops = flow.path.items().len();
                delays.items().len() == hops && *burst >= 1 && is_fate(*fate, hops)
            }
        },
        Step::End { switch_at } => (*switch_at as usize) < switches,
        Step::EndAll | Step::Release => true,
    }
}

pub(crate) fn steps_fit(switches: &[u16], flows: &[Flow], steps: &[Step]) -> bool
    requires { All IsStepRange steps.now }
    ensures { Decides result (All (IsStep (length switches.now) flows.now) steps.now) }
{
    for step in steps {
        if !is_step(switches.len(), flows, step) {
            return false;
        }
    }
    true
}

// Whether an ask is about a flow that is there and a switch that is declared.
fn is_ask(switches: &[u16], flows: &[Flow], ask: &Ask) -> bool
    requires { IsAskRange ask.now }
    ensures { Decides result (IsAsk switches.now flows.now ask.now) }
{
    (ask.flow_at as usize) < flows.len() && switches.contains(&ask.switch)
}

pub(crate) fn asks_fit(switches: &[u16], flows: &[Flow], asks: &[Ask]) -> bool
    requires { All IsAskRange asks.now }
    ensures { Decides result (All (IsAsk switches.now flows.now) asks.now) }
{
    for ask in asks {
        if !is_ask(switches, flows, ask) {
            return false;
        }
    }
    true
}
