//! What the types of parts say of their numbers. Each function only looks at the numbers, for its clause: nothing of
//! its loop is left when it is compiled.
ghost use Rattle.std.specs.Prelude.{◌<◌, All};
ghost use Rattle.flow_key.specs.KeyText.{Fits};
ghost use Rattle.lg_model.specs.Ranges.{IsHashRange, IsPickRange, IsFlowRange, IsFateRange, IsStepRange, IsAskRange};

use crate::scenario::{Ask, Fate, Flow, Hash, HostLine, Pick, Step};
use flow_key::FlowKey;

pub(crate) fn hash_range(hash: Hash)
    ensures { IsHashRange hash }
{
    match hash {
        Hash::Ports => {}
        Hash::Seed(_) => {}
    }
}

pub(crate) fn pick_range(pick: Pick)
    ensures { IsPickRange pick }
{
    match pick {
        Pick::Turns => {}
        Pick::Chance(_) => {}
    }
}

fn host_range(host: &HostLine)
    ensures { host.now.name < 65536 }
{
    let _name = host.name;
}

pub(crate) fn host_ranges(hosts: &[HostLine])
    ensures { All (λ h. h.name < 65536) hosts.now }
{
    for host in hosts {
        host_range(host);
    }
}

pub(crate) fn switch_ranges(switches: &[u16])
    ensures { All (λ n. n < 65536) switches.now }
{}

fn key_range(key: FlowKey)
    ensures { Fits key }
{
    let FlowKey { .. } = key;
}

fn flow_range(flow: &Flow)
    ensures { IsFlowRange flow.now }
{
    let _name = flow.name;
    key_range(flow.key);
}

pub(crate) fn flow_ranges(flows: &[Flow])
    ensures { All IsFlowRange flows.now }
{
    for flow in flows {
        flow_range(flow);
    }
}

fn fate_range(fate: Fate)
    ensures { IsFateRange fate }
{
    match fate {
        Fate::Lost(_) => {}
        Fate::Straight | Fate::Twice | Fate::Late => {}
    }
}

fn delay_ranges(delays: &[u32])
    ensures { All (λ d. d < 4294967296) delays.now }
{}

fn step_range(step: &Step)
    ensures { IsStepRange step.now }
{
    match step {
        Step::Packet {
            size,
            delays,
            burst,
            fate,
            ..
        } => {
            let _size = *size;
            let _burst = *burst;
            delay_ranges(delays.items());
            fate_range(*fate);
        }
        Step::End { .. } | Step::EndAll | Step::Release => {}
    }
}

pub(crate) fn step_ranges(steps: &[Step])
    ensures { All IsStepRange steps.now }
{
    for step in steps {
        step_range(step);
    }
}

fn ask_range(ask: &Ask)
    ensures { IsAskRange ask.now }
{
    let _switch = ask.switch;
    let _epoch = ask.epoch;
}

pub(crate) fn ask_ranges(asks: &[Ask])
    ensures { All IsAskRange asks.now }
{
    for ask in asks {
        ask_range(ask);
    }
}
