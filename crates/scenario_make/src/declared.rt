//! What a generated scenario declares: two hosts, four switches and eight flows.
ghost use Rattle.std.specs.Prelude.{◌≡◌, ◌≤◌, IfOk};
ghost use Rattle.scenario_make.specs.Generator.{generated_hosts, generated_switches, generated_flow, generated_flows};

use flow_key::FlowKey;
use lg_base::Memory;
use lg_model::{Flow, HostLine, Letter, Letters, Path};
use std::alloc::Global;

/// How many flows there are. Their names are 1 to 8.
pub(crate) const FLOWS: u16 = 8;

// A host and the letters of its link.
fn host(alloc: Global, name: u16, letters: [Letter; 4]) -> Result<HostLine, Memory>
    ensures name { IfOk result (λ host. host.name ≡ name) }
    ensures letters { IfOk result (λ host. host.letters ≡ letters) }
{
    let letters = letters.to_vec(alloc)?;
    Ok(HostLine {
        name,
        letters: Letters::new(letters),
    })
}

/// The hosts 1 and 2. Memory where there is none for them.
pub(crate) fn hosts(alloc: Global) -> Result<Vec<HostLine>, Memory>
    ensures { IfOk result (λ hosts. hosts.items ≡ generated_hosts) }
{
    let mut hosts = Vec::new(alloc);
    hosts.push(host(
        alloc,
        1,
        [Letter::Lose, Letter::LoseReply, Letter::Twice, Letter::Hold],
    )?)?;
    hosts.push(host(
        alloc,
        2,
        [
            Letter::Hold,
            Letter::Deliver,
            Letter::Lose,
            Letter::LoseReply,
        ],
    )?)?;
    Ok(hosts)
}

/// The names of the switches, 1 to 4. Memory where there is none for them.
pub(crate) fn switches(alloc: Global) -> Result<Vec<u16>, Memory>
    ensures { IfOk result (λ switches. switches.items ≡ generated_switches) }
{
    Ok([1, 2, 3, 4].to_vec(alloc)?)
}

// The path of the flow of that name: three of the four switches, from its own on.
fn path(alloc: Global, name: u16) -> Result<Path, Memory>
    requires { name ≤ 8 }
    ensures { IfOk result (λ path. path ≡ (generated_flow name).path) }
{
    let switches = [name % 4, (name + 1) % 4, (name + 2) % 4].to_vec(alloc)?;
    Ok(Path::new(switches))
}

// The key of the flow of that name.
fn key(name: u16) -> FlowKey
    requires { name ≤ 8 }
    ensures { result ≡ (generated_flow name).key }
{
    FlowKey {
        src: [10, 0, 0, name as u8],
        dst: [10, 0, 1, name as u8],
        proto: 6,
        sport: 1000 + name,
        dport: 80,
    }
}

// The flow of that name.
fn flow(alloc: Global, name: u16) -> Result<Flow, Memory>
    requires { name ≤ 8 }
    ensures { IfOk result (λ flow. flow ≡ generated_flow name) }
{
    Ok(Flow {
        name,
        key: key(name),
        host_at: name % 2,
        path: path(alloc, name)?,
    })
}

/// The flows. Memory where there is none for them.
pub(crate) fn flows(alloc: Global) -> Result<Vec<Flow>, Memory>
    ensures { IfOk result (λ flows. flows.items ≡ generated_flows) }
{
    let mut flows = Vec::new(alloc);
    for at in 0..FLOWS {
        flows.push(flow(alloc, at + 1)?)?;
    }
    Ok(flows)
}
