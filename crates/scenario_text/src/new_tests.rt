//! Scenarios that are made of parts.
ghost use Rattle.std.specs.Prelude.{◌<◌};

use crate::tests::source;
use crate::{Scenario, print, read};
use flow_key::FlowKey;
use lg_model::{Ask, Delays, Fate, Flow, HostLine, Letter, Letters, Parts, Path, Pick, Step};
use row_hash::{Hash, Shape};
use std::alloc::Global;
use std::process::Abort;
use std::test::Fail;

fn host(alloc: Global, name: u16, letters: usize) -> Result<HostLine, Fail> {
    let mut list = Vec::new(alloc);
    list.resize(letters, Letter::Hold)?;
    Ok(HostLine {
        name,
        letters: Letters::new(list),
    })
}

fn flow(alloc: Global, name: u16, host_at: u16, path: &[u16]) -> Result<Flow, Fail> {
    Ok(Flow {
        name,
        key: FlowKey {
            src: [10, 0, 0, 1],
            dst: [255, 255, 255, 255],
            proto: 6,
            sport: 2,
            dport: 65535,
        },
        host_at,
        path: Path::new(path.to_vec(alloc)?),
    })
}

fn packet(alloc: Global, flow_at: u16, hops: usize, burst: u32, fate: Fate) -> Result<Step, Fail> {
    let mut delays = Vec::new(alloc);
    delays.resize(hops, u32::MAX)?;
    Ok(Step::Packet {
        flow_at,
        size: 65535,
        delays: Delays::new(delays),
        burst,
        fate,
    })
}

// Two hosts, two switches, flows over one switch and over both, and a step and an ask of each kind.
fn parts(alloc: Global, shape: Shape) -> Result<Parts, Fail> {
    let mut parts = Parts {
        shape,
        pick: Pick::Chance(u64::MAX),
        hosts: Vec::new(alloc),
        switches: [1, 65535].to_vec(alloc)?,
        flows: Vec::new(alloc),
        steps: Vec::new(alloc),
        asks: Vec::new(alloc),
    };
    parts.hosts.push(host(alloc, 1, 0)?)?;
    parts.hosts.push(host(alloc, 2, 3)?)?;
    parts.flows.push(flow(alloc, 1, 0, &[1])?)?;
    parts.flows.push(flow(alloc, 2, 1, &[1, 0])?)?;
    parts.steps.push(packet(alloc, 0, 1, 1, Fate::Lost(1))?)?;
    parts.steps.push(packet(alloc, 1, 2, 2, Fate::Late)?)?;
    parts.steps.push(Step::End { switch_at: 1 })?;
    parts.steps.push(Step::EndAll)?;
    parts.steps.push(Step::Release)?;
    parts.asks.push(Ask {
        flow_at: 1,
        switch: 65535,
        epoch: u32::MAX,
    })?;
    Ok(parts)
}

fn shape(rt: &impl Abort) -> Shape {
    match Shape::new(8, 4096, Hash::Seed(u64::MAX)) {
        Some(shape) => shape,
        None => rt.abort(),
    }
}

// Whether the parts make a scenario; where they do, its text is read as one that prints the same.
fn is_made(rt: &impl Abort, alloc: Global, parts: Parts) -> Result<bool, Fail> {
    let Parts {
        shape,
        pick,
        hosts,
        switches,
        flows,
        steps,
        asks,
    } = parts;
    let Some(scenario) = Scenario::new(shape, pick, hosts, switches, flows, steps, asks) else {
        return Ok(false);
    };
    let text = print(alloc, &scenario)?;
    let mut again = source(alloc, &text, 4096)?;
    let same = read(alloc, &mut again)?;
    assert_eq!(*rt; print(alloc, &same)?.as_slice(), text.as_slice());
    Ok(true)
}

fn with_host(rt: &impl Abort, alloc: Global, name: u16, letters: usize) -> Result<bool, Fail> {
    let mut parts = parts(alloc, shape(rt))?;
    parts.hosts.push(host(alloc, name, letters)?)?;
    is_made(rt, alloc, parts)
}

fn with_switch(rt: &impl Abort, alloc: Global, name: u16) -> Result<bool, Fail> {
    let mut parts = parts(alloc, shape(rt))?;
    parts.switches.push(name)?;
    is_made(rt, alloc, parts)
}

fn with_flow(
    rt: &impl Abort,
    alloc: Global,
    name: u16,
    host_at: u16,
    path: &[u16],
) -> Result<bool, Fail> {
    let mut parts = parts(alloc, shape(rt))?;
    for name in 2..18 {
        parts.switches.push(name)?;
    }
    parts.flows.push(flow(alloc, name, host_at, path)?)?;
    is_made(rt, alloc, parts)
}

fn with_step(rt: &impl Abort, alloc: Global, step: Step) -> Result<bool, Fail> {
    let mut parts = parts(alloc, shape(rt))?;
    parts.steps.push(step)?;
    is_made(rt, alloc, parts)
}

fn with_ask(rt: &impl Abort, alloc: Global, flow_at: u16, switch: u16) -> Result<bool, Fail> {
    let mut parts = parts(alloc, shape(rt))?;
    let epoch = 0;
    parts.asks.push(Ask {
        flow_at,
        switch,
        epoch,
    })?;
    is_made(rt, alloc, parts)
}

#[test]
fn declared_parts(rt: HostRuntime) -> Result<(), Fail> {
    let alloc = rt.alloc();
    assert!(rt; is_made(&rt, alloc, parts(alloc, shape(&rt))?)?);
    for (name, letters, made) in [
        (0, 0, true),
        (1, 0, false),
        (2, 1, false),
        (3, 4096, true),
        (3, 4097, false),
    ] {
        assert_eq!(rt;
            with_host(&rt, alloc, name, letters)?,
            made,
            "{name} {letters}"
        );
    }
    for (name, made) in [(0, true), (1, false), (2, true), (65535, false)] {
        assert_eq!(rt; with_switch(&rt, alloc, name)?, made, "{name}");
    }
    let path = [17, 16, 15, 14, 13, 12, 11, 10, 9, 8, 7, 6, 5, 4, 3, 2, 1];
    for (name, host_at, from, to, made) in [
        (3, 1, 0, 1, true),
        (3, 1, 0, 16, true),
        (3, 1, 0, 17, false),
        (3, 1, 0, 0, false),
        (3, 2, 0, 1, false),
        (2, 1, 0, 1, false),
        (65535, 0, 4, 9, true),
    ] {
        assert_eq!(rt;
            with_flow(&rt, alloc, name, host_at, &path[from..to])?,
            made,
            "{name} {to}"
        );
    }
    assert!(rt; !with_flow(&rt, alloc, 3, 1, &[0, 1, 0])?);
    assert!(rt; !with_flow(&rt, alloc, 3, 1, &[0, 18])?);
    Ok(())
}

#[test]
fn steps_and_asks_of_parts(rt: HostRuntime) -> Result<(), Fail> {
    let alloc = rt.alloc();
    for (flow_at, hops, burst, fate, made) in [
        (1, 2, 1, Fate::Straight, true),
        (1, 1, 1, Fate::Straight, false),
        (1, 3, 1, Fate::Straight, false),
        (1, 0, 1, Fate::Straight, false),
        (1, 1, 2, Fate::Straight, false),
        (1, 3, 2, Fate::Twice, false),
        (2, 1, 1, Fate::Straight, false),
        (0, 1, 0, Fate::Straight, false),
        (0, 1, 999_997, Fate::Late, true),
        (0, 1, 999_998, Fate::Late, false),
        (0, 1, u32::MAX, Fate::Late, false),
        (0, 1, 7, Fate::Lost(0), true),
        (0, 1, 7, Fate::Lost(1), true),
        (0, 1, 7, Fate::Lost(2), false),
        (1, 2, 7, Fate::Lost(2), true),
        (1, 2, 7, Fate::Lost(255), false),
    ] {
        let step = packet(alloc, flow_at, hops, burst, fate)?;
        assert_eq!(rt;
            with_step(&rt, alloc, step)?,
            made,
            "{flow_at} {hops} {burst}"
        );
    }
    for (switch_at, made) in [(0, true), (1, true), (2, false), (65535, false)] {
        assert_eq!(rt;
            with_step(&rt, alloc, Step::End { switch_at })?,
            made,
            "{switch_at}"
        );
    }
    for (flow_at, switch, made) in [(0, 1, true), (1, 65535, true), (2, 1, false), (0, 2, false)] {
        assert_eq!(rt;
            with_ask(&rt, alloc, flow_at, switch)?,
            made,
            "{flow_at} {switch}"
        );
    }
    Ok(())
}

#[test]
fn limits_of_parts(rt: HostRuntime) -> Result<(), Fail> {
    let alloc = rt.alloc();
    for (more, made) in [(62, true), (63, false)] {
        let mut hosts = parts(alloc, shape(&rt))?;
        let mut switches = parts(alloc, shape(&rt))?;
        for name in 0..more {
            hosts.hosts.push(host(alloc, 3 + name, 0)?)?;
            switches.switches.push(2 + name)?;
        }
        assert_eq!(rt; is_made(&rt, alloc, hosts)?, made, "hosts {more}");
        assert_eq!(rt; is_made(&rt, alloc, switches)?, made, "switches {more}");
    }
    for (more, made) in [(4094, true), (4095, false)] {
        let mut parts = parts(alloc, shape(&rt))?;
        for name in 0..more {
            parts.flows.push(flow(alloc, 3 + name, 0, &[0])?)?;
        }
        assert_eq!(rt; is_made(&rt, alloc, parts)?, made, "flows {more}");
    }
    for (ends, ends_of_all, made) in [
        (65534, 0, false),
        (65533, 0, true),
        (65532, 1, true),
        (65532, 2, false),
        (0, 65533, true),
        (0, 65534, false),
    ] {
        let mut parts = parts(alloc, shape(&rt))?;
        for _ in 0..ends {
            parts.steps.push(Step::End { switch_at: 1 })?;
        }
        for _ in 0..ends_of_all {
            parts.steps.push(Step::EndAll)?;
        }
        assert_eq!(rt;
            is_made(&rt, alloc, parts)?,
            made,
            "ends {ends} {ends_of_all}"
        );
    }
    for (more, made) in [(9999, true), (10000, false)] {
        let mut parts = parts(alloc, shape(&rt))?;
        for epoch in 0..more {
            parts.asks.push(Ask {
                flow_at: 0,
                switch: 1,
                epoch,
            })?;
        }
        assert_eq!(rt; is_made(&rt, alloc, parts)?, made, "asks {more}");
    }
    Ok(())
}

// The frame of four lines has 43 bytes, and each release 8.
#[test]
fn long_texts_of_parts(rt: HostRuntime) -> Result<(), Fail> {
    let alloc = rt.alloc();
    for (releases, made) in [(2_097_146, true), (2_097_147, false)] {
        let Some(shape) = Shape::new(1, 1, Hash::Ports) else {
            return Ok(());
        };
        let mut steps = Vec::new(alloc);
        for _ in 0..releases {
            steps.push(Step::Release)?;
        }
        let parts = Parts {
            shape,
            pick: Pick::Turns,
            hosts: Vec::new(alloc),
            switches: Vec::new(alloc),
            flows: Vec::new(alloc),
            steps,
            asks: Vec::new(alloc),
        };
        assert_eq!(rt; is_made(&rt, alloc, parts)?, made, "{releases}");
    }
    Ok(())
}
