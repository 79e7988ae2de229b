//! What happens in a generated scenario, and what is asked.
ghost use Rattle.std.specs.Prelude.{◌≡◌, ◌<◌, ◌≤◌, ◌+◌, ◌*◌, ◌++◌, ◌∷◌, [], map, IfOk};
ghost use Rattle.scenario_make.specs.Generator.{delay_of, fate_of, flow_names, generated_burst, generated_end, generated_round, last_burst, generated_rounds, generated_steps, generated_ask, generated_asks};
ghost use Rattle.scenario_make.specs.declared.generator.TheConstants.{MOST_ROUNDS};

use crate::declared::FLOWS;
use lg_base::Memory;
use lg_model::{Ask, Delays, Fate, Step};
use std::alloc::Global;

// What becomes of the burst of that number: of 16, one is lost after its first hop, one comes twice and one is late.
fn fate(number: u32) -> Fate
    ensures { result ≡ fate_of number }
{
    match number % 16 {
        3 => Fate::Lost(1),
        7 => Fate::Twice,
        11 => Fate::Late,
        _ => Fate::Straight,
    }
}

// The delays of the packets of a flow in a round.
fn delays(alloc: Global, round: u32, flow: u16) -> Result<Delays, Memory>
    requires round { round < MOST_ROUNDS }
    requires flow { flow ≤ 8 }
    ensures { IfOk result (λ delays. delays ≡ delay_of round flow 1 ∷ delay_of round flow 2 ∷ delay_of round flow 3 ∷ []) }
{
    let first = round + u32::from(flow);
    let delays = [
        (first + 10) % 1000,
        (first + 20) % 1000,
        (first + 30) % 1000,
    ];
    let delays = delays.to_vec(alloc)?;
    Ok(Delays::new(delays))
}

// The burst of a flow in a round.
fn burst(alloc: Global, round: u32, flow: u16) -> Result<Step, Memory>
    requires round { round < MOST_ROUNDS }
    requires some { 1 ≤ flow }
    requires few { flow ≤ 8 }
    ensures { IfOk result (λ step. step ≡ generated_burst round flow) }
{
    let number = 8 * round + u32::from(flow);
    Ok(Step::Packet {
        flow_at: flow - 1,
        size: (64 + 37 * number % 1437) as u16,
        delays: delays(alloc, round, flow)?,
        burst: 20,
        fate: fate(number),
    })
}

// Puts the bursts of a round after the steps before it. Memory where there is none for them.
fn put_bursts(alloc: Global, round: u32, steps: &mut Vec<Step>) -> Result<(), Memory>
    requires { round < MOST_ROUNDS }
    ensures { IfOk result (λ _. steps.new.items ≡ steps.old.items ++ map (generated_burst round) flow_names) }
{
    for at in 0..FLOWS {
        steps.push(burst(alloc, round, at + 1)?)?;
    }
    Ok(())
}

// Puts a round after the steps before it: its bursts, and the end of an epoch where one ends. Memory where there is none
// for them.
fn put_round(alloc: Global, rounds: u32, round: u32, steps: &mut Vec<Step>) -> Result<(), Memory>
    requires within { round < rounds }
    requires few { rounds ≤ MOST_ROUNDS }
    ensures { IfOk result (λ _. steps.new.items ≡ steps.old.items ++ generated_round rounds round) }
{
    put_bursts(alloc, round, steps)?;
    if round % 10 == 9 || round + 1 == rounds {
        steps.push(Step::EndAll)?;
    }
    Ok(())
}

// All rounds. Memory where there is none for them.
fn rounds_of(alloc: Global, rounds: u32) -> Result<Vec<Step>, Memory>
    requires { rounds ≤ MOST_ROUNDS }
    ensures { IfOk result (λ steps. steps.items ≡ generated_rounds rounds) }
{
    let mut steps = Vec::new(alloc);
    for round in 0..rounds {
        put_round(alloc, rounds, round, &mut steps)?;
    }
    Ok(steps)
}

// The last burst of a flow.
fn last(alloc: Global, flow: u16) -> Result<Step, Memory>
    requires { 1 ≤ flow }
    ensures { IfOk result (λ step. step ≡ last_burst flow) }
{
    let delays = [1, 1, 1].to_vec(alloc)?;
    Ok(Step::Packet {
        flow_at: flow - 1,
        size: 64,
        delays: Delays::new(delays),
        burst: 32,
        fate: Fate::Straight,
    })
}

/// The steps: round after round, and the last bursts. Memory where there is none for them. Linear in their number.
pub(crate) fn steps(alloc: Global, rounds: u32) -> Result<Vec<Step>, Memory>
    requires { rounds ≤ MOST_ROUNDS }
    ensures { IfOk result (λ steps. steps.items ≡ generated_steps rounds) }
{
    let mut steps = rounds_of(alloc, rounds)?;
    for at in 0..FLOWS {
        steps.push(last(alloc, at + 1)?)?;
    }
    Ok(steps)
}

// The ask of a flow.
fn ask(flow: u16) -> Ask
    requires some { 1 ≤ flow }
    requires few { flow ≤ 8 }
    ensures { result ≡ generated_ask flow }
{
    Ask {
        flow_at: flow - 1,
        switch: 1 + flow % 4,
        epoch: 0,
    }
}

/// The asks, one of each flow. Memory where there is none for them.
pub(crate) fn asks(alloc: Global) -> Result<Vec<Ask>, Memory>
    ensures { IfOk result (λ asks. asks.items ≡ generated_asks) }
{
    let mut asks = Vec::new(alloc);
    for at in 0..FLOWS {
        asks.push(ask(at + 1))?;
    }
    Ok(asks)
}
