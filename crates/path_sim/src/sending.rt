//! Packets go their way.
ghost use Rattle.std.specs.Prelude.{◌≡◌, ℕ, ◌<◌, ◌≤◌, ◌+◌, List, length, IfOk};
ghost use Rattle.lg_model.specs.declared.limits.TheConstants.{MOST_PACKETS};
ghost use Rattle.lg_model.specs.Trace.{Meeting};
ghost use Rattle.path_sim.specs.Sending.{IsSending};
ghost use Rattle.path_sim.specs.Running.{IsRun, IsRunAhead, after_packet};

use crate::mail::settle;
use crate::meeting::{Visit, meet};
use crate::post::Post;
use crate::traffic::Traffic;
use column_pick::Picker;
use lg_base::Memory;
use lg_model::{Delays, Fate, Flow};
use row_hash::Places;
use scenario_text::Scenario;

/// What the packets of a step have in common.
#[derive(Clone, Copy)]
pub struct Sent<'a> {
    /// The position of the step.
    pub step_at: usize,
    /// The flow.
    pub flow: &'a Flow,
    /// The places of the flow in the rows.
    pub places: &'a Places,
    /// The size, in bytes.
    pub size: u16,
    /// The delays, in microseconds, one a hop.
    pub delays: &'a Delays,
    /// How many packets there are.
    pub burst: u32,
    /// What becomes of each packet.
    pub fate: Fate,
    /// How many hops each packet reaches.
    pub reached: u8,
}

// The packet of that number goes from hop to hop until it carries something. The answer is what it carries in the end.
fn send<P: Picker, O: Post + Drop>(
    scenario: &Scenario,
    number: u32,
    sent: &Sent,
    pickers: &mut [P],
    traffic: &mut Traffic<O>,
) -> Result<Option<O::Cargo>, Memory>
    requires sent { IsSending scenario.now number sent.now }
    requires pickers { length pickers.old ≡ length scenario.now.switches }
    requires run { (start : _) × (counted : List Meeting) × IsRunAhead P.picks O.Post.own scenario.now sent.now.step_at number counted start
        pickers.old traffic.old }
    ensures run { IfOk result (λ cargo. (start : _) (counted : List Meeting) → IsRunAhead P.picks O.Post.own scenario.now sent.now.step_at number
        counted start pickers.old traffic.old
        → IsRun P.picks O.Post.own scenario.now (after_packet scenario.now sent.now.step_at number counted) start pickers.new traffic.new cargo) }
{
    let hops = sent.flow.path.items();
    let delays = sent.delays.items();
    let names = scenario.switches();
    let mut cargo = None;
    for k in 0..sent.reached {
        if cargo.is_some() {
            return Ok(cargo);
        }
        let at = usize::from(k);
        let m = Visit {
            number,
            step_at: sent.step_at,
            hop: k + 1,
            hops: hops.len() as u8,
            switch_at: hops[at],
            switch: names[usize::from(hops[at])],
            key: sent.flow.key,
            size: sent.size,
            delay: delays[at],
        };
        meet(scenario, &m, &mut cargo, pickers, traffic)?;
    }
    Ok(cargo)
}

/// The packet of that number goes from hop to hop, and what it carries in the end becomes what its fate says. Memory
/// where there is none for a column that it takes, or for what arrives.
pub fn send_one<P: Picker, O: Post + Drop>(
    scenario: &Scenario,
    number: u32,
    sent: &Sent,
    pickers: &mut [P],
    traffic: &mut Traffic<O>,
) -> Result<(), Memory>
    requires sent { IsSending scenario.now number sent.now }
    requires pickers { length pickers.old ≡ length scenario.now.switches }
    requires run { (start : _) × (counted : List Meeting) × IsRunAhead P.picks O.Post.own scenario.now sent.now.step_at number counted start
        pickers.old traffic.old }
    ensures run { IfOk result (λ _. (start : _) (counted : List Meeting) → IsRunAhead P.picks O.Post.own scenario.now sent.now.step_at number
        counted start pickers.old traffic.old
        → IsRunAhead P.picks O.Post.own scenario.now sent.now.step_at (number + 1) counted start pickers.new traffic.new) }
{
    let cargo = send(scenario, number, sent, pickers, traffic)?;
    settle(scenario, number, sent, cargo, traffic)
}

/// The packets of a step, which the switches have counted, go their way, one after the other. `number` is the number of the
/// first.
pub fn send_all<P: Picker, O: Post + Drop>(
    scenario: &Scenario,
    number: u32,
    sent: &Sent,
    pickers: &mut [P],
    traffic: &mut Traffic<O>,
) -> Result<(), Memory>
    requires few { number + sent.now.burst ≤ MOST_PACKETS }
    requires sent { (b : ℕ) → b < sent.now.burst → IsSending scenario.now (number + b) sent.now }
    requires pickers { length pickers.old ≡ length scenario.now.switches }
    requires run { (start : _) × (counted : List Meeting) × IsRunAhead P.picks O.Post.own scenario.now sent.now.step_at number counted start
        pickers.old traffic.old }
    ensures run { IfOk result (λ _. (start : _) (counted : List Meeting) → IsRunAhead P.picks O.Post.own scenario.now sent.now.step_at number
        counted start pickers.old traffic.old
        → IsRunAhead P.picks O.Post.own scenario.now sent.now.step_at (number + sent.now.burst) counted start pickers.new traffic.new) }
{
    for b in 0..sent.burst {
        send_one(scenario, number + b, sent, pickers, traffic)?;
    }
    Ok(())
}
