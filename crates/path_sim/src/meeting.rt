//! A packet comes to a switch, which has counted it.
ghost use Rattle.std.specs.Prelude.{◌≡◌, ◌<◌, ◌-◌, List, None, length, IfOk};
ghost use Rattle.lg_model.specs.Trace.{Meeting};
ghost use Rattle.lg_model.specs.Scenario.{ended};
ghost use Rattle.path_sim.specs.Sending.{IsVisit};
ghost use Rattle.path_sim.specs.Running.{IsRun, at_hops};

use crate::carry::Carry;
use crate::post::Post;
use crate::traffic::Traffic;
use column_pick::Picker;
use flow_key::FlowKey;
use lg_base::Memory;
use scenario_text::Scenario;

/// A packet visits a switch, at a hop that it reaches.
#[derive(Clone, Copy)]
pub struct Visit {
    /// The number of the packet, from 0.
    pub number: u32,
    /// The position of its step.
    pub step_at: usize,
    /// The hop, from 1.
    pub hop: u8,
    /// The hops of its path.
    pub hops: u8,
    /// The position of the switch.
    pub switch_at: u16,
    /// The name of the switch.
    pub switch: u16,
    /// The key of its flow.
    pub key: FlowKey,
    /// Its size, in bytes.
    pub size: u16,
    /// Its delay at this hop, in microseconds.
    pub delay: u32,
}

// The picker of the switch is offered. If it gives a column, the packet carries that column from here on.
fn offer<P: Picker, O: Post + Drop>(
    scenario: &Scenario,
    m: &Visit,
    cargo: &mut Option<O::Cargo>,
    pickers: &mut [P],
    traffic: &mut Traffic<O>,
) -> Result<(), Memory>
    requires visit { IsVisit scenario.now m.now }
    requires pickers { length pickers.old ≡ length scenario.now.switches }
    requires epoch { 0 < ended scenario.now m.now.switch_at m.now.step_at }
    requires empty { cargo.old ≡ None }
    requires run { (start : _) × (counted : List Meeting) × IsRun P.picks O.Post.own scenario.now
        (at_hops scenario.now m.now.step_at m.now.number counted (m.now.hop - 1)) start pickers.old traffic.old cargo.old }
    ensures run { IfOk result (λ _. (start : _) (counted : List Meeting) → IsRun P.picks O.Post.own scenario.now
        (at_hops scenario.now m.now.step_at m.now.number counted (m.now.hop - 1)) start pickers.old traffic.old cargo.old
        → IsRun P.picks O.Post.own scenario.now (at_hops scenario.now m.now.step_at m.now.number counted m.now.hop) start
        pickers.new traffic.new cargo.new) }
{
    let at = m.switch_at as usize;
    let twin = &traffic.twins[at];
    let picker = &mut pickers[at];
    match picker.pick(m.hops - m.hop + 1, twin) {
        None => Ok(()),
        Some(index) => {
            let carry = Carry {
                packet: m.number,
                hop: m.hop,
                switch_at: m.switch_at,
                switch: m.switch,
                epoch: twin.epoch() - 1,
                index,
            };
            let taken = traffic.post.take(twin, &carry)?;
            let twin = &mut traffic.twins[at];
            twin.put_out(index);
            *cargo = Some(taken);
            Ok(())
        }
    }
}

/// If the switch has a frozen sketch, its picker is offered; the packet carries nothing so far. Memory where there is none
/// for a column that the packet takes.
pub fn meet<P: Picker, O: Post + Drop>(
    scenario: &Scenario,
    m: &Visit,
    cargo: &mut Option<O::Cargo>,
    pickers: &mut [P],
    traffic: &mut Traffic<O>,
) -> Result<(), Memory>
    requires visit { IsVisit scenario.now m.now }
    requires pickers { length pickers.old ≡ length scenario.now.switches }
    requires empty { cargo.old ≡ None }
    requires run { (start : _) × (counted : List Meeting) × IsRun P.picks O.Post.own scenario.now
        (at_hops scenario.now m.now.step_at m.now.number counted (m.now.hop - 1)) start pickers.old traffic.old cargo.old }
    ensures run { IfOk result (λ _. (start : _) (counted : List Meeting) → IsRun P.picks O.Post.own scenario.now
        (at_hops scenario.now m.now.step_at m.now.number counted (m.now.hop - 1)) start pickers.old traffic.old cargo.old
        → IsRun P.picks O.Post.own scenario.now (at_hops scenario.now m.now.step_at m.now.number counted m.now.hop) start
        pickers.new traffic.new cargo.new) }
{
    if traffic.twins[m.switch_at as usize].epoch() == 0 {
        return Ok(());
    }
    offer(scenario, m, cargo, pickers, traffic)
}
