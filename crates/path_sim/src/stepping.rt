//! The steps of a scenario, one after the other.
ghost use Rattle.std.specs.Prelude.{◌≡◌, ℕ, ◌<◌, ◌≤◌, ◌+◌, length, map, slice_index_or, IfOk};
ghost use Rattle.lg_model.specs.declared.limits.TheConstants.{MOST_ENDS, MOST_HOPS, MOST_PACKETS};
ghost use Rattle.lg_model.specs.Scenario.{reached};
ghost use Rattle.lg_model.specs.Trace.{packets_until};
ghost use Rattle.lg_model.specs.TwinsState.{TwinsState, with_end};
ghost use Rattle.path_sim.specs.Parts.{flow_places};
ghost use Rattle.path_sim.specs.Sending.{IsPacketStep};
ghost use Rattle.path_sim.specs.Running.{IsRunTo};

use crate::counting::count_step;
use crate::mail::release;
use crate::post::Post;
use crate::sending::{Sent, send_all};
use crate::traffic::Traffic;
use column_pick::Picker;
use epoch_freeze::Twins;
use lg_base::Memory;
use lg_model::{Fate, Step};
use row_hash::Places;
use scenario_text::Scenario;

// Every switch ends an epoch.
fn end_all(twins: &mut [Twins])
    requires { (s : ℕ) (d : TwinsState) → s < length twins.old → (slice_index_or twins.old s d).epoch < MOST_ENDS }
    ensures { twins.new ≡ map with_end twins.old }
{
    for s in 0..twins.len() {
        let twin = &mut twins[s];
        twin.end();
    }
}

// A step that sends packets: the switches count all of them, and they go their way. `number` is the number of the first. Memory where there is none for what they carry or bring.
fn packet_step<P: Picker, O: Post + Drop>(
    scenario: &Scenario,
    number: u32,
    sent: &Sent,
    pickers: &mut [P],
    traffic: &mut Traffic<O>,
) -> Result<(), Memory>
    requires step { IsPacketStep scenario.now sent.now }
    requires number { number ≡ length (packets_until scenario.now sent.now.step_at) }
    requires pickers { length pickers.old ≡ length scenario.now.switches }
    requires run { (start : _) × IsRunTo P.picks O.Post.own scenario.now sent.now.step_at number start pickers.old traffic.old }
    ensures number { number + sent.now.burst ≡ length (packets_until scenario.now (sent.now.step_at + 1)) }
    ensures few { number + sent.now.burst ≤ MOST_PACKETS }
    ensures run { IfOk result (λ _. (start : _) → IsRunTo P.picks O.Post.own scenario.now sent.now.step_at number start pickers.old
        traffic.old
        → IsRunTo P.picks O.Post.own scenario.now (sent.now.step_at + 1) (number + sent.now.burst) start pickers.new traffic.new) }
{
    let _fits = scenario.flows();
    count_step(scenario, &mut traffic.twins, sent);
    send_all(scenario, number, sent, pickers, traffic)
}

// How many hops a packet of that fate reaches, of at most 16.
fn hops_reached(hops: usize, fate: Fate) -> u8
    requires { hops ≤ MOST_HOPS }
    ensures { result ≡ reached fate hops }
{
    match fate {
        Fate::Lost(hops) => hops,
        _ => hops as u8,
    }
}

/// One step. The answer is how many packets were sent so far; `number` is how many were before, and `places` has those of
/// each flow. Memory where there is none for what packets carry or bring.
pub fn step_once<P: Picker, O: Post + Drop>(
    scenario: &Scenario,
    places: &[Places],
    number: u32,
    step_at: usize,
    pickers: &mut [P],
    traffic: &mut Traffic<O>,
) -> Result<u32, Memory>
    requires inside { step_at < length scenario.now.steps }
    requires number { number ≡ length (packets_until scenario.now step_at) }
    requires places { places.now ≡ flow_places scenario.now }
    requires pickers { length pickers.old ≡ length scenario.now.switches }
    requires run { (start : _) × IsRunTo P.picks O.Post.own scenario.now step_at number start pickers.old traffic.old }
    ensures number { IfOk result (λ next. next ≡ length (packets_until scenario.now (step_at + 1))) }
    ensures run { IfOk result (λ next. (start : _) → IsRunTo P.picks O.Post.own scenario.now step_at number start pickers.old traffic.old
        → IsRunTo P.picks O.Post.own scenario.now (step_at + 1) next start pickers.new traffic.new) }
{
    match &scenario.steps()[step_at] {
        Step::Packet {
            flow_at,
            size,
            delays,
            burst,
            fate,
        } => {
            let flow = &scenario.flows()[*flow_at as usize];
            let sent = Sent {
                step_at,
                flow,
                places: &places[*flow_at as usize],
                size: *size,
                delays,
                burst: *burst,
                fate: *fate,
                reached: hops_reached(flow.path.items().len(), *fate),
            };
            packet_step(scenario, number, &sent, pickers, traffic)?;
            Ok(number + *burst)
        }
        Step::End { switch_at } => {
            let twin = &mut traffic.twins[*switch_at as usize];
            twin.end();
            Ok(number)
        }
        Step::EndAll => {
            end_all(&mut traffic.twins);
            Ok(number)
        }
        Step::Release => {
            release(&mut traffic.post, &mut traffic.held)?;
            Ok(number)
        }
    }
}
