//! A whole run of the network.
ghost use Rattle.std.specs.Prelude.{◌≡◌, length, replicate, IfOk};
ghost use Rattle.lg_model.specs.Trace.{packets};
ghost use Rattle.lg_model.specs.TwinsState.{new_twins};
ghost use Rattle.path_sim.specs.Parts.{flow_places};
ghost use Rattle.path_sim.specs.Running.{IsFresh, IsRunTo, HasRun};

use crate::mail::release;
use crate::placing::places_of_flows;
use crate::post::Post;
use crate::stepping::step_once;
use crate::traffic::Traffic;
use column_pick::Picker;
use epoch_freeze::Twins;
use lg_base::Memory;
use row_hash::Places;
use scenario_text::Scenario;
use std::alloc::Global;

/// What a run leaves: what was posted, and the twins of each switch.
#[derive(Drop)]
pub struct Ran<O: Drop> {
    pub post: O,
    pub twins: Vec<Twins>,
}

// Fresh twins for each switch.
fn fresh_twins(alloc: Global, scenario: &Scenario) -> Result<Vec<Twins>, Memory>
    ensures { IfOk result (λ ts. ts.items ≡ replicate (length scenario.now.switches) (new_twins scenario.now.shape)) }
{
    let shape = scenario.shape();
    let mut twins = Vec::new(alloc);
    for _switch in scenario.switches() {
        twins.push(Twins::new(alloc, &shape)?)?;
    }
    Ok(twins)
}

// All steps, one after the other.
fn run_steps<P: Picker, O: Post + Drop>(
    scenario: &Scenario,
    places: &[Places],
    pickers: &mut [P],
    traffic: &mut Traffic<O>,
) -> Result<(), Memory>
    requires pickers { length pickers.old ≡ length scenario.now.switches }
    requires places { places.now ≡ flow_places scenario.now }
    requires run { (start : _) × IsRunTo P.picks O.Post.own scenario.now 0 0 start pickers.old traffic.old }
    ensures run { IfOk result (λ _. (start : _) → IsRunTo P.picks O.Post.own scenario.now 0 0 start pickers.old traffic.old
        → IsRunTo P.picks O.Post.own scenario.now (length scenario.now.steps)
        (length (packets scenario.now)) start pickers.new traffic.new) }
{
    let mut number = 0;
    for n in 0..scenario.steps().len() {
        number = step_once(scenario, places, number, n, pickers, traffic)?;
    }
    Ok(())
}

/// Runs the network of a scenario with one picker for each switch, in the order of declaration, and a fresh post. Linear
/// in packets times hops, and in flows. Memory where there is none for the sketches, for the places of the flows, for the
/// columns that packets take or for what arrives.
pub fn run_over<P: Picker, O: Post + Drop>(
    alloc: Global,
    scenario: &Scenario,
    pickers: &mut [P],
    post: O,
) -> Result<Ran<O>, Memory>
    requires pickers { length pickers.old ≡ length scenario.now.switches }
    requires fresh { IsFresh O.Post.own scenario.now post }
    ensures { IfOk result (λ ran. HasRun P.picks O.Post.own scenario.now pickers.old pickers.new ran) }
{
    let places = places_of_flows(alloc, scenario)?;
    let mut traffic = Traffic {
        twins: fresh_twins(alloc, scenario)?,
        post,
        held: Vec::new(alloc),
    };
    run_steps(scenario, &places, pickers, &mut traffic)?;
    let Traffic {
        twins,
        mut post,
        mut held,
    } = traffic;
    release(&mut post, &mut held)?;
    Ok(Ran { post, twins })
}
