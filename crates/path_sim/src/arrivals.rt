//! A whole run of the network.
ghost use Rattle.std.specs.Prelude.{◌≡◌, ◌<◌, [], length, slice_index_or, All, IfOk};
ghost use Rattle.lg_model.specs.Trace.{meetings};
ghost use Rattle.lg_model.specs.Carrying.{IsAllowed};
ghost use Rattle.lg_model.specs.Offering.{HaveChosen};
ghost use Rattle.lg_model.specs.TwinsState.{TwinsState, AreTwins};
ghost use Rattle.path_sim.specs.Parts.{carried_are, IsNamed};
ghost use Rattle.path_sim.specs.Arrived.{HaveArrived};

use crate::boxes::Boxes;
use crate::carry::Carry;
use crate::inbox::Inbox;
use crate::running::{Ran, run_over};
use column_pick::Picker;
use epoch_freeze::Twins;
use lg_base::Memory;
use scenario_text::Scenario;
use sketchlet_wire::Packed;
use std::alloc::Global;
use std::marker::Model;

/// What a run of the network leaves: the columns that came to each host, which packets carried which columns, and the
/// twins of each switch.
#[derive(Drop)]
pub struct Arrivals {
    inboxes: Vec<Inbox<Packed>>,
    carried: Vec<Carry>,
    twins: Vec<Twins>,
}

impl Model for Arrivals {
    ghost use Rattle.path_sim.specs.Outcome.{Outcome};

    ghost Value = { Outcome };

    ghost view = { λ a. record { inboxes = a.inboxes.items; carried = a.carried.items; twins = a.twins.items } };
}

impl Arrivals {
    /// The columns that came to the host at a position of the scenario's list, packed, in order of arrival.
    pub fn arrived(&self, host_at: u16) -> &[Packed]
        requires { host_at < length self.now.inboxes }
        ensures { result.now ≡ slice_index_or self.now.inboxes host_at [] }
    {
        self.inboxes[host_at as usize].items()
    }

    /// Which packets carried which columns, in order.
    pub fn carried(&self) -> &[Carry]
        ensures { result.now ≡ self.now.carried }
    {
        &self.carried
    }

    /// The twins of the switch at a position of the scenario's list.
    pub fn twins(&self, switch_at: u16) -> &Twins
        requires { switch_at < length self.now.twins }
        ensures { (d : TwinsState) → result.now ≡ slice_index_or self.now.twins switch_at d }
    {
        &self.twins[switch_at as usize]
    }
}

/// Runs the network of a scenario with one picker for each switch, in the order of declaration. Linear in packets times
/// hops, and in flows. Memory where there is none for the sketches, for the places of the flows, for what is carried or
/// for what arrives.
pub fn run_net<P: Picker>(
    alloc: Global,
    scenario: &Scenario,
    pickers: &mut [P],
) -> Result<Arrivals, Memory>
    requires { length pickers.old ≡ length scenario.now.switches }
    // The carry list is the one that the answers of the pickers give, and whatever they answer it is allowed.
    ensures picks { IfOk result (λ a. HaveChosen P.picks scenario.now pickers.old pickers.new (carried_are a.carried)) }
    ensures allowed { IfOk result (λ a. IsAllowed scenario.now (carried_are a.carried)) }
    ensures names { IfOk result (λ a. All (IsNamed scenario.now) a.carried) }
    // Each host has the brought columns, in order of arrival.
    ensures arrived { IfOk result (λ a. HaveArrived scenario.now (carried_are a.carried) a.inboxes) }
    ensures twins { IfOk result (λ a. AreTwins scenario.now (length scenario.now.steps) (meetings scenario.now)
        (carried_are a.carried) a.twins) }
{
    let boxes = Boxes::new(alloc, scenario)?;
    let Ran { post, twins } = run_over(alloc, scenario, pickers, boxes)?;
    let Boxes { inboxes, carried } = post;
    Ok(Arrivals {
        inboxes,
        carried,
        twins,
    })
}
