//! The network with each column kept once.
ghost use Rattle.std.specs.Prelude.{◌≡◌, ◌<◌, ◌≤◌, [], All, IfOk, length, slice_index_or};
ghost use Rattle.lg_model.specs.declared.limits.TheConstants.{MOST_SKETCHLET_BYTES};
ghost use Rattle.lg_model.specs.Carrying.{picked, IsAllowed};
ghost use Rattle.lg_model.specs.Trace.{meetings};
ghost use Rattle.lg_model.specs.TwinsState.{TwinsState, AreTwins};
ghost use Rattle.path_sim.specs.Arrived.{HaveArrived};
ghost use Rattle.path_sim.specs.Pooling.{AreInside, pooled};

use crate::inbox::Inbox;
use crate::own::own_pickers;
use crate::pool::Pool;
use crate::running::{Ran, run_over};
use epoch_freeze::Twins;
use lg_base::Memory;
use scenario_text::Scenario;
use sketchlet_wire::Packed;
use std::alloc::Global;
use std::marker::Model;

/// What a run of the network leaves: each column that a packet took, once, what came to each host as places among these,
/// and the twins of each switch.
#[derive(Drop)]
pub struct PooledArrivals {
    kept: Vec<Packed>,
    inboxes: Vec<Inbox<u32>>,
    twins: Vec<Twins>,
}

impl Model for PooledArrivals {
    ghost use Rattle.path_sim.specs.Pooling.{PooledOutcome};

    ghost Value = { PooledOutcome };

    ghost view = { λ a. record { kept = a.kept.items; places = a.inboxes.items; twins = a.twins.items } };
}

impl PooledArrivals {
    /// The columns that packets took, each packed once.
    pub fn kept(&self) -> &[Packed]
        ensures { result.now ≡ self.now.kept }
    {
        &self.kept
    }

    /// The columns that came to the host at a position of the scenario's list, as places among the kept ones, in order of
    /// arrival.
    pub fn arrived(&self, host_at: u16) -> &[u32]
        requires { host_at < length self.now.places }
        ensures { result.now ≡ slice_index_or self.now.places host_at [] }
    {
        self.inboxes[host_at as usize].items()
    }

    /// The twins of the switch at a position of the scenario's list.
    pub fn twins(&self, switch_at: u16) -> &Twins
        requires { switch_at < length self.now.twins }
        ensures { (d : TwinsState) → result.now ≡ slice_index_or self.now.twins switch_at d }
    {
        &self.twins[switch_at as usize]
    }
}

/// Runs the network of a scenario with the pickers that it names, as [`run_own`](crate::run_own) does, and keeps each
/// column once: 4 bytes for each that arrives, and no list of what was carried. Memory where there is none for the
/// pickers, the sketches, for the places of the flows, for the columns or for what arrives.
pub fn run_pooled(alloc: Global, scenario: &Scenario) -> Result<PooledArrivals, Memory>
    ensures allowed { IfOk result (λ a. IsAllowed scenario.now (picked scenario.now)) }
    // The items at the places of each host are the columns that came to it.
    ensures arrived { IfOk result (λ a. HaveArrived scenario.now (picked scenario.now) (pooled a.kept a.places)) }
    ensures inside { IfOk result (λ a. AreInside a.kept a.places) }
    ensures short { IfOk result (λ a. All (λ p. p.len ≤ MOST_SKETCHLET_BYTES) a.kept) }
    ensures twins { IfOk result (λ a. AreTwins scenario.now (length scenario.now.steps) (meetings scenario.now)
        (picked scenario.now) a.twins) }
{
    let mut pickers = own_pickers(alloc, scenario)?;
    let pool = Pool::new(alloc, scenario)?;
    let Ran { post, twins } = run_over(alloc, scenario, &mut pickers, pool)?;
    let Pool {
        width: _,
        kept,
        slots: _slots,
        inboxes,
    } = post;
    Ok(PooledArrivals {
        kept,
        inboxes,
        twins,
    })
}
