//! The network with the scenario's own pickers.
ghost use Rattle.std.specs.Prelude.{◌≡◌, All, IfOk, length};
ghost use Rattle.lg_model.specs.Keeping.{IsScenario};
ghost use Rattle.lg_model.specs.Carrying.{picked, IsAllowed};
ghost use Rattle.lg_model.specs.Trace.{meetings};
ghost use Rattle.lg_model.specs.TwinsState.{AreTwins};
ghost use Rattle.path_sim.specs.Parts.{carried_are, IsNamed};
ghost use Rattle.path_sim.specs.Arrived.{HaveArrived};
ghost use Rattle.path_sim.specs.Own.{AreFresh};

use crate::arrivals::{Arrivals, run_net};
use column_pick::AnyPicker;
use lg_base::Memory;
use scenario_text::Scenario;
use std::alloc::Global;

// A fresh picker for each switch, in the order of declaration.
pub(crate) fn own_pickers(alloc: Global, scenario: &Scenario) -> Result<Vec<AnyPicker>, Memory>
    ensures fresh { IfOk result (λ ps. AreFresh scenario.now ps.items) }
    ensures fits { IsScenario scenario.now }
{
    let mut pickers = Vec::new(alloc);
    for switch in scenario.switches() {
        pickers.push(AnyPicker::new(*scenario.pick(), *switch))?;
    }
    Ok(pickers)
}

/// Runs the network of a scenario with the pickers that it names. Memory where there is none for the pickers, the
/// sketches, for the places of the flows, for what is carried or for what arrives.
pub fn run_own(alloc: Global, scenario: &Scenario) -> Result<Arrivals, Memory>
    ensures picked { IfOk result (λ a. carried_are a.carried ≡ picked scenario.now) }
    ensures allowed { IfOk result (λ a. IsAllowed scenario.now (picked scenario.now)) }
    ensures names { IfOk result (λ a. All (IsNamed scenario.now) a.carried) }
    ensures arrived { IfOk result (λ a. HaveArrived scenario.now (picked scenario.now) a.inboxes) }
    ensures twins { IfOk result (λ a. AreTwins scenario.now (length scenario.now.steps) (meetings scenario.now)
        (picked scenario.now) a.twins) }
{
    let mut pickers = own_pickers(alloc, scenario)?;
    run_net(alloc, scenario, &mut pickers)
}
