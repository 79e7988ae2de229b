//! Where each flow stands in the rows.
ghost use Rattle.std.specs.Prelude.{◌≡◌, IfOk};
ghost use Rattle.path_sim.specs.Parts.{flow_places};

use lg_base::Memory;
use row_hash::{Places, places};
use scenario_text::Scenario;
use std::alloc::Global;

/// The places of each flow of a scenario in the rows of its shape, in the order of declaration: 18 bytes a flow, of at
/// most 4,096. Memory where there is none for them.
pub fn places_of_flows(alloc: Global, scenario: &Scenario) -> Result<Vec<Places>, Memory>
    ensures { IfOk result (λ ps. ps.items ≡ flow_places scenario.now) }
{
    let shape = scenario.shape();
    let mut all = Vec::new(alloc);
    for flow in scenario.flows() {
        all.push(places(&shape, &flow.key))?;
    }
    Ok(all)
}
