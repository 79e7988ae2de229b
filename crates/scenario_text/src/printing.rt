//! The text of a scenario.
ghost use Rattle.std.specs.Prelude.{◌≡◌, ◌≤◌, length, IfOk, Ok};
ghost use Rattle.lg_model.specs.declared.limits.TheConstants.{MOST_TEXT_BYTES};
ghost use Rattle.scenario_text.specs.Text.{reading};
ghost use Rattle.scenario_parts.specs.Printed.{text_of};

use crate::scenario::Scenario;
use lg_base::Memory;
use scenario_parts::put_parts;
use std::alloc::Global;

/// The text of a scenario (docs/FORMATS.md, Scenario text): the first three lines; the hosts, the switches, the flows
/// and the links of hosts that have letters, each in the order of the scenario; the steps; the asks; and `done`. Every
/// line ends with 0A, and `burst 1` is left out.
///
/// It is at most 16,777,216 bytes long, and is read as the same scenario.
///
/// `Memory` where memory runs out.
pub fn print(alloc: Global, scenario: &Scenario) -> Result<Vec<u8>, Memory>
    ensures text { IfOk result (λ text. text.items ≡ text_of scenario.now) }
    ensures short { IfOk result (λ text. length text.items ≤ MOST_TEXT_BYTES) }
    ensures again { IfOk result (λ text. reading text.items ≡ Ok scenario.now) }
{
    let mut out = Vec::new(alloc);
    put_parts(&mut out, scenario.parts())?;
    Ok(out)
}
