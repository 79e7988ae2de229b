//! Where the flow of a name stands.
ghost use Rattle.std.specs.Prelude.{◌≡◌, ◌<◌, ◌≤◌, ◌==◌, length, ◌++◌, ◌∷◌, [], None, IfSome, OnOk, OnErr, take, slice_index};
ghost use Rattle.std.specs.List.{position};
ghost use Rattle.lg_model.specs.declared.limits.TheConstants.{MOST_FLOWS};
ghost use Rattle.lg_model.specs.Keeping.{names_of};
ghost use Rattle.scenario_lines.specs.Index.{IsIndexed};

use lg_model::Flow;
use std::alloc::AllocError;

// The position of the flow of this name, by a table that has the position of each flow's name.
pub(crate) fn find_flow(flows: &[Flow], positions: &[u16], name: u16) -> Option<u16>
    requires { IsIndexed (names_of flows.now) positions.now }
    ensures value { result ≡ position (λ m. m == name) (names_of flows.now) }
    ensures bound { IfSome result (λ i. i < length flows.now) }
    ensures named { IfSome result (λ i. slice_index (names_of flows.now) i ≡ name) }
{
    let name_at = name as usize;
    if name_at < positions.len() {
        let at = positions[name_at];
        let index = at as usize;
        if index < flows.len() {
            if flows[index].name == name {
                return Some(at);
            }
        }
    }
    None
}

// Adds a flow with a name that isn't there yet. The table grows first and is written last, so that it holds its
// promise where memory ran out in between.
pub(crate) fn push_flow(
    flows: &mut Vec<Flow>,
    positions: &mut Vec<u16>,
    flow: Flow,
) -> Result<(), AllocError>
    requires indexed { IsIndexed (names_of flows.old.items) positions.old.items }
    requires fresh { position (λ m. m == flow.name) (names_of flows.old.items) ≡ None }
    requires few { length flows.old.items < MOST_FLOWS }
    ensures added { OnOk result (flows.new.items ≡ flows.old.items ++ flow ∷ []) }
    ensures same { OnErr result (flows.new.items ≡ flows.old.items) }
    ensures indexed { IsIndexed (names_of flows.new.items) positions.new.items }
{
    let index = flows.len() as u16;
    let name_at = flow.name as usize;
    grow(positions, name_at + 1)?;
    flows.push(flow)?;
    positions[name_at] = index;
    Ok(())
}

// Grows the table to at least `len`.
fn grow(positions: &mut Vec<u16>, len: usize) -> Result<(), AllocError>
    ensures longer { OnOk result (len ≤ length positions.new.items) }
    ensures kept { take (length positions.old.items) positions.new.items ≡ positions.old.items }
{
    while positions.len() < len {
        positions.push(0)?;
    }
    Ok(())
}
