//! Columns in boxes: each packet has its own copy of the column that it takes.
ghost use Rattle.std.specs.Prelude.{◌≡◌, ◌<◌, [], length, map, replicate, All, IfOk};
ghost use Rattle.lg_model.specs.Scenario.{Scenario as ScenarioOfModel};
ghost use Rattle.sketchlet_wire.specs.Packing.{IsPacked};
ghost use Rattle.path_sim.specs.Parts.{carried_are, IsNamed};
ghost use Rattle.path_sim.specs.Boxed.{IsNoted};

use crate::carry::Carry;
use crate::inbox::Inbox;
use crate::packed::pack;
use crate::post::Post;
use epoch_freeze::Twins;
use lg_base::Memory;
use scenario_text::Scenario;
use sketchlet_wire::Packed;
use std::alloc::Global;

/// An inbox of packed columns for each host, and the carry list.
#[derive(Drop)]
pub struct Boxes {
    pub inboxes: Vec<Inbox<Packed>>,
    pub carried: Vec<Carry>,
}

impl Boxes {
    /// An empty inbox for each host. Memory where there is none for them.
    pub fn new(alloc: Global, scenario: &Scenario) -> Result<Boxes, Memory>
        ensures inboxes { IfOk result (λ b. b.inboxes.items ≡ replicate (length scenario.now.hosts) []) }
        ensures carried { IfOk result (λ b. b.carried.items ≡ []) }
    {
        let mut inboxes = Vec::new(alloc);
        for _host in scenario.hosts() {
            inboxes.push(Inbox::new(alloc))?;
        }
        Ok(Boxes {
            inboxes,
            carried: Vec::new(alloc),
        })
    }
}

impl Post for Boxes {
    type Cargo = Packed;

    ghost stands = { λ b p column. IsPacked p column };

    ghost inboxes = { λ b. b.inboxes.items };

    ghost notes = { λ b w cs. IsNoted w cs b.carried.items };

    fn take(&mut self, twins: &Twins, carry: &Carry) -> Result<Packed, Memory> {
        self.carried.push(*carry)?;
        Ok(pack(twins, carry.switch, carry.index))
    }

    fn arrive(&mut self, host_at: u16, cargo: Packed) -> Result<(), Memory> {
        let inbox = &mut self.inboxes[host_at as usize];
        inbox.push(cargo)
    }
}
