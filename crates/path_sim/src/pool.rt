//! Columns that are kept once.
ghost use Rattle.std.specs.Prelude.{◌≡◌, List, [], length, replicate, IfOk};
ghost use Rattle.lg_model.specs.Carrying as model;
ghost use Rattle.path_sim.specs.Pooling.{pooled, IsPoolOf};

use crate::carry::Carry;
use crate::inbox::Inbox;
use crate::packed::pack;
use crate::post::Post;
use crate::slot::Slot;
use epoch_freeze::Twins;
use lg_base::Memory;
use scenario_text::Scenario;
use sketchlet_wire::Packed;
use std::alloc::Global;

/// Each column that packets took, packed once, and what came to each host as positions among these: 4 bytes for each
/// column that came. No carry list is kept.
#[derive(Drop)]
pub struct Pool {
    // How many indexes a sketch has.
    pub width: usize,
    pub kept: Vec<Packed>,
    // For each switch, a slot for each index.
    pub slots: Vec<Slot>,
    pub inboxes: Vec<Inbox<u32>>,
}

impl Pool {
    /// Nothing was taken, and nothing came to the hosts of a scenario.
    pub fn new(alloc: Global, scenario: &Scenario) -> Result<Pool, Memory>
        ensures pool { IfOk result (λ p. (p.width ≡ scenario.now.shape.width)
            × IsPoolOf scenario.now [] p.kept.items p.slots.items p.inboxes.items) }
        ensures inboxes { IfOk result (λ p. pooled p.kept.items p.inboxes.items ≡ replicate (length scenario.now.hosts) []) }
    {
        let width = usize::from(scenario.shape().width());
        let slots = vec![in alloc; Slot { ended: 0, place: 0 }; width * scenario.switches().len()]?;
        let mut inboxes = Vec::new(alloc);
        for _host in scenario.hosts() {
            inboxes.push(Inbox::new(alloc))?;
        }
        Ok(Pool {
            width,
            kept: Vec::new(alloc),
            slots,
            inboxes,
        })
    }
}

impl Post for Pool {
    type Cargo = u32;

    ghost use Rattle.path_sim.specs.Pooling.{pooled, IsKept, IsPoolOf};

    ghost stands = { λ p k c. IsKept p.kept.items k c };

    ghost inboxes = { λ p. pooled p.kept.items p.inboxes.items };

    ghost notes = { λ p w cs. (p.width ≡ w.shape.width) × IsPoolOf w cs p.kept.items p.slots.items p.inboxes.items };

    fn take(&mut self, twins: &Twins, carry: &Carry) -> Result<u32, Memory> {
        let ended = twins.epoch();
        let at = usize::from(carry.switch_at) * self.width + usize::from(carry.index);
        if self.slots[at].ended == ended {
            return Ok(self.slots[at].place);
        }
        let place = self.kept.len() as u32;
        self.kept.push(pack(twins, carry.switch, carry.index))?;
        self.slots[at] = Slot { ended, place };
        Ok(place)
    }

    fn arrive(&mut self, host_at: u16, cargo: u32) -> Result<(), Memory> {
        let inbox = &mut self.inboxes[host_at as usize];
        inbox.push(cargo)
    }
}
