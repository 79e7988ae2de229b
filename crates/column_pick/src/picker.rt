//! What every picker does (docs/DEFINITIONS.md, Picked list).
ghost use Rattle.std.specs.Prelude.{◌<◌, ◌≤◌, ℕ, Option};
ghost use Rattle.lg_model.specs.declared.limits.TheConstants.{MOST_HOPS};
ghost use Rattle.lg_model.specs.Offering.{IsLawful};
ghost use Rattle.lg_model.specs.Carrying.{Offer};
ghost use Rattle.lg_model.specs.TwinsState.{offer_of};

use epoch_freeze::Twins;

/// Chooses whether a packet is given a column at a switch, and which. Contracts see `picks`, the relation between the
/// picker before, the hops left, what the twins offer, the answer, and the picker after.
pub trait Picker {
    ghost picks: { Self → ℕ → Offer → Option ℕ → Self → Type 0 };

    /// The index, below the width, of the column of the frozen sketch that the packet is given, or None where it goes
    /// on without one, which comes only where more than one hop is left. `hops_left` is 1 to 16, this hop included,
    /// and the twins have a frozen sketch. Takes no memory, and counts nothing as put out.
    fn pick(&mut self, hops_left: u8, twins: &Twins) -> Option<u16>
        requires frozen { 0 < twins.now.epoch }
        requires some { 1 ≤ hops_left }
        requires few { hops_left ≤ MOST_HOPS }
        ensures lawful { IsLawful hops_left (offer_of twins.now) result }
        ensures picks { picks self.old hops_left (offer_of twins.now) result self.new };
}
