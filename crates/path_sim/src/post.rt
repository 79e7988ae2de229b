//! Where the columns of packets go.
ghost use Rattle.std.specs.Prelude.{◌≡◌, ◌<◌, ◌++◌, ◌∷◌, [], ℕ, List, length, IfOk};
ghost use Rattle.lg_model.specs.Scenario.{Scenario};
ghost use Rattle.lg_model.specs.Columns.{Column};
ghost use Rattle.lg_model.specs.Arriving.{column_of};
ghost use Rattle.lg_model.specs.Carrying as model;
ghost use Rattle.lg_model.specs.Midway.{AreDelivered};
ghost use Rattle.sketchlet_wire.specs.declared.packed.Packed.{Packed};
ghost use Rattle.sketchlet_wire.specs.Packing.{IsPacked};
ghost use Rattle.path_sim.specs.Parts.{carry_is};
ghost use Rattle.path_sim.specs.Taking.{MayTake};

use crate::carry::Carry;
use epoch_freeze::Twins;
use lg_base::Memory;

/// Packs the columns that packets take, and keeps what comes to the hosts. Contracts see `stands`, which column a cargo
/// stands for, `inboxes`, the packed columns of each host in order of arrival, and `notes`, whether a list may be the
/// carry list of that scenario so far.
pub trait Post {
    /// What a packet carries for its column.
    type Cargo: Copy;

    ghost stands: { Self → Self.Cargo → Column → Type 0 };

    ghost inboxes: { Self → List (List Packed) };

    ghost notes: { Self → Scenario → List model.Carry → Type 0 };

    /// A packet takes the column of an entry of the carry list, off the sketch that the twins froze last. Memory where
    /// there is none for the column or the entry.
    fn take(&mut self, twins: &Twins, carry: &Carry) -> Result<Self::Cargo, Memory>
        requires { (w : Scenario) × (cs : List model.Carry) × notes self.old w cs × MayTake w cs twins.now carry.now }
        ensures noted { IfOk result (λ _. (w : Scenario) (cs : List model.Carry) → notes self.old w cs
            → MayTake w cs twins.now carry.now → notes self.new w (cs ++ carry_is carry.now ∷ [])) }
        ensures taken { IfOk result (λ cargo. (w : Scenario) (cs : List model.Carry) → notes self.old w cs
            → MayTake w cs twins.now carry.now → stands self.new cargo (column_of w (carry_is carry.now))) }
        // A cargo goes on standing for its column, whatever is taken after it.
        ensures stays { IfOk result (λ _. (c : Self.Cargo) (column : Column) → stands self.old c column → stands self.new c column) }
        ensures inboxes { IfOk result (λ _. inboxes self.new ≡ inboxes self.old) };

    /// A cargo comes to the host at that position. Memory where there is none for it.
    fn arrive(&mut self, host_at: u16, cargo: Self::Cargo) -> Result<(), Memory>
        requires inside { host_at < length (inboxes self.old) }
        requires known { (column : Column) × stands self.old cargo column }
        ensures arrived { IfOk result (λ _. (column : Column) (ds : List (ℕ × Column)) → stands self.old cargo column
            → AreDelivered IsPacked ds (inboxes self.old) → AreDelivered IsPacked (ds ++ (host_at, column) ∷ []) (inboxes self.new)) }
        ensures hosts { IfOk result (λ _. length (inboxes self.new) ≡ length (inboxes self.old)) }
        ensures stays { IfOk result (λ _. (c : Self.Cargo) (column : Column) → stands self.old c column → stands self.new c column) }
        ensures noted { IfOk result (λ _. (w : Scenario) (cs : List model.Carry) → notes self.old w cs → notes self.new w cs) };
}
