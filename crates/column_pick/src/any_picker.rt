//! The pickers that a scenario can name (docs/DEFINITIONS.md, Picked list).
ghost use Rattle.std.specs.Prelude.{◌≡◌};
ghost use Rattle.column_pick.specs.Picks.{AnyPicks, fresh};

use crate::chance::Chance;
use crate::picker::Picker;
use crate::turns::Turns;
use epoch_freeze::Twins;
use lg_model::Pick;

/// A picker by turns or by chance. It picks as the picker that it holds.
#[derive(Drop)]
pub enum AnyPicker {
    /// By turns.
    Turns(Turns),
    /// By chance.
    Chance(Chance),
}

impl AnyPicker {
    /// The picker, offered nothing so far, of the switch of that name under a scenario's choice.
    pub fn new(pick: Pick, switch: u16) -> AnyPicker
        ensures { result ≡ fresh pick switch }
    {
        match pick {
            Pick::Turns => AnyPicker::Turns(Turns::new()),
            Pick::Chance(seed) => AnyPicker::Chance(Chance::new(seed, switch)),
        }
    }
}

impl Picker for AnyPicker {
    ghost picks = { AnyPicks };

    fn pick(&mut self, hops_left: u8, twins: &Twins) -> Option<u16> {
        match self {
            AnyPicker::Turns(turns) => turns.pick(hops_left, twins),
            AnyPicker::Chance(chance) => chance.pick(hops_left, twins),
        }
    }
}
