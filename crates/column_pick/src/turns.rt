//! The picker by turns (docs/DEFINITIONS.md, Picked list).
ghost use Rattle.std.specs.Prelude.{◌≡◌};
ghost use Rattle.column_pick.specs.Picks.{TurnsPicks};

use crate::picker::Picker;
use epoch_freeze::Twins;
use std::marker::Model;

/// Gives a column at each offer whose number, from 0 over the whole run, is divided by the hops left. Its index is the
/// number of columns that were put out since the last end, modulo the width: the indexes one after the other. Contracts
/// see the number of offers so far, which stays at its last value, 2^64 - 1.
#[derive(Debug, Drop)]
pub struct Turns {
    offers: u64,
}

impl Model for Turns {
    ghost use Rattle.std.specs.Prelude.{ℕ};

    ghost Value = { ℕ };

    ghost view = { λ t. t.offers };
}

impl Turns {
    /// The picker that was offered nothing so far.
    pub fn new() -> Turns
        ensures { result ≡ 0 }
    {
        Turns { offers: 0 }
    }
}

impl Picker for Turns {
    ghost picks = { TurnsPicks };

    fn pick(&mut self, hops_left: u8, twins: &Twins) -> Option<u16> {
        let offers = self.offers;
        self.offers = offers.saturating_add(1);
        if offers % u64::from(hops_left) != 0 {
            return None;
        }
        Some((twins.put_count() % u32::from(twins.width())) as u16)
    }
}
