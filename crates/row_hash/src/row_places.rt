//! The places of a flow (docs/DEFINITIONS.md, Places).
ghost use Rattle.std.specs.Prelude.{◌≡◌, ◌<◌, ◌≤◌, length, take, slice_index};
ghost use Rattle.lg_model.specs.declared.limits.TheConstants.{MOST_ROWS};

use std::marker::Model;

/// The places of a flow, row 0 first: at most 8 indexes.
#[derive(Debug, Drop)]
pub struct Places {
    rows: u8,
    at: [u16; 8],
}

impl Model for Places {
    ghost use Rattle.std.specs.Prelude.{List, ℕ, ◌≤◌, take};
    ghost use Rattle.lg_model.specs.declared.limits.TheConstants.{MOST_ROWS};

    ghost Value = { List ℕ };

    ghost view = { λ p. take p.rows p.at };

    ghost invariant = { λ p. p.rows ≤ MOST_ROWS };
}

impl Places {
    // The first places of an array.
    pub(crate) fn first(rows: u8, at: [u16; 8]) -> Places
        requires { rows ≤ MOST_ROWS }
        ensures { result ≡ take rows at }
    {
        Places { rows, at }
    }

    /// The place in row i, which is below the number of rows.
    pub fn row(&self, i: u8) -> u16
        requires { i < length self.now }
        ensures { result ≡ slice_index self.now i }
    {
        self.at[usize::from(i)]
    }
}
