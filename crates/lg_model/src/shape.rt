//! Shapes of sketches (docs/DEFINITIONS.md, Places).
ghost use Rattle.std.specs.Prelude.{◌≡◌, MatchOption};
ghost use Rattle.lg_model.specs.Placing.{IsShape};

use crate::limits::{MOST_ROWS, MOST_WIDTH};
use crate::scenario::Hash;
use std::marker::Model;

/// The size of a sketch, and how it finds the places of a flow: 1 to 8 rows, 1 to 4,096 buckets a row, and a hash.
#[derive(Clone, Copy, Debug, PartialEq, Eq)]
pub struct Shape {
    rows: u8,
    width: u16,
    hash: Hash,
}

impl Model for Shape {
    ghost use Rattle.lg_model.specs.Placing as model;

    ghost Value = { model.Shape };

    ghost view = { λ s. record { rows = s.rows; width = s.width; hash = s.hash } };

    ghost invariant = { λ s. model.IsShape s.rows s.width };

    ghost inverse = { λ v. record { rows = v.rows; width = v.width; hash = v.hash } };
}

impl Shape {
    /// The shape of these rows, this many buckets a row and this hash. None exactly where the rows are outside 1 to 8
    /// or the width is outside 1 to 4,096.
    pub fn new(rows: u8, width: u16, hash: Hash) -> Option<Shape>
        ensures { MatchOption result (IsShape rows width → ⊥) (λ s. IsShape rows width × (s ≡ record { rows = rows; width = width; hash = hash })) }
    {
        if !(1..=MOST_ROWS).contains(&rows) || !(1..=MOST_WIDTH).contains(&width) {
            return None;
        }
        Some(Shape { rows, width, hash })
    }

    /// The number of rows, 1 to 8.
    pub fn rows(&self) -> u8
        ensures value { result ≡ self.now.rows }
        ensures range { IsShape self.now.rows self.now.width }
    {
        self.rows
    }

    /// The number of buckets of a row, 1 to 4,096.
    pub fn width(&self) -> u16
        ensures value { result ≡ self.now.width }
        ensures range { IsShape self.now.rows self.now.width }
    {
        self.width
    }

    /// How the places of a flow are found.
    pub fn hash(&self) -> Hash
        ensures value { result ≡ self.now.hash }
        ensures range { IsShape self.now.rows self.now.width }
    {
        self.hash
    }
}
