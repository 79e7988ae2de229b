//! A column of a sketch.
ghost use Rattle.std.specs.Prelude.{◌≡◌, ◌<◌, MatchOption, drop, length, replicate, slice_index_or, true};
ghost use Rattle.lg_model.specs.Sketch.{zero_bucket};
ghost use Rattle.sketchlet_wire.specs.Spelling.{shown, filled, zeros, IsAdmitted, IsColumn};

use crate::ranges::{buckets_fit, key_fits};
use lg_model::limits::{MOST_ROWS, MOST_WIDTH};
use lg_model::{Bucket, Dims, Key};
use std::marker::Model;

/// The buckets of one index over all rows of a frozen sketch, with what names them. The rows are 1 to 8, the width is 1
/// to 4096, and the index is below the width.
#[derive(Clone, Copy, Debug, PartialEq, Eq)]
pub struct Column {
    key: Key,
    dims: Dims,
    // Row 0 first, with zeros past the rows.
    buckets: [Bucket; 8],
}

impl Model for Column {
    ghost use Rattle.lg_model.specs.Columns as model;
    ghost use Rattle.sketchlet_wire.specs.Spelling.{IsKept, shown, filled, filled_back};

    ghost Value = { model.Column };

    ghost view = { λ c. shown c.key c.dims c.buckets };

    ghost invariant = { λ c. IsKept c.key c.dims c.buckets };

    ghost inverse = { λ v. record { key = v.key; dims = v.dims; buckets = filled v.dims v.cells } };

    ghost inverse_ok = { λ a h i. record { key = a.key; dims = a.dims; buckets = filled_back a.key a.dims a.buckets h i } };
}

impl Column {
    /// A column with these buckets, row 0 first, of which those past the rows are replaced by zeros. None exactly where the
    /// rows are not 1 to 8, the width is not 1 to 4096, or the index is not below the width. Takes no memory.
    pub fn new(key: Key, dims: Dims, mut buckets: [Bucket; 8]) -> Option<Column>
        ensures { MatchOption result (IsAdmitted key dims → ⊥) (λ c. IsAdmitted key dims × (c ≡ shown key dims buckets)) }
    {
        if dims.rows < 1
            || dims.rows > MOST_ROWS
            || dims.width < 1
            || dims.width > MOST_WIDTH
            || key.index >= dims.width
        {
            return None;
        }
        clear(&mut buckets[dims.rows as usize..]);
        Some(Column::kept(key, dims, buckets))
    }

    // The column of buckets that are zeros past the rows.
    pub(crate) fn kept(key: Key, dims: Dims, buckets: [Bucket; 8]) -> Column
        requires admitted { IsAdmitted key dims }
        requires zeros { drop dims.rows buckets ≡ drop dims.rows zeros }
        ensures { result ≡ shown key dims buckets }
    {
        key_fits(key);
        buckets_fit(&buckets);
        Column { key, dims, buckets }
    }

    /// What names the column.
    pub fn key(&self) -> Key
        ensures value { result ≡ self.now.key }
        ensures admitted { IsColumn self.now }
    {
        self.key
    }

    /// The size of the sketch that it is of.
    pub fn dims(&self) -> Dims
        ensures value { result ≡ self.now.dims }
        ensures admitted { IsColumn self.now }
    {
        self.dims
    }

    /// The bucket of a row, which is below the rows.
    pub fn bucket(&self, row: u8) -> Bucket
        requires { row < self.now.dims.rows }
        ensures { result ≡ slice_index_or self.now.cells.buckets row zero_bucket }
    {
        self.buckets[row as usize]
    }

    /// The eight buckets that a column is kept with: those of its rows, row 0 first, and zeros past them.
    pub fn filled(&self) -> &[Bucket; 8]
        ensures { result.now ≡ filled self.now.dims self.now.cells }
    {
        &self.buckets
    }

    /// Whether both are one column: the same key, size and buckets.
    pub fn is_same(&self, other: &Column) -> bool
        ensures same { result ≡ true → self.now ≡ other.now }
        ensures found { self.now ≡ other.now → result ≡ true }
    {
        self == other
    }
}

// Makes all of them zeros. `fill` would too, and takes longer.
fn clear(buckets: &mut [Bucket])
    ensures { buckets.new ≡ replicate (length buckets.old) zero_bucket }
{
    for bucket in buckets.iter_mut() {
        *bucket = Bucket { bytes: 0, delay: 0 };
    }
}
