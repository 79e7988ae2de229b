//! Whole sketches (docs/DEFINITIONS.md, Raise).
ghost use Rattle.std.specs.Prelude.{◌≡◌, ◌<◌, ◌≤◌, ◌-◌, length, take, drop, replicate, slice_index, All, IfOk};
ghost use Rattle.std.specs.Fn.{iterate};
ghost use Rattle.lg_model.specs.Placing.{IsShape};
ghost use Rattle.lg_model.specs.Sketch.{raise, zero_table, bucket_at, column_at, zero_bucket};
ghost use Rattle.sumax_sketch.specs.SketchState.{zero_sketch, with_column};

use crate::row::Row;
use crate::rows::{column, raise_rows, set_column, zero_rows};
use crate::touched::Touched;
use lg_base::Memory;
use row_hash::{Places, Shape};
use std::alloc::Global;
use std::marker::Model;
use sumax_row::Bucket;

/// A table of buckets with the rows and the width of a shape. Only [`Sketch::new`] takes memory.
#[derive(Debug, Drop)]
pub struct Sketch {
    shape: Shape,
    rows: Vec<Row>,
    // what may be other than zero
    touched: Touched,
}

impl Model for Sketch {
    ghost use Rattle.lg_model.specs.Placing.{IsShape};
    ghost use Rattle.lg_model.specs.Sketch.{IsTable};
    ghost use Rattle.sumax_sketch.specs.SketchState.{SketchState};
    ghost use Rattle.sumax_sketch.specs.Touched.{IsNoted};

    ghost Value = { SketchState };

    ghost view = { λ s. record { shape = s.shape; table = s.rows.items } };

    ghost invariant = { λ s. IsTable s.shape s.rows.items × IsShape s.shape.rows s.shape.width × IsNoted s.touched s.rows.items };
}

impl Sketch {
    /// A sketch of zeros. Memory where there is none for its buckets.
    pub fn new(alloc: Global, shape: &Shape) -> Result<Sketch, Memory>
        ensures { IfOk result (λ s. s ≡ zero_sketch shape.now) }
    {
        let rows = zero_rows(alloc, shape)?;
        let touched = Touched::new(alloc, shape.width())?;
        Ok(Sketch {
            shape: *shape,
            rows,
            touched,
        })
    }

    /// Counts a packet, or several together, of `size` bytes that waited `delay` microseconds at the flow's places, which
    /// are one a row and below the width. No other bucket changes.
    pub fn update(&mut self, places: &Places, size: u32, delay: u32)
        requires rows { length places.now ≡ self.old.shape.rows }
        requires width { All (λ j. j < self.old.shape.width) places.now }
        ensures { self.new ≡ record self.old { table = raise (slice_index places.now) size delay self.old.table } }
    {
        self.touched.note_packet(places, self.rows.len());
        raise_rows(&mut self.rows, places, size, delay);
    }

    /// Counts `burst` packets, at least one, of `size` bytes each, that waited `delay` microseconds at their flow's places,
    /// which are one a row and below the width: in one step, as one packet of all their bytes.
    pub fn update_burst(&mut self, places: &Places, size: u16, delay: u32, burst: u32)
        requires some { 1 ≤ burst }
        requires rows { length places.now ≡ self.old.shape.rows }
        requires width { All (λ j. j < self.old.shape.width) places.now }
        ensures { self.new ≡ record self.old { table = iterate (raise (slice_index places.now) size delay) burst self.old.table } }
    {
        let _shape = &self.shape;
        let bytes = u32::from(size).saturating_mul(burst);
        self.update(places, bytes, delay);
    }

    /// The bucket of a row at an index, which are below the shape's rows and width.
    pub fn bucket(&self, row: u8, index: u16) -> Bucket
        requires row { row < self.now.shape.rows }
        requires index { index < self.now.shape.width }
        ensures { result ≡ bucket_at self.now.table row index }
    {
        self.rows[row as usize].bucket(index)
    }

    /// The buckets of all rows at an index below the width, row 0 first, with zeros past the rows.
    pub fn column(&self, index: u16) -> [Bucket; 8]
        requires { index < self.now.shape.width }
        ensures rows { take self.now.shape.rows result ≡ column_at self.now.table index }
        ensures rest { drop self.now.shape.rows result ≡ replicate (8 - self.now.shape.rows) zero_bucket }
    {
        column(&self.rows, index)
    }

    /// Puts these buckets at an index below the width, row 0 first. Those past the rows are ignored, and no other
    /// bucket changes.
    pub fn set_column(&mut self, index: u16, buckets: &[Bucket; 8])
        requires { index < self.old.shape.width }
        ensures { self.new ≡ record self.old { table = with_column index buckets.now self.old.table } }
    {
        self.touched.note_all();
        set_column(&mut self.rows, index, buckets);
    }

    /// Makes all buckets zeros.
    pub fn clear(&mut self)
        ensures { self.new ≡ zero_sketch self.old.shape }
    {
        self.touched.clear(&mut self.rows);
    }

    /// The shape, which never changes.
    pub fn shape(&self) -> Shape
        ensures value { result ≡ self.now.shape }
        ensures range { IsShape self.now.shape.rows self.now.shape.width }
    {
        self.shape
    }
}
