//! One row of a sketch.
ghost use Rattle.std.specs.Prelude.{◌≡◌, ◌<◌, length, min, slice_set, replicate, IfOk};
ghost use Rattle.lg_model.specs.Sketch.{bucket_in, raised, zero_bucket};

use std::alloc::{AllocError, Global};
use std::marker::Model;
use sumax_row::{Bucket, step};

/// A bucket that counted nothing.
pub const ZERO: Bucket = Bucket { bytes: 0, delay: 0 };

/// The buckets of one row.
#[derive(Debug, Drop)]
pub struct Row {
    buckets: Vec<Bucket>,
}

impl Model for Row {
    ghost use Rattle.std.specs.Prelude.{List};
    ghost use Rattle.lg_model.specs.declared.column.Bucket.{Bucket};

    ghost Value = { List Bucket };

    ghost view = { λ r. r.buckets.items };
}

impl Row {
    /// A row of that many zeros. An error where there is no memory.
    pub fn new(alloc: Global, width: u16) -> Result<Row, AllocError>
        ensures { IfOk result (λ r. r ≡ replicate width zero_bucket) }
    {
        Ok(Row {
            buckets: vec![in alloc; ZERO; usize::from(width)]?,
        })
    }

    /// Counts a packet in the bucket at the place, by one step of the row.
    pub fn raise(&mut self, place: u16, size: u32, delay: u32, running: u32) -> u32
        requires { place < length self.old }
        ensures least { result ≡ min running (bucket_in self.old place).bytes }
        ensures row { self.new ≡ slice_set self.old place (raised (bucket_in self.old place) result size delay) }
    {
        step(&mut self.buckets, place, size, delay, running)
    }

    /// The bucket at an index.
    pub fn bucket(&self, index: u16) -> Bucket
        requires { index < length self.now }
        ensures { result ≡ bucket_in self.now index }
    {
        self.buckets[index as usize]
    }

    /// Puts another bucket at an index.
    pub fn set(&mut self, index: u16, bucket: Bucket)
        requires { index < length self.old }
        ensures { self.new ≡ slice_set self.old index bucket }
    {
        self.buckets[index as usize] = bucket;
    }

    /// Makes the bucket at an index zero. One past the row is none.
    pub fn zero(&mut self, index: u16)
        ensures { self.new ≡ slice_set self.old index zero_bucket }
    {
        let index = usize::from(index);
        if index < self.buckets.len() {
            self.buckets[index] = ZERO;
        }
    }

    /// Makes all buckets zeros.
    pub fn clear(&mut self)
        ensures { self.new ≡ replicate (length self.old) zero_bucket }
    {
        self.buckets.fill(ZERO);
    }
}
