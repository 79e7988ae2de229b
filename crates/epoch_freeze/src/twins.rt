//! The sketches of a switch and its epochs (docs/DEFINITIONS.md, Twins).
ghost use Rattle.std.specs.Prelude.{◌≡◌, ◌<◌, ◌≤◌, ◌-◌, ◌^◌, length, slice_index, All, IfOk, IfSome, IfNone, MatchOption};
ghost use Rattle.std.specs.Fn.{iterate};
ghost use Rattle.lg_model.specs.declared.limits.TheConstants.{MOST_ENDS};
ghost use Rattle.lg_model.specs.Placing.{IsShape};
ghost use Rattle.lg_model.specs.Sketch.{raise};
ghost use Rattle.lg_model.specs.TwinsState.{TwinsState, new_twins, with_put, with_end};

use lg_base::Memory;
use row_hash::{Places, Shape};
use std::alloc::Global;
use std::marker::Model;
use std::mem;
use sumax_sketch::Sketch;

/// The two sketches of a switch, of one shape. Only [`Twins::new`] takes memory: the end of an epoch swaps the two.
#[derive(Debug, Drop)]
pub struct Twins {
    shape: Shape,
    epoch: u32,
    current: Sketch,
    frozen: Sketch,
    put: u32,
    times: Vec<u32>,
}

impl Model for Twins {
    ghost use Rattle.lg_model.specs.TwinsState.{TwinsState};
    ghost use Rattle.epoch_freeze.specs.Paired.{ArePaired};

    ghost Value = { TwinsState };

    ghost view = { λ t. record { shape = t.shape; epoch = t.epoch; current = t.current.table; frozen = t.frozen.table; put = t.put; times = t.times.items } };

    ghost invariant = { λ t. ArePaired t.shape t.current t.frozen t.put t.times.items };
}

impl Twins {
    /// The twins of epoch 0, in which nothing is counted or frozen. Memory where there is none for the two sketches
    /// and the counts.
    pub fn new(alloc: Global, shape: &Shape) -> Result<Twins, Memory>
        ensures { IfOk result (λ t. t ≡ new_twins shape.now) }
    {
        let current = Sketch::new(alloc, shape)?;
        let frozen = Sketch::new(alloc, shape)?;
        let times = vec![in alloc; 0; usize::from(shape.width())]?;
        Ok(Twins {
            shape: *shape,
            epoch: 0,
            current,
            frozen,
            put: 0,
            times,
        })
    }

    /// Counts `burst` packets, at least one, of `size` bytes each, that waited `delay` microseconds at their flow's places,
    /// which are one a row and below the width, in the current sketch. As fast for a burst as for one packet.
    pub fn see(&mut self, places: &Places, size: u16, delay: u32, burst: u32)
        requires some { 1 ≤ burst }
        requires rows { length places.now ≡ self.old.shape.rows }
        requires width { All (λ j. j < self.old.shape.width) places.now }
        ensures { self.new ≡ record self.old { current = iterate (raise (slice_index places.now) size delay) burst self.old.current } }
    {
        self.current.update_burst(places, size, delay, burst);
    }

    /// Ends the epoch: the current sketch becomes the frozen one, the new current one is of zeros, the epoch rises by
    /// one, and nothing of the frozen sketch is put out. The epoch is below 65,535.
    pub fn end(&mut self)
        requires { self.old.epoch < MOST_ENDS }
        ensures { self.new ≡ with_end self.old }
    {
        mem::swap(&mut self.current, &mut self.frozen);
        self.current.clear();
        self.epoch += 1;
        if self.put > 0 {
            self.times.fill(0);
        }
        self.put = 0;
    }

    /// The number of epochs that have ended.
    pub fn epoch(&self) -> u32
        ensures { result ≡ self.now.epoch }
    {
        self.epoch
    }

    /// The sketch that counts the epoch that runs.
    pub fn current(&self) -> &Sketch
        ensures table { result.now.table ≡ self.now.current }
        ensures shape { result.now.shape ≡ self.now.shape }
    {
        &self.current
    }

    /// The sketch of the epoch that ended last, which is of epoch `epoch() - 1`. None exactly where no epoch has
    /// ended.
    pub fn frozen(&self) -> Option<&Sketch>
        ensures none { IfNone result (self.now.epoch ≡ 0) }
        ensures ended { IfSome result (λ s. 0 < self.now.epoch) }
        ensures table { IfSome result (λ s. s.now.table ≡ self.now.frozen) }
        ensures shape { IfSome result (λ s. s.now.shape ≡ self.now.shape) }
    {
        if self.epoch == 0 {
            None
        } else {
            Some(&self.frozen)
        }
    }

    /// Counts that the column at an index of the frozen sketch was put out. There is a frozen sketch, the index is
    /// below the width, and `put_count()` is below 2^32 - 1.
    pub fn put_out(&mut self, index: u16)
        requires ended { 0 < self.old.epoch }
        requires index { index < self.old.shape.width }
        requires put { self.old.put < 2 ^ 32 - 1 }
        ensures { self.new ≡ with_put self.old index }
    {
        self.put += 1;
        self.times[index as usize] += 1;
    }

    /// How often the column at an index below the width was put out since the last end.
    pub fn times_out(&self, index: u16) -> u32
        requires { index < self.now.shape.width }
        ensures { result ≡ slice_index self.now.times index }
    {
        self.times[index as usize]
    }

    /// How many columns were put out since the last end.
    pub fn put_count(&self) -> u32
        ensures { result ≡ self.now.put }
    {
        self.put
    }

    /// The shape of both sketches, which never changes.
    pub fn shape(&self) -> Shape
        ensures value { result ≡ self.now.shape }
        ensures range { IsShape self.now.shape.rows self.now.shape.width }
    {
        self.shape
    }

    /// The number of buckets of a row of both sketches, 1 to 4,096.
    pub fn width(&self) -> u16
        ensures value { result ≡ self.now.shape.width }
        ensures range { IsShape self.now.shape.rows self.now.shape.width }
    {
        self.shape.width()
    }
}
