//! A cutter, which takes sketchlets one by one.
ghost use Rattle.std.specs.Prelude.{◌≡◌, ◌≤◌, ◌<◌, ◌^◌, length, [], Ok, Err, IfOk, IfErr};
ghost use Rattle.lg_model.specs.declared.limits.TheConstants.{MOST_SKETCHLET_BYTES};
ghost use Rattle.sketchlet_wire.specs.Packing.{IsPacked};
ghost use Rattle.sketchlet_wire.specs.Spelling.{IsColumn};
ghost use Rattle.sketchlet_wire.specs.Uploads.{IsUpload};
ghost use Rattle.host_collect.specs.Cutting.{can_join};
ghost use Rattle.host_collect.specs.Collecting.{cutter_of, held_upload, IsRefused, Pushed};

use crate::fault::CollectFault;
use lg_model::limits::MOST_UPLOAD_COLUMNS;
use sketchlet_wire::{Column, Packed, Upload, holds};
use std::alloc::Global;
use std::marker::Model;
use std::mem;

/// Takes the sketchlets that come to a host one by one, and gives an upload as soon as the next column cannot join it.
#[derive(Debug, Drop)]
pub struct Cutter {
    alloc: Global,
    host: u16,
    // How many items were taken.
    taken: u64,
    // How many uploads were given.
    given: u32,
    // The columns of the next upload.
    held: Vec<Column>,
}

impl Model for Cutter {
    ghost use Rattle.host_collect.specs.Collecting.{CutterData, IsCutter, cutter_of};

    ghost Value = { CutterData };

    ghost view = { λ c. cutter_of c.host c.taken c.given c.held.items };

    ghost invariant = { λ c. IsCutter (cutter_of c.host c.taken c.given c.held.items) };
}

// The column that an item is the spelling of.
fn column_of(nth: u32, item: &Packed) -> Result<Column, CollectFault>
    requires { item.now.len ≤ MOST_SKETCHLET_BYTES }
    ensures ok { IfOk result (λ c. IsPacked item.now c) }
    ensures err { IfErr result (λ fault. IsRefused nth item.now fault) }
{
    match item.column() {
        Err(fault) => Err(CollectFault::Bad { nth, fault }),
        Ok((column, used)) => {
            if used < usize::from(item.len) {
                return Err(CollectFault::Longer { nth });
            }
            Ok(column)
        }
    }
}

// Whether a column can join the columns held.
fn joins(held: &[Column], column: &Column) -> bool
    ensures { result ≡ can_join held.now column.now }
{
    held.len() < MOST_UPLOAD_COLUMNS && !holds(held, &column.key())
}

impl Cutter {
    /// A cutter for the host of that name, which holds nothing. Takes no memory.
    pub fn new(alloc: Global, host: u16) -> Cutter
        ensures { result ≡ cutter_of host 0 0 [] }
    {
        Cutter {
            alloc,
            host,
            taken: 0,
            given: 0,
            held: Vec::new(alloc),
        }
    }

    /// How many items were taken.
    pub fn taken(&self) -> u64
        ensures { result ≡ self.now.taken }
    {
        self.taken
    }

    /// Takes an item, whose length is at most 62, after fewer than 2^32 others. Gives the upload of the columns held where
    /// its column cannot join them: they are 16, or one has its key.
    ///
    /// `Bad` comes exactly where the bytes do not begin with a sketchlet, and `Longer` where bytes follow it, each with the
    /// number of items taken so far. After a fault the cutter is as before.
    pub fn push(&mut self, item: &Packed) -> Result<Option<Upload>, CollectFault>
        requires len { item.now.len ≤ MOST_SKETCHLET_BYTES }
        requires count { self.old.taken < 2 ^ 32 }
        ensures { Pushed self.old item.now result self.new }
    {
        let column = column_of(self.taken as u32, item)?;
        if joins(&self.held, &column) {
            self.held.push(column)?;
            self.taken += 1;
            return Ok(None);
        }
        let mut next = Vec::with_capacity(self.alloc, MOST_UPLOAD_COLUMNS)?;
        next.push(column)?;
        let held = mem::replace(&mut self.held, next);
        let seq = self.given;
        self.given += 1;
        self.taken += 1;
        Ok(Some(Upload::of(self.host, seq, held)))
    }

    /// The upload of the columns held. None exactly where there are none. Takes no memory.
    pub fn finish(self) -> Option<Upload>
        ensures { result ≡ held_upload self }
    {
        if self.held.is_empty() {
            return None;
        }
        Some(Upload::of(self.host, self.given, self.held))
    }
}
