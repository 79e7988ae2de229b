//! Blocks in the order of their spots.
ghost use Rattle.std.specs.Prelude.{◌≡◌, ◌&&◌, [], OnOk, Some, is_none, option_copied, if◌then◌else◌};
ghost use Rattle.lg_model.specs.declared.column.Key.{Key as GhostKey};
ghost use Rattle.sketchlet_wire.specs.Uploads.{same_column_key};
ghost use Rattle.column_book.specs.declared.block.Spot.{Spot as GhostSpot};
ghost use Rattle.column_book.specs.Blocks.{spot, block_at, kept_at, IsMade};

use crate::block::{Block, Spot, spot_of};
use lg_base::Memory;
use lg_model::{Bucket, Key};
use std::alloc::Global;
use std::collections::BTreeMap;

/// The blocks that were made, each in a box of its own.
#[derive(Drop)]
pub(crate) struct Blocks {
    pub(crate) alloc: Global,
    pub(crate) map: BTreeMap<Spot, Box<Block>>,
}

impl Blocks {
    /// No block. Takes no memory.
    pub(crate) fn new(alloc: Global) -> Blocks
        ensures { result.map.entries ≡ [] }
    {
        Blocks {
            alloc,
            map: BTreeMap::new(alloc),
        }
    }

    /// The block at a spot, if it was made.
    pub(crate) fn block(&self, spot: &Spot) -> Option<&Block>
        ensures { option_copied result ≡ block_at self.now.map.entries spot.now }
    {
        let block: &Block = self.map.get(spot)?;
        Some(block)
    }

    /// The column under a key, if it is there.
    pub(crate) fn get(&self, key: &Key) -> Option<&[Bucket; 8]>
        ensures { option_copied result ≡ kept_at self.now.map.entries key.now }
    {
        let block = self.block(&spot_of(key))?;
        block.get(key.index % 16)
    }

    /// Whether no column is there under a key.
    pub(crate) fn lacks(&self, key: &Key) -> bool
        ensures { result ≡ is_none (kept_at self.now.map.entries key.now) }
    {
        self.get(key).is_none()
    }

    /// Makes a block, where there is none. No column comes or goes.
    pub(crate) fn make(&mut self, spot: Spot) -> Result<(), Memory>
        ensures kept { (q : GhostKey) → kept_at self.new.map.entries q ≡ kept_at self.old.map.entries q }
        ensures stays { (s : GhostSpot) → IsMade self.old.map.entries s → IsMade self.new.map.entries s }
        ensures made { OnOk result (IsMade self.new.map.entries spot) }
    {
        if self.map.contains_key(&spot) {
            return Ok(());
        }
        self.map
            .insert(spot, Box::new(self.alloc, Block::empty())?)?;
        Ok(())
    }

    /// Drops a block that holds no column. No column comes or goes.
    pub(crate) fn drop_empty(&mut self, spot: Spot)
        ensures { (q : GhostKey) → kept_at self.new.map.entries q ≡ kept_at self.old.map.entries q }
    {
        if let Some(block) = self.map.get(&spot) {
            let block: &Block = block;
            if block.is_empty() {
                self.map.remove(&spot);
            }
        }
    }

    /// Puts a column under a key where there is none, the block being made. Whether there was none. Takes no memory.
    pub(crate) fn put(&mut self, key: &Key, buckets: &[Bucket; 8]) -> bool
        requires { IsMade self.old.map.entries (spot key.now) }
        ensures told { result ≡ is_none (kept_at self.old.map.entries key.now) }
        ensures put { (q : GhostKey) → kept_at self.new.map.entries q ≡
            (if result && same_column_key key.now q then Some buckets.now else kept_at self.old.map.entries q) }
        ensures stays { (s : GhostSpot) → IsMade self.old.map.entries s → IsMade self.new.map.entries s }
    {
        let Some(block) = self.map.get_mut(&spot_of(key)) else {
            unreachable!()
        };
        let block: &mut Block = block;
        block.put(key.index % 16, buckets)
    }
}
