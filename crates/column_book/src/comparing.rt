//! Comparing an upload's columns with those that are kept.
ghost use Rattle.std.specs.Prelude.{◌≡◌, ◌+◌, ◌*◌, ◌^◌, ◌%◌, ◌<◌, ◌≤◌, List, All, Some, filter, is_none, length, map, option_copied, option_and_then, true, if◌then◌else◌};
ghost use Rattle.lg_model.specs.declared.column.Bucket.{Bucket as GhostBucket};
ghost use Rattle.sketchlet_wire.specs.Spelling.{filled};
ghost use Rattle.column_book.specs.Blocks.{block_at, kept_in};
ghost use Rattle.column_book.specs.Applying.{mask_of};
ghost use Rattle.column_book.specs.Kept.{is_free, IsAsKept};

use crate::block::{Block, Spot, spot_of};
use crate::blocks::Blocks;
use lg_model::Bucket;
use sketchlet_wire::Column;

/// What a pass over columns finds: which are new, and whether the others are kept as they came.
#[derive(Clone, Copy, Debug, PartialEq, Eq)]
pub(crate) struct Comparison {
    /// Bit k is set where column k is new.
    pub(crate) mask: u16,
    /// How many are new.
    pub(crate) count: u32,
    /// Each of the others is kept with the same eight buckets.
    pub(crate) same: bool,
}

// What was found after one column more, the nth, under whose key these buckets are kept.
fn with(found: Comparison, n: usize, kept: Option<&[Bucket; 8]>, column: &Column) -> Comparison
    requires place { n < 16 }
    requires mask { found.mask < 2 ^ n }
    requires count { found.count ≤ n }
    ensures mask { result.mask ≡ found.mask + (if is_none (option_copied kept.entry) then 2 ^ n else 0) }
    ensures count { result.count ≡ found.count + (if is_none (option_copied kept.entry) then 1 else 0) }
    ensures same { result.same ≡ true → (found.same ≡ true) × ((bs : List GhostBucket) → option_copied kept.entry ≡ Some bs →
        bs ≡ filled column.now.dims column.now.cells) }
{
    match kept {
        None => Comparison {
            mask: found.mask + (1 << n),
            count: found.count + 1,
            same: found.same,
        },
        Some(buckets) => Comparison {
            mask: found.mask,
            count: found.count,
            same: found.same && *buckets == *column.filled(),
        },
    }
}

// The spot of the first column, any where there is none.
fn front(columns: &[Column]) -> Spot {
    match columns.first() {
        Some(column) => spot_of(&column.key()),
        None => Spot {
            switch: 0,
            epoch: 0,
            nth: 0,
        },
    }
}

// The block at a spot. The last one isn't looked up again.
fn block_next<'a>(
    blocks: &'a Blocks,
    last: &Spot,
    seen: Option<&'a Block>,
    spot: &Spot,
) -> Option<&'a Block>
    requires { option_copied seen ≡ block_at blocks.now.map.entries last.now }
    ensures { option_copied result ≡ block_at blocks.now.map.entries spot.now }
{
    if *spot == *last {
        seen
    } else {
        blocks.block(spot)
    }
}

// What is kept at a place below 16 of a block, if there is one.
fn kept_of<'a>(block: Option<&'a Block>, place: u16) -> Option<&'a [Bucket; 8]>
    requires { place < 16 }
    ensures { option_copied result ≡ option_and_then (λ b. kept_in b place) (option_copied block.entry) }
{
    block?.get(place)
}

/// Compares at most 16 columns with those that are kept, with one look-up for neighbours of one block.
pub(crate) fn compare_all(blocks: &Blocks, columns: &[Column]) -> Comparison
    requires { length columns.now ≤ 16 }
    ensures mask { result.mask ≡ mask_of (map (is_free blocks.now.map.entries) columns.now) }
    ensures count { result.count ≡ length (filter (is_free blocks.now.map.entries) columns.now) }
    ensures few { result.count ≤ 16 }
    ensures same { result.same ≡ true → All (IsAsKept blocks.now.map.entries) columns.now }
{
    let mut found = Comparison {
        mask: 0,
        count: 0,
        same: true,
    };
    let mut spot = front(columns);
    let mut block = blocks.block(&spot);
    for n in 0..columns.len() {
        let column = &columns[n];
        let key = column.key();
        let at = spot_of(&key);
        block = block_next(blocks, &spot, block, &at);
        spot = at;
        found = with(found, n, kept_of(block, key.index % 16), column);
    }
    found
}
