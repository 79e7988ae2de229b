//! Putting an upload's new columns into blocks.
ghost use Rattle.std.specs.Prelude.{◌≡◌, ◌+◌, ◌<◌, ◌≤◌, ◌++◌, ◌∷◌, [], All, None, OnOk, IfSome, true, filter, length, if◌then◌else◌};
ghost use Rattle.std.specs.List.{AllByRecursion};
ghost use Rattle.std.specs.Vec.{vec_capacity};
ghost use Rattle.lg_model.specs.declared.column.Key.{Key as GhostKey};
ghost use Rattle.sketchlet_wire.specs.Uploads.{IsUpload};
ghost use Rattle.column_book.specs.declared.block.Spot.{Spot as GhostSpot};
ghost use Rattle.column_book.specs.Blocks.{spot, kept_at, IsMade};
ghost use Rattle.column_book.specs.Kept.{is_free, keys_of, AreKeys, IsGrown};

use crate::block::{Spot, spot_of};
use crate::blocks::Blocks;
use lg_base::Memory;
use lg_model::Key;
use sketchlet_wire::Column;

// Puts a column where none is kept under its key. Whether none was.
fn put_one(blocks: &mut Blocks, keys: &mut Vec<Key>, column: &Column) -> bool
    requires known { AreKeys blocks.old.map.entries keys.old.items }
    requires made { IsMade blocks.old.map.entries (spot column.now.key) }
    requires room { is_free blocks.old.map.entries column.now ≡ true → length keys.old.items < vec_capacity keys.old }
    ensures told { result ≡ is_free blocks.old.map.entries column.now }
    ensures grown { IsGrown blocks.old.map.entries keys.old.items blocks.new.map.entries keys.new.items
        (if result then column.now ∷ [] else []) }
    ensures capacity { vec_capacity keys.new ≡ vec_capacity keys.old }
{
    let new = blocks.put(&column.key(), column.filled());
    if new {
        keys.push_reserved(column.key());
    }
    new
}

/// Puts those columns of an upload whose key is new, and their keys after the others. How many these are.
pub(crate) fn put_new(blocks: &mut Blocks, keys: &mut Vec<Key>, columns: &[Column]) -> u8
    requires known { AreKeys blocks.old.map.entries keys.old.items }
    requires upload { IsUpload columns.now }
    requires made { All (λ c. kept_at blocks.old.map.entries c.key ≡ None → IsMade blocks.old.map.entries (spot c.key)) columns.now }
    requires room { length keys.old.items + length (filter (is_free blocks.old.map.entries) columns.now) ≤ vec_capacity keys.old }
    ensures grown { IsGrown blocks.old.map.entries keys.old.items blocks.new.map.entries keys.new.items
        (filter (is_free blocks.old.map.entries) columns.now) }
    ensures capacity { vec_capacity keys.new ≡ vec_capacity keys.old }
    ensures count { result ≡ length (filter (is_free blocks.old.map.entries) columns.now) }
    ensures few { result ≤ 16 }
{
    let mut count = 0;
    for column in columns {
        if put_one(blocks, keys, column) {
            count += 1;
        }
    }
    count
}

/// Takes all keys off the ready list, and drops those of their blocks that hold no column.
pub(crate) fn sweep(blocks: &mut Blocks, ready: &mut Vec<Key>)
    ensures kept { (q : GhostKey) → kept_at blocks.new.map.entries q ≡ kept_at blocks.old.map.entries q }
    ensures empty { ready.new.items ≡ [] }
    ensures capacity { vec_capacity ready.new ≡ vec_capacity ready.old }
{
    while let Some(key) = ready.pop() {
        blocks.drop_empty(spot_of(&key));
    }
}

// Makes a block, where there is none. One that was made just before isn't looked up again.
fn make_next(blocks: &mut Blocks, last: &Option<Spot>, spot: Spot) -> Result<(), Memory>
    requires last { IfSome last.now (IsMade blocks.old.map.entries) }
    ensures kept { (q : GhostKey) → kept_at blocks.new.map.entries q ≡ kept_at blocks.old.map.entries q }
    ensures stays { (s : GhostSpot) → IsMade blocks.old.map.entries s → IsMade blocks.new.map.entries s }
    ensures made { OnOk result (IsMade blocks.new.map.entries spot) }
{
    if let Some(last) = last {
        if *last == spot {
            return Ok(());
        }
    }
    blocks.make(spot)
}

/// Makes the blocks of columns, and the list of their keys, which has room for all of them.
pub(crate) fn make_all(
    blocks: &mut Blocks,
    ready: &mut Vec<Key>,
    columns: &[Column],
) -> Result<(), Memory>
    requires empty { ready.old.items ≡ [] }
    requires room { length columns.now ≤ vec_capacity ready.old }
    ensures kept { (q : GhostKey) → kept_at blocks.new.map.entries q ≡ kept_at blocks.old.map.entries q }
    ensures made { AllByRecursion (λ k. IsMade blocks.new.map.entries (spot k)) ready.new.items }
    ensures few { length ready.new.items ≤ length columns.now }
    ensures all { OnOk result (ready.new.items ≡ keys_of columns.now) }
{
    let mut last = None;
    for column in columns {
        let key = column.key();
        let spot = spot_of(&key);
        make_next(blocks, &last, spot)?;
        last = Some(spot);
        ready.push_reserved(key);
    }
    Ok(())
}
