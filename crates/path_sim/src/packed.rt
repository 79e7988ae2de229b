//! A column of a frozen sketch, packed.
ghost use Rattle.std.specs.Prelude.{◌<◌};
ghost use Rattle.sketchlet_wire.specs.Packing.{IsPacked};
ghost use Rattle.path_sim.specs.Parts.{frozen_column};

use epoch_freeze::Twins;
use lg_model::{Dims, Key};
use sketchlet_wire::{Column, Packed};

/// Packs the column at an index below the width of the sketch that the switch of that name froze last. There is one.
pub fn pack(twins: &Twins, switch: u16, index: u16) -> Packed
    requires frozen { 0 < twins.now.epoch }
    requires index { index < twins.now.shape.width }
    ensures { IsPacked result (frozen_column twins.now switch index) }
{
    let shape = twins.shape();
    let Some(frozen) = twins.frozen() else {
        unreachable!()
    };
    let key = Key {
        switch,
        epoch: twins.epoch() - 1,
        index,
    };
    let dims = Dims {
        rows: shape.rows(),
        width: shape.width(),
    };
    match Column::new(key, dims, frozen.column(index)) {
        Some(column) => Packed::of(&column),
        None => unreachable!(),
    }
}
