//! The uploads of a list of sketchlets.
ghost use Rattle.std.specs.Prelude.{◌≡◌, ◌≤◌, ◌<◌, ◌^◌, All, List, length, IfOk, IfErr};
ghost use Rattle.lg_model.specs.declared.limits.TheConstants.{MOST_SKETCHLET_BYTES};
ghost use Rattle.lg_model.specs.Columns.{Column as ColumnOfModel};
ghost use Rattle.lg_model.specs.Matching.{Matched};
ghost use Rattle.sketchlet_wire.specs.Packing.{IsPacked};
ghost use Rattle.host_collect.specs.Cutting.{cut, numbered};
ghost use Rattle.host_collect.specs.Collecting.{Collected};
ghost use Rattle.host_collect.specs.declared.fault.CollectFault.TheVariants.{Memory};

use crate::cutter::Cutter;
use crate::fault::CollectFault;
use sketchlet_wire::{Packed, Upload};
use std::alloc::Global;

fn collect(alloc: Global, host: u16, items: &[Packed]) -> Result<Vec<Upload>, CollectFault>
    requires lens { All (λ item. item.len ≤ MOST_SKETCHLET_BYTES) items.now }
    requires count { length items.now < 2 ^ 32 }
    ensures { Collected host items.now result }
{
    let mut cutter = Cutter::new(alloc, host);
    let mut given = Vec::new(alloc);
    for item in items {
        if let Some(upload) = cutter.push(item)? {
            given.push(upload)?;
        }
    }
    if let Some(upload) = cutter.finish() {
        given.push(upload)?;
    }
    Ok(given)
}

/// The uploads of the sketchlets that come to the host of that name, in order, numbered from 0: each is the longest front
/// of the rest that has at most 16 columns and no key twice. The items are fewer than 2^32, each of at most 62 bytes.
///
/// `Bad` comes exactly where the first item that is no sketchlet does not begin with one, and `Longer` where bytes follow
/// the sketchlet of that item, each with the item's number, from 0.
pub fn uploads(alloc: Global, host: u16, items: &[Packed]) -> Result<Vec<Upload>, CollectFault>
    requires lens { All (λ item. item.len ≤ MOST_SKETCHLET_BYTES) items.now }
    requires count { length items.now < 2 ^ 32 }
    ensures collected { Collected host items.now result }
    // Spellings of columns are cut, unless memory runs out.
    ensures only { (cs : List ColumnOfModel) → Matched IsPacked items.now cs → IfOk result (λ us. us.items ≡ numbered host (cut cs)) }
    ensures memory { (cs : List ColumnOfModel) → Matched IsPacked items.now cs → IfErr result (λ fault. fault ≡ Memory) }
{
    collect(alloc, host, items)
}
