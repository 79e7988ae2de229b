//! The lines of columns, of rebuilt sketches, and of acknowledged uploads.
ghost use Rattle.std.specs.Prelude.{◌≡◌, ◌<◌, ◌++◌, codes, IfOk};
ghost use Rattle.std.specs.List.{flat_map};
ghost use Rattle.text_out.specs.Appending.{AppendsText};
ghost use Rattle.text_out.specs.Words.{field};
ghost use Rattle.report_text.specs.Columns.{bucket_text, row_text};
ghost use Rattle.report_text.specs.Columns.{column_line as column_line_of, row_line as row_line_of, acked_line as acked_line_of};
ghost use Rattle.report_text.specs.Columns.{rebuilt_line as rebuilt_line_of};

use lg_base::Memory;
use lg_model::{Bucket, Dims, Key};
use sketchlet_wire::Column;
use std::alloc::Global;
use sumax_sketch::Sketch;
use text_out::{put_field, put_text};

// ` B D`
fn put_bucket(out: &mut Vec<u8>, bucket: Bucket) -> Result<(), Memory>
    ensures { AppendsText result out.old.items out.new.items (bucket_text bucket) }
{
    put_field(out, b" ", u64::from(bucket.bytes))?;
    put_field(out, b" ", u64::from(bucket.delay))?;
    Ok(())
}

// `column S E J`
fn put_key(out: &mut Vec<u8>, key: &Key) -> Result<(), Memory>
    ensures { AppendsText result out.old.items out.new.items
        (field (codes "column ") key.now.switch ++ field (codes " ") key.now.epoch ++ field (codes " ") key.now.index) }
{
    put_field(out, b"column ", u64::from(key.switch))?;
    put_field(out, b" ", u64::from(key.epoch))?;
    put_field(out, b" ", u64::from(key.index))?;
    Ok(())
}

// The buckets of a column.
pub(crate) fn put_buckets(out: &mut Vec<u8>, column: &Column) -> Result<(), Memory>
    ensures { AppendsText result out.old.items out.new.items (flat_map bucket_text column.now.cells.buckets) }
{
    for row in 0..column.dims().rows {
        put_bucket(out, column.bucket(row))?;
    }
    Ok(())
}

// The buckets of a row of a sketch.
fn put_row(out: &mut Vec<u8>, sketch: &Sketch, row: u8) -> Result<(), Memory>
    requires { row < sketch.now.shape.rows }
    ensures { AppendsText result out.old.items out.new.items (row_text sketch.now row sketch.now.shape.width) }
{
    for index in 0..sketch.shape().width() {
        put_bucket(out, sketch.bucket(row, index))?;
    }
    Ok(())
}

/// Appends `column S E J`, then of each row its sum in bytes and its maximum in microseconds, and the byte 10. At `Memory`
/// what stood before is kept, and a part of the line may stand after it (docs/FORMATS.md, Output lines).
#[tactic(auto, using(text_out::proofs::Keeping::keeps_itself, text_out::proofs::Keeping::keeps_after), unfolding(crate::specs::Columns::column_line))]
pub fn put_column_line(out: &mut Vec<u8>, column: &Column) -> Result<(), Memory>
    ensures { AppendsText result out.old.items out.new.items (column_line_of column.now) }
{
    put_key(out, &column.key())?;
    put_buckets(out, column)?;
    put_text(out, b"\n")?;
    Ok(())
}

/// The line that [`put_column_line`] appends, alone. `Memory` comes only where memory runs out.
pub fn column_line(alloc: Global, column: &Column) -> Result<Vec<u8>, Memory>
    ensures { IfOk result (λ line. line.items ≡ column_line_of column.now) }
{
    let mut line = Vec::new(alloc);
    put_column_line(&mut line, column)?;
    Ok(line)
}

// `rebuilt switch S epoch E`
fn put_sketch(out: &mut Vec<u8>, switch: u16, epoch: u32) -> Result<(), Memory>
    ensures { AppendsText result out.old.items out.new.items
        (field (codes "rebuilt switch ") switch ++ field (codes " epoch ") epoch) }
{
    put_field(out, b"rebuilt switch ", u64::from(switch))?;
    put_field(out, b" epoch ", u64::from(epoch))?;
    Ok(())
}

// ` rows R width W`
fn put_size(out: &mut Vec<u8>, dims: Dims) -> Result<(), Memory>
    ensures { AppendsText result out.old.items out.new.items
        (field (codes " rows ") dims.rows ++ field (codes " width ") dims.width) }
{
    put_field(out, b" rows ", u64::from(dims.rows))?;
    put_field(out, b" width ", u64::from(dims.width))?;
    Ok(())
}

/// Appends `rebuilt switch S epoch E rows R width W` and the byte 10: the first line of a rebuilt sketch, with its size. At
/// `Memory` what stood before is kept, and a part of the line may stand after it (docs/FORMATS.md, Output lines).
#[tactic(auto, using(text_out::proofs::Keeping::keeps_itself, text_out::proofs::Keeping::keeps_after), unfolding(crate::specs::Columns::rebuilt_line))]
pub fn put_rebuilt_line(
    out: &mut Vec<u8>,
    switch: u16,
    epoch: u32,
    dims: Dims,
) -> Result<(), Memory>
    ensures { AppendsText result out.old.items out.new.items (rebuilt_line_of switch epoch dims.rows dims.width) }
{
    put_sketch(out, switch, epoch)?;
    put_size(out, dims)?;
    put_text(out, b"\n")?;
    Ok(())
}

/// Appends `row I`, then of each index its sum in bytes and its maximum in microseconds, and the byte 10. The row is below
/// the rows of the sketch. At `Memory` what stood before is kept, and a part of the line may stand after it (docs/FORMATS.md,
/// Output lines).
#[tactic(auto, using(text_out::proofs::Keeping::keeps_itself, text_out::proofs::Keeping::keeps_after), unfolding(crate::specs::Columns::row_line))]
pub fn put_row_line(out: &mut Vec<u8>, sketch: &Sketch, row: u8) -> Result<(), Memory>
    requires { row < sketch.now.shape.rows }
    ensures { AppendsText result out.old.items out.new.items (row_line_of sketch.now row) }
{
    put_field(out, b"row ", u64::from(row))?;
    put_row(out, sketch, row)?;
    put_text(out, b"\n")?;
    Ok(())
}

/// The line that [`put_row_line`] appends, alone. The row is below the rows of the sketch. `Memory` comes only where memory
/// runs out.
pub fn row_line(alloc: Global, sketch: &Sketch, row: u8) -> Result<Vec<u8>, Memory>
    requires { row < sketch.now.shape.rows }
    ensures { IfOk result (λ line. line.items ≡ row_line_of sketch.now row) }
{
    let mut line = Vec::new(alloc);
    put_row_line(&mut line, sketch, row)?;
    Ok(line)
}

/// Appends `acked H Q` and the byte 10: the host's name and the number of the upload. At `Memory` what stood before is kept,
/// and a part of the line may stand after it (docs/FORMATS.md, Output lines).
#[tactic(auto, using(text_out::proofs::Keeping::keeps_itself, text_out::proofs::Keeping::keeps_after), unfolding(crate::specs::Columns::acked_line))]
pub fn put_acked_line(out: &mut Vec<u8>, host: u16, seq: u32) -> Result<(), Memory>
    ensures { AppendsText result out.old.items out.new.items (acked_line_of host seq) }
{
    put_field(out, b"acked ", u64::from(host))?;
    put_field(out, b" ", u64::from(seq))?;
    put_text(out, b"\n")?;
    Ok(())
}

/// The line that [`put_acked_line`] appends, alone. `Memory` comes only where memory runs out.
pub fn acked_line(alloc: Global, host: u16, seq: u32) -> Result<Vec<u8>, Memory>
    ensures { IfOk result (λ line. line.items ≡ acked_line_of host seq) }
{
    let mut line = Vec::new(alloc);
    put_acked_line(&mut line, host, seq)?;
    Ok(line)
}
