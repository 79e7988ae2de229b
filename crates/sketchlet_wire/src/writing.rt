//! Writing a column.
ghost use Rattle.std.specs.Prelude.{◌≡◌, ◌≤◌, ◌++◌, length, drop};
ghost use Rattle.sketchlet_wire.specs.Spelling.{spelling, spelling_len, marks, dims_bytes, column_key_bytes, IsColumn};

use crate::cells::put_cells;
use crate::column::Column;
use crate::key::put_key;
use byte_fields::put_u16;
use lg_model::{Dims, Key};

// The 14 bytes before the cells.
#[tactic(auto, unfolding(crate::specs::Spelling::marks, crate::specs::Spelling::dims_bytes, crate::specs::Spelling::column_key_bytes))]
fn put_head(out: &mut [u8], key: Key, dims: Dims)
    requires { 14 ≤ length out.old }
    ensures bytes { out.new ≡ marks ++ (dims_bytes dims ++ (column_key_bytes key ++ drop 14 out.old)) }
    ensures len { length out.new ≡ length out.old }
{
    out[..4].copy_from_slice(&[0x4C, 0x47, 1, dims.rows]);
    put_u16(&mut out[4..], dims.width);
    put_key(&mut out[6..], key);
}

/// Writes the column's one spelling at the front of the bytes, of which there are as many, and gives its length,
/// `14 + 6 * rows`. The others stay. Takes no memory (docs/FORMATS.md, Sketchlet).
pub fn put_column(out: &mut [u8], column: &Column) -> usize
    requires { length (spelling column.now) ≤ length out.old }
    ensures len { result ≡ spelling_len column.now.dims.rows }
    ensures bytes { out.new ≡ spelling column.now ++ drop result out.old }
    ensures admitted { IsColumn column.now }
{
    put_head(out, column.key(), column.dims());
    14 + put_cells(&mut out[14..], column)
}

/// Writes the column's one spelling at the front of the array, and gives its length, `14 + 6 * rows`, which is 20 to 62
/// bytes. The bytes after it stay as they were. Takes no memory (docs/FORMATS.md, Sketchlet).
pub fn encode(column: &Column, out: &mut [u8; 62]) -> usize
    ensures len { result ≡ spelling_len column.now.dims.rows }
    ensures bytes { out.new ≡ spelling column.now ++ drop result out.old }
    ensures admitted { IsColumn column.now }
{
    column.dims();
    put_column(out, column)
}
