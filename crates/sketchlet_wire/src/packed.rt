//! The spelling of a column in an array.
ghost use Rattle.std.specs.Prelude.{◌≡◌, ◌≤◌, ℕ, Ok, IfOk};
ghost use Rattle.lg_model.specs.declared.limits.TheConstants.{MOST_SKETCHLET_BYTES};
ghost use Rattle.lg_model.specs.Columns.{Column as ColumnOfModel};
ghost use Rattle.sketchlet_wire.specs.Spelling.{spelling_len};
ghost use Rattle.sketchlet_wire.specs.Reading.{column_reading};
ghost use Rattle.sketchlet_wire.specs.Packing.{packed_bytes, IsPacked};

use crate::column::Column;
use crate::fault::WireFault;
use crate::reading::decode;
use crate::writing::encode;

/// A sketchlet as a packet carries it. The first `len` bytes count; those after them have no meaning.
#[derive(Clone, Copy, Debug, PartialEq, Eq)]
pub struct Packed {
    /// How many bytes count. `Packed::of` makes them 20 to 62.
    pub len: u8,
    /// The bytes.
    pub bytes: [u8; 62],
}

impl Packed {
    /// The spelling of a column, with zeros after it. Takes no memory.
    pub fn of(column: &Column) -> Packed
        ensures spelled { IsPacked result column.now }
        ensures len { result.len ≡ spelling_len column.now.dims.rows }
    {
        let mut bytes = [0; 62];
        let len = encode(column, &mut bytes) as u8;
        Packed { len, bytes }
    }

    /// The bytes that count. The length is at most 62.
    pub fn spelled(&self) -> &[u8]
        requires { self.now.len ≤ MOST_SKETCHLET_BYTES }
        ensures { result.now ≡ packed_bytes self.now }
    {
        &self.bytes[..self.len as usize]
    }

    /// The column at the front of the bytes that count, and the length of its spelling. The length is at most 62. The
    /// faults are those of [`decode`]; bytes that count and come after the column are no fault.
    pub fn column(&self) -> Result<(Column, usize), WireFault>
        requires { self.now.len ≤ MOST_SKETCHLET_BYTES }
        // What packs a column is read as that column, to its last byte.
        ensures only { (c : ColumnOfModel) → IsPacked self.now c → result ≡ Ok (c, self.now.len) }
        ensures inside { IfOk result (λ x. x.1 ≤ self.now.len) }
        // Bytes that are read to their end pack what is read.
        ensures whole { IfOk result (λ x. x.1 ≡ self.now.len → IsPacked self.now x.0) }
        // Which column or which fault it is.
        ensures exact { result ≡ column_reading (packed_bytes self.now) }
    {
        decode(self.spelled())
    }
}
