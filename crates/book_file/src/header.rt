//! The header of a file.
ghost use Rattle.std.specs.Prelude.{◌≡◌, ◌≤◌, ◌++◌, ◌∷◌, [], length, drop, slice_index, MatchOption};
ghost use Rattle.lg_model.specs.Placing as model;
ghost use Rattle.lg_model.specs.Columns as columns;
ghost use Rattle.sketchlet_wire.specs.Spelling.{IsDims};
ghost use Rattle.sketchlet_wire.specs.ShapeFields.{FitsShape, shape_bytes};
ghost use Rattle.book_file.specs.File.{header};

use lg_model::{Dims, Hash, Shape};
use sketchlet_wire::{WireFault, put_shape, take_shape};

// The seed of a hash has 8 bytes. Nothing is done here; the clause is what counts.
fn hash_fits(hash: Hash)
    ensures { Rattle.sketchlet_wire.specs.ShapeFields.FitsHash hash }
{
    match hash {
        Hash::Ports => {}
        Hash::Seed(_) => {}
    }
}

/// The size of the sketches of a shape.
pub(crate) fn dims_of(shape: &Shape) -> Dims
    ensures value { result ≡ columns.dims_of shape.now }
    ensures range { IsDims result }
{
    Dims {
        rows: shape.rows(),
        width: shape.width(),
    }
}

/// The 18 bytes of the empty journal of a shape: its header with an open gate, and a closed gate. Takes no memory
/// (docs/FORMATS.md, The book file).
#[tactic(auto, unfolding(crate::specs::File::header))]
pub fn empty_file(shape: &Shape) -> [u8; 18]
    ensures bytes { result ≡ header shape.now ++ 0 ∷ [] }
    ensures fits { FitsShape shape.now }
{
    hash_fits(shape.hash());
    let mut out = [
        1, 0x4C, 0x47, 0x42, 0x31, 0, 0, 0, 0, 0, 0, 0, 0, 0, 0, 0, 0, 0,
    ];
    put_shape(&mut out[5..], shape);
    out
}

/// The shape whose header this is, where the first byte is an open gate. None exactly where it is the header of none.
pub(crate) fn shape_of(head: &[u8]) -> Option<Shape>
    requires size { length head.now ≡ 17 }
    requires opens { slice_index head.now 0 ≡ 1 }
    ensures { MatchOption result ((shape : model.Shape) → FitsShape shape → head.now ≡ header shape → ⊥)
        (λ shape. FitsShape shape × (head.now ≡ header shape)) }
{
    if u32::from_be_bytes([head[1], head[2], head[3], head[4]]) != 0x4C47_4231 {
        return None;
    }
    match take_shape(&head[5..], WireFault::Short, WireFault::Short) {
        Ok(found) => Some(found.0),
        Err(_) => None,
    }
}
