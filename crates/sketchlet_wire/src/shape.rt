//! The 12 bytes of a shape of sketches.
ghost use Rattle.std.specs.Prelude.{◌≡◌, ◌≤◌, ◌++◌, ◌∷◌, length, drop, None, Some, if◌then◌else◌};
ghost use Rattle.std.specs.Int.{w64, to_be_bytes};
ghost use Rattle.byte_fields.specs.Reading.{Gives};
ghost use Rattle.sketchlet_wire.specs.ShapeFields.{are_bad_dims, hash_at, hash_bytes, shape_at, shape_bytes, shape_of_parts};

use byte_fields::{put_u8, put_u16, put_u64, take_u8, take_u16, take_u64};
use lg_model::{Hash, Shape};

// The kind of a hash and its seed.
fn kind_of(hash: Hash) -> (u8, u64)
    ensures { result.0 ∷ to_be_bytes w64 result.1 ≡ hash_bytes hash }
{
    match hash {
        Hash::Ports => (0, 0),
        Hash::Seed(seed) => (1, seed),
    }
}

/// Writes the 12 bytes of a shape at the front of the bytes, of which there are as many: the rows in 1, the width in 2,
/// the kind of the hash in 1 and its seed in 8. The others stay (docs/FORMATS.md, Shape).
#[tactic(auto, unfolding(crate::specs::Spelling::dims_bytes, crate::specs::ShapeFields::shape_bytes))]
pub fn put_shape(out: &mut [u8], shape: &Shape)
    requires { 12 ≤ length out.old }
    ensures bytes { out.new ≡ shape_bytes shape.now ++ drop 12 out.old }
{
    let (kind, seed) = kind_of(shape.hash());
    put_u8(out, shape.rows());
    put_u16(&mut out[1..], shape.width());
    put_u8(&mut out[3..], kind);
    put_u64(&mut out[4..], seed);
}

// The kind of a hash and its seed, and the bytes after them.
#[tactic(auto, unfolding(crate::specs::ShapeFields::hash_at))]
fn take_hash<E: Copy>(bytes: &[u8], missing: E, bad: E) -> Result<(Hash, &[u8]), E>
    ensures { Gives (λ x. (x.0, x.1.now)) result (hash_at missing bad bytes.now) }
{
    let (kind, rest) = take_u8(bytes, missing)?;
    let (seed, rest) = take_u64(rest, missing)?;
    if kind > 1 || kind == 0 && seed != 0 {
        return Err(bad);
    }
    let hash = if kind == 0 {
        Hash::Ports
    } else {
        Hash::Seed(seed)
    };
    Ok((hash, rest))
}

// The shape of these rows, this width and this hash, where they are in their ranges.
fn shape_in(rows: u8, width: u16, hash: Hash) -> Option<Shape>
    ensures { result ≡ (if are_bad_dims rows width then None else Some (shape_of_parts rows width hash)) }
{
    Shape::new(rows, width, hash)
}

/// The shape in the first 12 bytes, and the bytes after it. `missing` comes exactly where there are fewer, and `bad`
/// where they are the bytes of no shape: rows outside 1 to 8, a width outside 1 to 4096, a kind of hash above 1, or a
/// seed other than 0 with the kind 0.
#[tactic(auto, unfolding(crate::specs::ShapeFields::shape_at))]
pub fn take_shape<E: Copy>(bytes: &[u8], missing: E, bad: E) -> Result<(Shape, &[u8]), E>
    ensures { Gives (λ x. (x.0, x.1.now)) result (shape_at missing bad bytes.now) }
{
    let (rows, rest) = take_u8(bytes, missing)?;
    let (width, rest) = take_u16(rest, missing)?;
    let (hash, rest) = take_hash(rest, missing, bad)?;
    match shape_in(rows, width, hash) {
        Some(shape) => Ok((shape, rest)),
        None => Err(bad),
    }
}
