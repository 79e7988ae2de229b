//! The words of a shape.
ghost use Rattle.text_out.specs.Growing.{Puts};
ghost use Rattle.text_out.specs.Words.{spaced, joined};
ghost use Rattle.text_out.specs.Shapes.{hash_words, shape_words};

use crate::growing::TextOut;
use crate::put::{put_field, put_number, put_text};
use lg_model::{Hash, Shape};

// ` ports`, or ` seed N`.
fn put_hash<T: TextOut>(out: &mut T, hash: Hash) -> Result<(), T::Fault>
    ensures { Puts result (T.kind out.old) (T.kind out.new) (spaced (hash_words hash)) }
{
    match hash {
        Hash::Ports => put_text(out, b" ports"),
        Hash::Seed(seed) => put_field(out, b" seed ", seed),
    }
}

/// Appends `R W ports` or `R W seed N`: the rows, the buckets of a row, and how places are found, with one space between
/// each two words. Where that fails, what stood before is kept, and a part of this may stand after it
/// (docs/FORMATS.md, Scenario text).
pub fn put_shape<T: TextOut>(out: &mut T, shape: &Shape) -> Result<(), T::Fault>
    ensures { Puts result (T.kind out.old) (T.kind out.new) (joined (shape_words shape.now)) }
{
    put_number(out, u64::from(shape.rows()))?;
    put_field(out, b" ", u64::from(shape.width()))?;
    put_hash(out, shape.hash())?;
    Ok(())
}
