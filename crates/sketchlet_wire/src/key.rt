//! The 8 bytes of a key.
ghost use Rattle.std.specs.Prelude.{◌≡◌, ◌≤◌, ◌++◌, length, drop};
ghost use Rattle.byte_fields.specs.Reading.{Gives};
ghost use Rattle.sketchlet_wire.specs.Spelling.{column_key_bytes};
ghost use Rattle.sketchlet_wire.specs.Reading.{key_at};

use byte_fields::{put_u16, put_u32, take_u16, take_u32};
use lg_model::Key;

/// Writes the 8 bytes of a key at the front of the bytes, of which there are as many: the switch in 2, the epoch in 4,
/// the index in 2. The others stay (docs/FORMATS.md, Sketchlet).
#[inline]
#[tactic(auto, unfolding(crate::specs::Spelling::column_key_bytes))]
pub fn put_key(out: &mut [u8], key: Key)
    requires { 8 ≤ length out.old }
    ensures { out.new ≡ column_key_bytes key ++ drop 8 out.old }
{
    put_u16(out, key.switch);
    put_u32(&mut out[2..], key.epoch);
    put_u16(&mut out[6..], key.index);
}

/// The key in the first 8 bytes, of any numbers, and the bytes after it. `missing` comes exactly where there are fewer.
#[inline]
#[tactic(auto, unfolding(crate::specs::Reading::key_at))]
pub fn take_key<E: Copy>(bytes: &[u8], missing: E) -> Result<(Key, &[u8]), E>
    ensures { Gives (λ x. (x.0, x.1.now)) result (key_at missing bytes.now) }
{
    let (switch, rest) = take_u16(bytes, missing)?;
    let (epoch, rest) = take_u32(rest, missing)?;
    let (index, rest) = take_u16(rest, missing)?;
    let key = Key {
        switch,
        epoch,
        index,
    };
    Ok((key, rest))
}
