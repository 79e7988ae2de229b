//! Taking a number off the front of some bytes.
ghost use Rattle.std.specs.Int.{w16, w32, w64};
ghost use Rattle.byte_fields.specs.Reading.{Gives, byte_at, number_at};

/// The first byte, and the bytes after it. `missing` comes exactly where there is no byte.
#[inline]
#[tactic(auto, unfolding(crate::specs::Reading::byte_at))]
pub fn take_u8<E: Copy>(bytes: &[u8], missing: E) -> Result<(u8, &[u8]), E>
    ensures { Gives (λ x. (x.0, x.1.now)) result (byte_at missing bytes.now) }
{
    match bytes {
        [] => Err(missing),
        [first, rest @ ..] => Ok((*first, rest)),
    }
}

/// The number in the first 2 bytes, and the bytes after them. `missing` comes exactly where there are fewer.
#[inline]
#[tactic(auto, unfolding(crate::specs::Reading::number_at))]
pub fn take_u16<E: Copy>(bytes: &[u8], missing: E) -> Result<(u16, &[u8]), E>
    ensures { Gives (λ x. (x.0, x.1.now)) result (number_at missing w16 bytes.now) }
{
    match bytes.split_first_chunk::<2>() {
        None => Err(missing),
        Some((number, rest)) => Ok((u16::from_be_bytes(*number), rest)),
    }
}

/// The number in the first 4 bytes, and the bytes after them. `missing` comes exactly where there are fewer.
#[inline]
#[tactic(auto, unfolding(crate::specs::Reading::number_at))]
pub fn take_u32<E: Copy>(bytes: &[u8], missing: E) -> Result<(u32, &[u8]), E>
    ensures { Gives (λ x. (x.0, x.1.now)) result (number_at missing w32 bytes.now) }
{
    match bytes.split_first_chunk::<4>() {
        None => Err(missing),
        Some((number, rest)) => Ok((u32::from_be_bytes(*number), rest)),
    }
}

/// The number in the first 8 bytes, and the bytes after them. `missing` comes exactly where there are fewer.
#[inline]
#[tactic(auto, unfolding(crate::specs::Reading::number_at))]
pub fn take_u64<E: Copy>(bytes: &[u8], missing: E) -> Result<(u64, &[u8]), E>
    ensures { Gives (λ x. (x.0, x.1.now)) result (number_at missing w64 bytes.now) }
{
    match bytes.split_first_chunk::<8>() {
        None => Err(missing),
        Some((number, rest)) => Ok((u64::from_be_bytes(*number), rest)),
    }
}
