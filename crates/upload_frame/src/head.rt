//! The length and the kind at the front of a stream.
ghost use Rattle.std.specs.Prelude.{◌≡◌, ◌≤◌, ◌+◌, length, slice_range, Some, None, IfOk, IfSome};
ghost use Rattle.std.specs.Option.{option_map};
ghost use Rattle.byte_fields.specs.Reading.{Gives};
ghost use Rattle.upload_frame.specs.Front.{head_at, head_of_parts};
ghost use Rattle.upload_frame.specs.Sides.{lens_of};

use crate::fault::FrameFault;
use lg_model::limits::MOST_FRAME_BYTES;

/// Who sends the frames of a stream.
#[derive(Clone, Copy, Debug, PartialEq, Eq)]
pub(crate) enum Side {
    /// Hosts: hello, upload and bye.
    Host,
    /// The analyser: replies.
    Analyser,
}

// The least and the most length of a kind. None exactly where the kind is not admitted.
fn lengths_of(side: Side, kind: u8) -> Option<(u16, u16)>
    ensures { result ≡ lens_of side kind }
{
    match side {
        Side::Host => match kind {
            1 => Some((15, 15)),
            2 => Some((28, MOST_FRAME_BYTES as u16)),
            3 => Some((3, 3)),
            _ => None,
        },
        Side::Analyser => match kind {
            0x81 => Some((3, 3)),
            0x82 => Some((8, 8)),
            0x83 => Some((16, 16)),
            0x84 => Some((3, 3)),
            _ => None,
        },
    }
}

/// The kind and the length field of a whole frame at the front. None where it is not whole yet; else the first of the
/// checks of length and kind that fails, in the order of docs/FORMATS.md, Frames.
#[tactic(auto, unfolding(crate::specs::Front::head_at))]
pub(crate) fn head_of(side: Side, bytes: &[u8]) -> Result<Option<(u8, u16)>, FrameFault>
    ensures gives { Gives (λ o. option_map (λ x. head_of_parts x.0 x.1 (slice_range bytes.now 3 (x.1 + 2))) o) result
        (head_at (lens_of side) bytes.now) }
    ensures inside { IfOk result (λ o. IfSome o (λ x. (1 ≤ x.1) × (x.1 + 2 ≤ length bytes.now))) }
{
    if bytes.len() < 2 {
        return Ok(None);
    }
    let length = u16::from_be_bytes([bytes[0], bytes[1]]);
    if length == 0 || usize::from(length) > MOST_FRAME_BYTES {
        return Err(FrameFault::Length { length });
    }
    if bytes.len() < 3 {
        return Ok(None);
    }
    let kind = bytes[2];
    let Some((least, most)) = lengths_of(side, kind) else {
        return Err(FrameFault::Kind { kind });
    };
    if !(least <= length && length <= most) {
        return Err(FrameFault::Length { length });
    }
    if bytes.len() < usize::from(length) + 2 {
        return Ok(None);
    }
    Ok(Some((kind, length)))
}
