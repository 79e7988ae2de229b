//! The lines of a capture.
ghost use Rattle.std.specs.Prelude.{◌≡◌, ◌≤◌, IfOk};
ghost use Rattle.hex.specs.Hex.{encode_lower};
ghost use Rattle.sketchlet_wire.specs.Packing.{packed_bytes};
ghost use Rattle.text_out.specs.Appending.{AppendsText};
ghost use Rattle.report_text.specs.Capture.{hex_line as line_of, sketchlets_line};

use hex::encode_to_slice;
use lg_base::Memory;
use sketchlet_wire::Packed;
use std::alloc::Global;
use text_out::{put_field, put_text};

// Two lower-case digits a byte. The length is at most 62.
fn put_digits(out: &mut Vec<u8>, packed: &Packed) -> Result<(), Memory>
    requires { packed.now.len ≤ 62 }
    ensures { AppendsText result out.old.items out.new.items (encode_lower (packed_bytes packed.now)) }
{
    let bytes = packed.spelled();
    let mut digits = [0; 124];
    let text = &mut digits[..2 * bytes.len()];
    // The text has two bytes for each byte, so this can't fail.
    let _ = encode_to_slice(bytes, text);
    put_text(out, text)
}

/// Appends `host H X`, X being the bytes that count in lower-case hexadecimal, and the byte 10. The length is at most 62.
/// At `Memory` what stood before is kept, and a part of the line may stand after it (docs/FORMATS.md, Output lines).
#[tactic(auto, using(text_out::proofs::Keeping::keeps_itself, text_out::proofs::Keeping::keeps_after), unfolding(crate::specs::Capture::hex_line))]
pub fn put_hex_line(out: &mut Vec<u8>, host: u16, packed: &Packed) -> Result<(), Memory>
    requires { packed.now.len ≤ 62 }
    ensures { AppendsText result out.old.items out.new.items (line_of host (packed_bytes packed.now)) }
{
    put_field(out, b"host ", u64::from(host))?;
    put_text(out, b" ")?;
    put_digits(out, packed)?;
    put_text(out, b"\n")
}

/// The line that [`put_hex_line`] appends, alone. The length is at most 62. `Memory` comes only where memory runs out.
pub fn hex_line(alloc: Global, host: u16, packed: &Packed) -> Result<Vec<u8>, Memory>
    requires { packed.now.len ≤ 62 }
    ensures { IfOk result (λ line. line.items ≡ line_of host (packed_bytes packed.now)) }
{
    let mut line = Vec::new(alloc);
    put_hex_line(&mut line, host, packed)?;
    Ok(line)
}

/// Appends `sketchlets N` and the byte 10. At `Memory` what stood before is kept, and a part of the line may stand after
/// it.
#[tactic(auto, using(text_out::proofs::Keeping::keeps_itself, text_out::proofs::Keeping::keeps_after), unfolding(crate::specs::Capture::sketchlets_line))]
pub fn put_sketchlets_line(out: &mut Vec<u8>, count: usize) -> Result<(), Memory>
    ensures { AppendsText result out.old.items out.new.items (sketchlets_line count) }
{
    put_field(out, b"sketchlets ", count as u64)?;
    put_text(out, b"\n")
}
