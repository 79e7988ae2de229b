//! Putting a number at the front of bytes that the caller has.
ghost use Rattle.std.specs.Prelude.{◌≡◌, ◌≤◌, ◌∷◌, ◌++◌, length, drop};
ghost use Rattle.std.specs.Int.{w16, w32, w64, to_be_bytes};

use byteorder::{BigEndian, ByteOrder};

/// Writes a number of 1 byte at the front of the bytes, of which there is one. The others stay.
#[inline]
pub fn put_u8(out: &mut [u8], number: u8)
    requires { 1 ≤ length out.old }
    ensures { out.new ≡ number ∷ drop 1 out.old }
{
    out[0] = number;
}

/// Writes a number of 2 bytes at the front of the bytes, of which there are as many. The others stay.
#[inline]
pub fn put_u16(out: &mut [u8], number: u16)
    requires { 2 ≤ length out.old }
    ensures { out.new ≡ to_be_bytes w16 number ++ drop 2 out.old }
{
    BigEndian::write_u16(out, number);
}

/// Writes a number of 4 bytes at the front of the bytes, of which there are as many. The others stay.
#[inline]
pub fn put_u32(out: &mut [u8], number: u32)
    requires { 4 ≤ length out.old }
    ensures { out.new ≡ to_be_bytes w32 number ++ drop 4 out.old }
{
    BigEndian::write_u32(out, number);
}

/// Writes a number of 8 bytes at the front of the bytes, of which there are as many. The others stay.
#[inline]
pub fn put_u64(out: &mut [u8], number: u64)
    requires { 8 ≤ length out.old }
    ensures { out.new ≡ to_be_bytes w64 number ++ drop 8 out.old }
{
    BigEndian::write_u64(out, number);
}
