//! A law over numbers and their bytes, on a function with an empty body.
ghost use Rattle.std.specs.Prelude.{◌^◌};
ghost use Rattle.std.specs.Int.{w16, w32, w64};
ghost use Rattle.byte_fields.specs.Law.{LawOfNumbers};

/// A number that was written is read back, whatever follows; what is read was written so; and a number of 2, 4 or 8
/// bytes has as many.
pub fn numbers_are_read_back<E: Copy>(missing: E)
    ensures two { LawOfNumbers missing w16 (2 ^ 16) }
    ensures four { LawOfNumbers missing w32 (2 ^ 32) }
    ensures eight { LawOfNumbers missing w64 (2 ^ 64) }
{}
