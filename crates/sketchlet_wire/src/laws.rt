//! Laws over the spellings alone, each on a function with an empty body, and worked bytes.
ghost use Rattle.sketchlet_wire.specs.Law.{LawOfSpellings, LawOfKeys, LawOfCells, LawOfShapes};
ghost use Rattle.sketchlet_wire.specs.Worked.{WorkedBytes};

/// No spelling is a proper prefix of another, and each is of one column (docs/FORMATS.md, Sketchlet).
pub fn spellings_are_apart()
    ensures { LawOfSpellings }
{}

/// Keys, cells and shapes that were written are read back, whatever follows them, and what is read was written so.
pub fn fields_are_read_back<E: Copy>(missing: E, bad: E)
    ensures keys { LawOfKeys missing }
    ensures cells { LawOfCells missing }
    ensures shapes { LawOfShapes missing bad }
{}

/// The spelling of a known column and the faults of bytes that are close to it, worked out by computation.
pub fn worked_bytes()
    ensures { WorkedBytes }
{}
