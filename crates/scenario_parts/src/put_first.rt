//! The first three lines, added to a text.
ghost use Rattle.std.specs.Prelude.{◌≡◌, ◌++◌, OnOk};
ghost use Rattle.text_out.specs.Growing.{Prints};
ghost use Rattle.text_out.specs.Words.{joined};
ghost use Rattle.text_out.specs.Shapes.{shape_words};
ghost use Rattle.scenario_lines.specs.Spelling.{line_text, pick_words, shape_line_words, pick_line_words, guardian_words};

use crate::put::{put_bytes, put_next};
use lg_model::Pick;
use row_hash::Shape;
use text_out::TextOut;

pub(crate) fn put_guardian<T: TextOut>(out: &mut T) -> Result<(), T::Fault>
    ensures { Prints result (T.kind out.old) (T.kind out.new) (line_text guardian_words) }
{
    put_bytes(out, b"guardian 1\n")
}

fn put_shape_words<T: TextOut>(out: &mut T, shape: &Shape) -> Result<(), T::Fault>
    ensures { Prints result (T.kind out.old) (T.kind out.new) (joined (shape_words shape.now)) }
{
    text_out::put_shape(out, shape)
}

pub(crate) fn put_shape<T: TextOut>(out: &mut T, shape: &Shape) -> Result<(), T::Fault>
    ensures { Prints result (T.kind out.old) (T.kind out.new) (line_text (shape_line_words shape.now)) }
{
    put_bytes(out, b"shape ")?;
    put_shape_words(out, shape)?;
    put_bytes(out, b"\n")
}

fn put_pick_words<T: TextOut>(out: &mut T, pick: &Pick) -> Result<(), T::Fault>
    ensures { Prints result (T.kind out.old) (T.kind out.new) (joined (pick_line_words pick.now)) }
{
    match *pick {
        Pick::Turns => put_bytes(out, b"pick turns"),
        Pick::Chance(seed) => {
            put_bytes(out, b"pick chance")?;
            put_next(out, seed)
        }
    }
}

pub(crate) fn put_pick<T: TextOut>(out: &mut T, pick: &Pick) -> Result<(), T::Fault>
    ensures { Prints result (T.kind out.old) (T.kind out.new) (line_text (pick_line_words pick.now)) }
{
    put_pick_words(out, pick)?;
    put_bytes(out, b"\n")
}
