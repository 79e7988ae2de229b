//! What lines are written with.
ghost use Rattle.std.specs.Fmt.{decimal};
ghost use Rattle.text_out.specs.Growing.{Puts, PutsOrNot};
ghost use Rattle.text_out.specs.Words.{field};

use crate::growing::TextOut;
use itoa::Buffer;

/// Appends bytes. Where that fails, none is appended.
pub fn put_text<T: TextOut>(out: &mut T, text: &[u8]) -> Result<(), T::Fault>
    ensures { PutsOrNot result (T.kind out.old) (T.kind out.new) text.now }
{
    out.put(text)
}

/// Appends a number in decimal, with no leading zeros. Where that fails, nothing is appended.
pub fn put_number<T: TextOut>(out: &mut T, n: u64) -> Result<(), T::Fault>
    ensures { PutsOrNot result (T.kind out.old) (T.kind out.new) (decimal n) }
{
    let mut digits = Buffer::new();
    put_text(out, digits.format(n).as_bytes())
}

/// Appends a word, with the spaces around it, and a number in decimal. Where that fails, what stood before is kept, and a
/// part of this may stand after it.
pub fn put_field<T: TextOut>(out: &mut T, word: &[u8], n: u64) -> Result<(), T::Fault>
    ensures { Puts result (T.kind out.old) (T.kind out.new) (field word.now n) }
{
    put_text(out, word)?;
    put_number(out, n)?;
    Ok(())
}
