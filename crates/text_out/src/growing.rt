//! Texts that grow.
ghost use Rattle.text_out.specs.Growing.{Kind, Bytes, Left, PutsOrNot};

use lg_base::Memory;
use std::convert::Infallible;

/// A text that grows. Contracts see `kind`: its bytes, or the room that is left for them.
pub trait TextOut {
    /// Why a text cannot grow.
    type Fault;

    ghost kind: { Self → Kind };

    /// Appends bytes. Where that fails, none is appended.
    fn put(&mut self, text: &[u8]) -> Result<(), Self::Fault>
        ensures { PutsOrNot result (kind self.old) (kind self.new) text.now };
}

impl TextOut for Vec<u8> {
    type Fault = Memory;

    ghost kind = { λ v. Bytes v.items };

    fn put(&mut self, text: &[u8]) -> Result<(), Memory> {
        self.extend_from_slice(text)?;
        Ok(())
    }
}

/// A text of which only the length is looked at. It takes no memory and does not fail.
#[derive(Debug, Drop)]
pub struct Room {
    /// How many bytes more the text may have until it is too long: 0 where it is.
    pub left: usize,
}

impl TextOut for Room {
    type Fault = Infallible;

    ghost kind = { λ r. Left r.left };

    fn put(&mut self, text: &[u8]) -> Result<(), Infallible> {
        self.left = self.left.saturating_sub(text.len());
        Ok(())
    }
}
