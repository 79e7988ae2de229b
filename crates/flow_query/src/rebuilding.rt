//! A sketch out of its columns (docs/DEFINITIONS.md, Rebuilt sketch).
ghost use Rattle.std.specs.Prelude.{◌≡◌, MatchResult};
ghost use Rattle.lg_model.specs.Answer.{look_in};
ghost use Rattle.column_book.specs.Entries.{content, known_of};
ghost use Rattle.flow_query.specs.Rebuilt.{IsRebuilt, IsWanting};

use column_book::Book;
use lg_model::Key;
use std::alloc::Global;
use sumax_sketch::Sketch;

/// Why a sketch isn't rebuilt.
#[derive(Clone, Copy, Debug, PartialEq, Eq)]
pub enum RebuildFault {
    /// Fewer columns than the width are in the book.
    Missing {
        /// How many are.
        known: u16,
    },
    /// No memory was found.
    Memory,
}

/// The sketch whose columns are those of a switch and an epoch in the book. `Missing` exactly where fewer columns than the
/// width are there.
pub fn rebuild(alloc: Global, book: &Book, switch: u16, epoch: u32) -> Result<Sketch, RebuildFault>
    ensures { MatchResult result
        (λ s. (known_of switch epoch book.now.entries ≡ book.now.shape.width)
        × IsRebuilt (look_in (content book.now.entries)) book.now.shape switch epoch s)
        (IsWanting (known_of switch epoch book.now.entries) book.now.shape.width) }
{
    if !book.whole(switch, epoch) {
        let known = book.known(switch, epoch);
        return Err(RebuildFault::Missing { known });
    }
    let shape = book.shape();
    let Ok(mut sketch) = Sketch::new(alloc, &shape) else {
        return Err(RebuildFault::Memory);
    };
    for index in 0..shape.width() {
        let key = Key {
            switch,
            epoch,
            index,
        };
        let Some(column) = book.find(&key) else {
            unreachable!()
        };
        sketch.set_column(index, column.filled());
    }
    Ok(sketch)
}
