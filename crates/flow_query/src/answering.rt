//! The answer for a flow (docs/DEFINITIONS.md, Answer).
ghost use Rattle.std.specs.Prelude.{◌≡◌, ◌<◌};
ghost use Rattle.std.specs.Option.{option_map};
ghost use Rattle.lg_model.specs.Answer.{look_in, answer as answer_by};
ghost use Rattle.lg_model.specs.Sketch.{bucket_in};
ghost use Rattle.column_book.specs.Entries.{content};

use crate::least::Known;
use column_book::Book;
use flow_key::FlowKey;
use lg_model::{Answer, Bucket, Key};
use row_hash::places;

// The bucket of a row in the column under that key, if it is kept.
fn bucket_of(book: &Book, key: &Key, row: u8) -> Option<Bucket>
    requires { row < book.now.shape.rows }
    ensures { result ≡ option_map (λ cells. bucket_in cells.buckets row) (look_in (content book.now.entries) key.now.switch key.now.epoch key.now.index) }
{
    let column = book.find(key)?;
    Some(column.bucket(row))
}

/// What the book tells of a flow at the switch of that name in that epoch: the known rows are those whose column is in
/// the book, and each value is told of the least counter over the known rows. Takes no memory.
pub fn answer(book: &Book, switch: u16, epoch: u32, key: &FlowKey) -> Answer
    ensures { result ≡ answer_by (look_in (content book.now.entries)) book.now.shape switch epoch key.now }
{
    let shape = book.shape();
    let places = places(&shape, key);
    let mut known = Known::new();
    for row in 0..shape.rows() {
        let column = Key {
            switch,
            epoch,
            index: places.row(row),
        };
        if let Some(bucket) = bucket_of(book, &column, row) {
            known.add(bucket);
        }
    }
    known.answer()
}
