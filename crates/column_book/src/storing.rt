//! Storing an upload.
ghost use Rattle.std.specs.Prelude.{◌≡◌, ◌+◌, ◌<◌, ◌≤◌, ◌++◌, ◌∷◌, [], OnOk, length};
ghost use Rattle.std.specs.Vec.{vec_capacity};
ghost use Rattle.lg_model.specs.Answer.{Content};
ghost use Rattle.column_book.specs.Entries.{records, content};
ghost use Rattle.column_book.specs.Applying.{stored_entry, after, IsAddable, IsReady};
ghost use Rattle.column_book.specs.Kept.{keys_of, HasRoom};

use crate::adding::{make_all, put_new, sweep};
use crate::book::Book;
use crate::head::{Head, Row};
use lg_base::Memory;
use lg_model::Key;
use sketchlet_wire::Upload;

// Makes room for one row more, and for that many keys.
fn make_room(
    keys: &mut Vec<Key>,
    rows: &mut Vec<Row>,
    ready: &mut Vec<Key>,
    count: usize,
) -> Result<(), Memory>
    ensures keys { (keys.new.items ≡ keys.old.items) × (vec_capacity keys.old ≤ vec_capacity keys.new) }
    ensures rows { (rows.new.items ≡ rows.old.items) × (vec_capacity rows.old ≤ vec_capacity rows.new) }
    ensures ready { ready.new.items ≡ ready.old.items }
    ensures room { OnOk result (HasRoom count (length keys.new.items) (vec_capacity keys.new)
        (length rows.new.items) (vec_capacity rows.new) (length ready.new.items) (vec_capacity ready.new)) }
{
    keys.reserve(count)?;
    rows.reserve(1)?;
    ready.reserve(count)?;
    Ok(())
}

impl Book {
    /// Makes the keys of an upload the ready list, and takes all memory that [`Book::add`] needs for it. At `Memory` all
    /// but the ready list is as before.
    pub fn reserve(&mut self, upload: &Upload) -> Result<(), Memory>
        ensures ready { OnOk result (self.new.ready ≡ keys_of upload.now.columns) }
        // So any of them that is new is on it.
        ensures listed { OnOk result ((m : Content) → IsReady self.new.ready m upload.now.columns) }
        ensures others { self.new ≡ record self.old { ready = self.new.ready } }
    {
        sweep(&mut self.blocks, &mut self.ready);
        let columns = upload.columns();
        make_room(
            &mut self.keys,
            &mut self.rows,
            &mut self.ready,
            columns.len(),
        )?;
        make_all(&mut self.blocks, &mut self.ready, columns)
    }

    /// Stores an upload for which a check gives a mask other than 0 and whose new keys are on the ready list: one entry
    /// more, with the new columns in their order. Its position. The ready list is empty then. Takes no memory.
    pub fn add(&mut self, pass: u32, upload: &Upload) -> u32
        requires fits { IsAddable self.old.shape self.old.room (records self.old.entries) upload.now }
        requires ready { IsReady self.old.ready (content self.old.entries) upload.now.columns }
        ensures added { self.new ≡ record self.old {
          ready = [];
          entries = self.old.entries ++ stored_entry pass self.old.entries upload.now ∷ [];
        } }
        ensures applied { self.new.entries ≡ after self.old.shape self.old.room self.old.entries pass upload.now }
        ensures at { result ≡ length self.old.entries }
    {
        let at = self.rows.len() as u32;
        let first = self.keys.len() as u32;
        let count = put_new(&mut self.blocks, &mut self.keys, upload.columns());
        let head = Head {
            pass,
            host: upload.host(),
            seq: upload.seq(),
            count,
        };
        self.rows.push_reserved(Row { head, first });
        self.ready.clear();
        at
    }
}
