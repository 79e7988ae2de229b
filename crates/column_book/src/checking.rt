//! Whether a book takes an upload (docs/DEFINITIONS.md, Apply).
ghost use Rattle.std.specs.Prelude.{◌≡◌, ◌≤◌, All, None, length, map, true};
ghost use Rattle.std.specs.List.{AllByRecursion};
ghost use Rattle.lg_model.specs.Columns.{dims_of};
ghost use Rattle.sketchlet_wire.specs.Spelling.{IsColumn};
ghost use Rattle.column_book.specs.Entries.{records, content};
ghost use Rattle.column_book.specs.Applying.{is_new, new_columns, first_fault, mask_of, checked};
ghost use Rattle.column_book.specs.Applying.{misfit as misfit_of, conflict as conflict_of};

use crate::book::{Book, dims};
use crate::comparing::{Comparison, compare_all};
use crate::fault::BookFault;
use lg_model::Dims;
use sketchlet_wire::{Column, Upload};

// The fault of a column that is of a sketch of another size.
fn misfit(dims: Dims, column: &Column) -> Option<BookFault>
    ensures { result ≡ misfit_of dims column.now }
{
    let came = column.dims();
    if came == dims {
        None
    } else {
        Some(BookFault::WrongShape { kept: dims, came })
    }
}

fn first_misfit(dims: Dims, columns: &[Column]) -> Option<BookFault>
    ensures { result ≡ first_fault (misfit_of dims) columns.now }
{
    for column in columns {
        let fault = misfit(dims, column);
        if fault.is_some() {
            return fault;
        }
    }
    None
}

impl Book {
    // The fault of a column whose key is kept with other buckets.
    fn conflict(&self, column: &Column) -> Option<BookFault>
        requires { column.now.dims ≡ dims_of self.now.shape }
        ensures { result ≡ conflict_of (dims_of self.now.shape) (content self.now.entries) column.now }
    {
        let kept = self.find(&column.key())?;
        if kept.is_same(column) {
            None
        } else {
            Some(BookFault::Conflict {
                key: column.key(),
                kept,
                came: *column,
            })
        }
    }

    fn first_conflict(&self, columns: &[Column]) -> Option<BookFault>
        requires { All (λ c. c.dims ≡ dims_of self.now.shape) columns.now }
        ensures { result ≡ first_fault (conflict_of (dims_of self.now.shape) (content self.now.entries)) columns.now }
    {
        for column in columns {
            let fault = self.conflict(column);
            if fault.is_some() {
                return fault;
            }
        }
        None
    }

    // Which of at most 16 columns of the book's size are new, and whether none of the others is in conflict.
    fn compare(&self, columns: &[Column]) -> Comparison
        requires few { length columns.now ≤ 16 }
        requires each { AllByRecursion IsColumn columns.now }
        requires sized { All (λ c. c.dims ≡ dims_of self.now.shape) columns.now }
        ensures mask { result.mask ≡ mask_of (map (is_new (content self.now.entries)) columns.now) }
        ensures count { result.count ≡ length (new_columns (content self.now.entries) columns.now) }
        ensures few { result.count ≤ 16 }
        ensures same { result.same ≡ true →
            first_fault (conflict_of (dims_of self.now.shape) (content self.now.entries)) columns.now ≡ None }
    {
        compare_all(&self.blocks, columns)
    }

    // The first conflict of columns that were compared. They are gone over again only where one differs.
    fn conflict_in(&self, found: &Comparison, columns: &[Column]) -> Option<BookFault>
        requires sized { All (λ c. c.dims ≡ dims_of self.now.shape) columns.now }
        requires same { found.now.same ≡ true →
            first_fault (conflict_of (dims_of self.now.shape) (content self.now.entries)) columns.now ≡ None }
        ensures { result ≡ first_fault (conflict_of (dims_of self.now.shape) (content self.now.entries)) columns.now }
    {
        if found.same {
            None
        } else {
            self.first_conflict(columns)
        }
    }

    /// Whether the book takes an upload: which of its columns are new, or the first fault. `WrongShape` comes before
    /// `Conflict`, and both before `Full`. Takes no memory.
    pub fn check(&self, upload: &Upload) -> Result<u16, BookFault>
        ensures { result ≡ checked self.now.shape self.now.room (records self.now.entries) upload.now }
    {
        let columns = upload.columns();
        if let Some(fault) = first_misfit(dims(&self.shape()), columns) {
            return Err(fault);
        }
        let found = self.compare(columns);
        if let Some(fault) = self.conflict_in(&found, columns) {
            return Err(fault);
        }
        let room = self.room();
        let held = self.count();
        let more = found.count;
        if held + more > room {
            return Err(BookFault::Full { held, more });
        }
        Ok(found.mask)
    }
}
