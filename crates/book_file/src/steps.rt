//! The steps of a walk.
ghost use Rattle.std.specs.Prelude.{◌≡◌, ◌+◌, ◌^◌, ◌≤◌, ◌++◌, ◌∷◌, ℕ, List, [], length, true, slice_index, Option};
ghost use Rattle.std.specs.Bool.{MatchBool};
ghost use Rattle.std.specs.List.{AllByRecursion};
ghost use Rattle.lg_model.specs.Placing as model;
ghost use Rattle.lg_model.specs.Columns as columns;
ghost use Rattle.sketchlet_wire.specs.ShapeFields.{FitsShape};
ghost use Rattle.sketchlet_wire.specs.Uploads.{IsFull};
ghost use Rattle.column_book.specs.declared.book.TheConstants.{ROOM};
ghost use Rattle.column_book.specs.Entries.{BookState, content, records};
ghost use Rattle.column_book.specs.Applying.{is_new};
ghost use Rattle.book_file.specs.File.{IsRecord, body, body_len, front, header};
ghost use Rattle.book_file.specs.Found.{count_of};
ghost use Rattle.book_file.specs.Walk.{IsGoing, HasCount, Waits, Steps, needed};

use crate::found::{Found, OpenFault};
use crate::header::{dims_of, shape_of};
use crate::reading::record_of;
use crate::stage::Stage;
use column_book::{Book, BookFault};
use lg_model::Shape;
use sketchlet_wire::Upload;
use std::alloc::Global;

fn damaged(at: u64) -> Stage
    ensures { result ≡ Stage.Ended (Err (OpenFault.Damaged at)) }
{
    Stage::Ended(Err(OpenFault::Damaged { at }))
}

pub(crate) fn given_up() -> Stage
    ensures { result ≡ Stage.Ended (Err OpenFault.Memory) }
{
    Stage::Ended(Err(OpenFault::Memory))
}

fn is_same(a: &Shape, b: &Shape) -> bool
    ensures { MatchBool result (a.now ≡ b.now) (a.now ≡ b.now → ⊥) }
{
    a == b
}

// An empty book of the shape of the header, if that is the one that is asked for.
fn begun(alloc: Global, asked: Option<Shape>, room: u32, kept: Shape) -> Stage
    requires { (1 ≤ room) × (room ≤ ROOM) }
    ensures { (len gate : ℕ) (read : List ℕ) → FitsShape kept → read ≡ header kept
        → Steps asked room len gate result read read }
{
    if let Some(asked) = asked {
        if !is_same(&asked, &kept) {
            return Stage::Ended(Err(OpenFault::WrongShape { kept, asked }));
        }
    }
    match Book::new(alloc, &kept, room) {
        Ok(book) => Stage::Gate(book),
        Err(_) => given_up(),
    }
}

// After the bytes of a header.
fn after_head(alloc: Global, asked: Option<Shape>, room: u32, len: u64, head: &[u8]) -> Stage
    requires room { (1 ≤ room) × (room ≤ ROOM) }
    requires head { length head.now ≡ 17 }
    requires inside { 17 ≤ len }
    ensures { (gate : ℕ) → Steps asked room len gate result head.now head.now }
{
    if head[0] != 1 {
        if len <= 18 {
            return Stage::Ended(Ok(Found::Blank));
        }
        return Stage::Ended(Err(OpenFault::NotAJournal));
    }
    match shape_of(head) {
        Some(kept) => begun(alloc, asked, room, kept),
        None => Stage::Ended(Err(OpenFault::NotAJournal)),
    }
}

// After a gate.
fn after_gate(book: Book, gate: u8, at: u64) -> Stage
    ensures { (asked : Option model.Shape) (room len : ℕ) → IsGoing asked room at book
        → Steps asked room len at result (gate ∷ []) (front book.shape (records book.entries) ++ gate ∷ []) }
{
    if gate == 1 {
        Stage::Lead(book)
    } else {
        Stage::Ended(Ok(Found::Book { book, end: at }))
    }
}

// Whether a body may have that many columns.
fn is_count(count: u8) -> bool
    ensures { MatchBool result ((1 ≤ count) × (count ≤ 16)) ((1 ≤ count) × (count ≤ 16) → ⊥) }
{
    count >= 1 && count <= 16
}

// After the first 7 bytes of a body.
fn after_lead(book: Book, lead: &[u8], at: u64) -> Stage
    requires { length lead.now ≡ 7 }
    ensures { (asked : Option model.Shape) (room len : ℕ) → IsGoing asked room at book
        → Steps asked room len at result lead.now (front book.shape (records book.entries) ++ 1 ∷ lead.now) }
{
    if is_count(lead[6]) {
        Stage::Body(book)
    } else {
        damaged(at)
    }
}

// Whether the lowest bits of a mask are set, that many of at most 16.
fn is_all(mask: u16, count: usize) -> bool
    requires { count ≤ 16 }
    ensures { MatchBool result (mask + 1 ≡ 2 ^ count) (mask + 1 ≡ 2 ^ count → ⊥) }
{
    u32::from(mask) + 1 == 1 << count
}

// After a record all of whose columns are new, and for which there is room.
fn with_record(mut book: Book, upload: &Upload) -> Stage
    requires full { IsFull upload.now }
    requires record { IsRecord (columns.dims_of book.shape) upload.now }
    requires new { AllByRecursion (λ c. is_new (content book.entries) c ≡ true) upload.now.columns }
    requires room { count_of (records book.entries) + length upload.now.columns ≤ book.room }
    ensures { (asked : Option model.Shape) (room len at : ℕ) (rest : List ℕ) → IsGoing asked room at book
        → Steps asked room len at result rest (front book.shape (records book.entries) ++ 1 ∷ body upload.now) }
{
    match book.reserve(upload) {
        Ok(()) => {
            book.add(0, upload);
            Stage::Gate(book)
        }
        Err(_) => given_up(),
    }
}

// The fault of a record with that many columns, which a book refuses. It has no room for it where all of them are new;
// else a key of theirs is in the book, which comes first.
fn refused(fault: BookFault, count: usize, at: u64) -> OpenFault
    ensures full { (held : ℕ) → fault ≡ BookFault.Full held count → result ≡ OpenFault.Full held count }
    ensures other { ((held : ℕ) → fault ≡ BookFault.Full held count → ⊥) → result ≡ OpenFault.Damaged at }
{
    if let BookFault::Full { held, more } = fault {
        if more as usize == count {
            return OpenFault::Full { held, more };
        }
    }
    OpenFault::Damaged { at }
}

// After a body that is well formed by itself.
fn after_record(book: Book, upload: &Upload, at: u64) -> Stage
    requires full { IsFull upload.now }
    requires record { IsRecord (columns.dims_of book.shape) upload.now }
    ensures { (asked : Option model.Shape) (room len : ℕ) (rest : List ℕ) → IsGoing asked room at book
        → Steps asked room len at result rest (front book.shape (records book.entries) ++ 1 ∷ body upload.now) }
{
    let count = upload.columns().len();
    match book.check(upload) {
        Ok(mask) => {
            if is_all(mask, count) {
                with_record(book, upload)
            } else {
                damaged(at)
            }
        }
        Err(fault) => Stage::Ended(Err(refused(fault, count, at))),
    }
}

// After a whole body.
fn after_body(alloc: Global, book: Book, bytes: &[u8], at: u64) -> Stage
    requires count { HasCount bytes.now }
    requires size { length bytes.now ≡ body_len book.shape.rows (slice_index bytes.now 6) }
    ensures { (asked : Option model.Shape) (room len : ℕ) → IsGoing asked room at book
        → Steps asked room len at result bytes.now (front book.shape (records book.entries) ++ 1 ∷ bytes.now) }
{
    match record_of(alloc, dims_of(&book.shape()), bytes) {
        Ok(Some(upload)) => after_record(book, &upload, at),
        Ok(None) => damaged(at),
        Err(_) => given_up(),
    }
}

/// What is asked of a file: its shape, the room, its length in bytes.
#[derive(Clone, Copy)]
pub(crate) struct Terms {
    pub(crate) asked: Option<Shape>,
    pub(crate) room: u32,
    pub(crate) len: u64,
}

/// The step of a walk for which nothing is lacking.
pub(crate) fn step(alloc: Global, terms: Terms, gate: u64, stage: Stage, rest: &[u8]) -> Stage
    requires room { (1 ≤ terms.room) × (terms.room ≤ ROOM) }
    requires lead { (b : BookState) → stage ≡ Stage.Body b → HasCount rest.now }
    requires whole { length rest.now ≡ needed stage rest.now }
    requires inside { length rest.now ≤ terms.len }
    ensures { (read : List ℕ) → Waits terms.asked terms.room terms.len gate stage rest.now read
        → Steps terms.asked terms.room terms.len gate result rest.now read }
{
    match stage {
        Stage::Head => after_head(alloc, terms.asked, terms.room, terms.len, rest),
        Stage::Gate(book) => after_gate(book, rest[0], gate),
        Stage::Lead(book) => after_lead(book, rest, gate),
        Stage::Body(book) => after_body(alloc, book, rest, gate),
        Stage::Ended(answer) => Stage::Ended(answer),
    }
}
