//! A walk over a file that comes in pieces.
ghost use Rattle.std.specs.Prelude.{◌≡◌, ◌⊎◌, ◌↔◌, ◌+◌, ◌-◌, ◌<◌, ◌≤◌, ◌++◌, ◌≢◌, ℕ, List, [], length, IfOk, IsErr, IsTrue, true, false, Option, Result};
ghost use Rattle.std.specs.Option.{option_map};
ghost use Rattle.lg_model.specs.Placing as model;
ghost use Rattle.sketchlet_wire.specs.Uploads.{UploadData};
ghost use Rattle.column_book.specs.declared.book.TheConstants.{ROOM};
ghost use Rattle.book_file.specs.declared.found.Found.{Found};
ghost use Rattle.book_file.specs.declared.found.OpenFault.{OpenFault};
ghost use Rattle.book_file.specs.File.{Spells};
ghost use Rattle.book_file.specs.Found.{Finds, Suits, count_of};
ghost use Rattle.book_file.specs.Walk as walk;
ghost use Rattle.book_file.specs.Walk.{Fed, HasRead, MOST_KEPT, Stands, needed, is_ended, walk_of};

use crate::found::{Found, OpenFault};
use crate::stage::Stage;
use crate::steps::{Terms, given_up, step};
use column_book::ROOM;
use lg_base::Memory;
use lg_model::Shape;
use std::alloc::Global;
use std::marker::Model;
use std::mem;

/// A walk over the records of a file, which is fed to it in pieces (docs/FORMATS.md, The book file).
#[derive(Drop)]
pub struct Walk {
    alloc: Global,
    terms: Terms,
    fed: u64,
    // The bytes that the next step needs, as far as they were fed.
    rest: Vec<u8>,
    // The offset of the last gate.
    gate: u64,
    stage: Stage,
}

impl Model for Walk {
    ghost use Rattle.book_file.specs.Walk.{WalkState, IsWalk};

    ghost Value = { WalkState };

    ghost view = { λ w. record {
      asked = w.terms.asked;
      room = w.terms.room;
      len = w.terms.len;
      fed = w.fed;
      rest = w.rest.items;
      gate = w.gate;
      stage = w.stage;
    } };

    ghost invariant = { λ w. IsWalk (record {
      asked = w.terms.asked;
      room = w.terms.room;
      len = w.terms.len;
      fed = w.fed;
      rest = w.rest.items;
      gate = w.gate;
      stage = w.stage;
    }) };
}

// How many bytes the next step needs, the kept ones included.
fn needed_by(stage: &Stage, rest: &[u8]) -> usize
    ensures { result ≡ needed stage.now rest.now }
{
    match stage {
        Stage::Head => 17,
        Stage::Gate(_) => 1,
        Stage::Lead(_) => 7,
        Stage::Body(book) => {
            let count = rest.get(6).copied().unwrap_or(0);
            7 + usize::from(count) * (8 + 6 * usize::from(book.shape().rows()))
        }
        Stage::Ended(_) => rest.len(),
    }
}

// What the file holds that ends within or before its header.
fn within_head(rest: &[u8]) -> Result<Found, OpenFault>
    requires { length rest.now < 17 }
    ensures finds { (asked : Option model.Shape) (room : ℕ) → Finds asked room rest.now result }
    ensures memory { result ≡ Err OpenFault.Memory → ⊥ }
{
    if rest.len() <= 1 {
        return Ok(Found::Blank);
    }
    if rest[0] == 1 {
        Err(OpenFault::NotAJournal)
    } else {
        Ok(Found::Blank)
    }
}

// What the file holds that ends where the walk goes on.
fn unfinished(stage: &Stage, fed: u64, gate: u64, rest: &[u8]) -> Result<Found, OpenFault>
    requires short { stage.now ≡ Stage.Head → length rest.now < 17 }
    ensures finds { (asked : Option model.Shape) (room len : ℕ) (read : List ℕ) →
        Stands asked room len gate stage.now rest.now read → length read ≡ fed → is_ended stage.now ≡ false →
        Finds asked room read result }
    ensures memory { is_ended stage.now ≡ false → result ≡ Err OpenFault.Memory → ⊥ }
{
    match stage {
        Stage::Head => within_head(rest),
        Stage::Gate(_) => Err(OpenFault::Damaged { at: fed }),
        _ => Err(OpenFault::Damaged { at: gate }),
    }
}

// What the file holds, where nothing more is fed.
fn ending(stage: Stage, fed: u64, gate: u64, rest: &[u8]) -> Result<Found, OpenFault>
    requires { stage ≡ Stage.Head → length rest.now < 17 }
    ensures ended { (answer : Result Found OpenFault) → stage ≡ Stage.Ended answer → result ≡ answer }
    ensures going { (asked : Option model.Shape) (room len : ℕ) (read : List ℕ) →
        Stands asked room len gate stage rest.now read → length read ≡ fed → is_ended stage ≡ false →
        Finds asked room read result }
    ensures memory { is_ended stage ≡ false → result ≡ Err OpenFault.Memory → ⊥ }
{
    match stage {
        Stage::Ended(answer) => answer,
        going => unfinished(&going, fed, gate, rest),
    }
}

impl Walk {
    /// A walk over a file of `len` bytes, for a book of this room, which is 1 to `ROOM`. Where a shape is asked for,
    /// the file has to have it.
    pub fn new(alloc: Global, asked: Option<&Shape>, room: u32, len: u64) -> Result<Walk, Memory>
        requires some { 1 ≤ room }
        requires few { room ≤ ROOM }
        ensures value { IfOk result (λ w. w ≡ walk_of (option_map (λ s. s.now) asked.entry) room len) }
        ensures read { IfOk result (λ w. HasRead w []) }
    {
        let rest = Vec::with_capacity(alloc, 903)?;
        let terms = Terms {
            asked: asked.copied(),
            room,
            len,
        };
        Ok(Walk {
            alloc,
            terms,
            fed: 0,
            rest,
            gate: 0,
            stage: Stage::Head,
        })
    }

    // How many bytes it takes in at once at most: those that the next step lacks.
    fn missing(&self) -> usize
        ensures value { result ≡ needed self.now.stage self.now.rest - length self.now.rest }
        ensures some { is_ended self.now.stage ≡ false → 0 < result }
    {
        needed_by(&self.stage, &self.rest) - self.rest.len()
    }

    // Takes in bytes, as many as are missing at most.
    fn take(&mut self, bytes: &[u8])
        requires few { is_ended self.old.stage ≡ false →
            length self.old.rest + length bytes.now ≤ needed self.old.stage self.old.rest }
        requires inside { self.old.fed + length bytes.now ≤ self.old.len }
        ensures { Fed self.old self.new bytes.now }
    {
        self.fed += bytes.len() as u64;
        if let Stage::Ended(_) = self.stage {
            return;
        }
        if self.rest.extend_from_slice(bytes).is_err() {
            self.stage = given_up();
            return;
        }
        if self.rest.len() < needed_by(&self.stage, &self.rest) {
            return;
        }
        let stage = mem::replace(&mut self.stage, given_up());
        self.stage = step(self.alloc, self.terms, self.gate, stage, &self.rest);
        match &self.stage {
            Stage::Body(_) => {}
            Stage::Gate(_) => {
                self.gate = self.fed;
                self.rest.clear();
            }
            _ => self.rest.clear(),
        }
    }

    /// Takes the next bytes of the file, all bytes fed being at most as many as the file has. At `Memory` the walk is
    /// given up: every later `feed` answers it again, and so does `finish`.
    pub fn feed(&mut self, piece: &[u8]) -> Result<(), Memory>
        requires { self.old.fed + length piece.now ≤ self.old.len }
        ensures fed { Fed self.old self.new piece.now }
        ensures memory { IsErr result ↔ (self.new.stage ≡ walk.given_up) }
    {
        let mut left = piece;
        while !left.is_empty() {
            let n = if self.ended() {
                left.len()
            } else {
                self.missing().min(left.len())
            };
            self.take(&left[..n]);
            left = &left[n..];
        }
        if self.is_given_up() {
            Err(Memory)
        } else {
            Ok(())
        }
    }

    // Whether it ran out of memory.
    fn is_given_up(&self) -> bool
        ensures { IsTrue result ↔ (self.now.stage ≡ walk.given_up) }
    {
        matches!(self.stage, Stage::Ended(Err(OpenFault::Memory)))
    }

    /// Whether the answer is known, whatever follows.
    pub fn ended(&self) -> bool
        ensures value { result ≡ is_ended self.now.stage }
        // It is known at the latest once the bytes spell a list that suits and that there is room for.
        ensures closed { (read : List ℕ) (shape : model.Shape) (rs : List UploadData) → HasRead self.now read →
            Suits self.now.asked shape → Spells shape rs read → count_of rs ≤ self.now.room → result ≡ true }
    {
        matches!(self.stage, Stage::Ended(_))
    }

    /// How many bytes are kept unread: those of an unfinished header, gate or body, 903 at most.
    pub fn held(&self) -> u32
        ensures value { result ≡ length self.now.rest }
        ensures few { result ≤ MOST_KEPT }
    {
        self.rest.len() as u32
    }

    /// What the file holds, where all its bytes were fed or the walk has ended. It is the one answer that is true of
    /// the file, however it was cut, or `Memory` exactly where a `feed` ran out of memory; never `DiskFault`. Takes no
    /// memory.
    pub fn finish(self) -> Result<Found, OpenFault>
        requires { (self.fed ≡ self.len) ⊎ (is_ended self.stage ≡ true) }
        ensures finds { (read more : List ℕ) → HasRead self read → length (read ++ more) ≡ self.len →
            Finds self.asked self.room (read ++ more) result }
        ensures memory { (result ≡ Err OpenFault.Memory) ↔ (self.stage ≡ walk.given_up) }
        // So it is, too, where the caller does not know which bytes were fed.
        ensures somewhere { (file : List ℕ) × Finds self.asked self.room file result }
        ensures no_disk { result ≢ Err OpenFault.DiskFault }
    {
        ending(self.stage, self.fed, self.gate, &self.rest)
    }
}
