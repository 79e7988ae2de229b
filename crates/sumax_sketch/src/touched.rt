//! What a sketch notes of the places that it counted at since it was all zeros.
ghost use Rattle.std.specs.Prelude.{◌≡◌, ◌≤◌, ℕ, List, true, false, length, map, replicate};
ghost use Rattle.lg_model.specs.Sketch.{zero_bucket};
ghost use Rattle.sumax_sketch.specs.Touched.{IsNoted, IsNotedToo, ArePlaces};

use crate::row::Row;
use crate::rows::{clear_places, clear_rows};
use row_hash::Places;
use std::alloc::{AllocError, Global};
use std::marker::Model;

/// The places of the packets since the sketch was all zeros, while there is room for them.
#[derive(Debug, Drop)]
pub struct Touched {
    many: bool,
    count: usize,
    list: Vec<[u16; 8]>,
}

impl Model for Touched {
    ghost use Rattle.std.specs.Prelude.{◌≤◌};
    ghost use Rattle.sumax_sketch.specs.Touched.{Noted};

    ghost Value = { Noted };

    ghost view = { λ t. record { many = t.many; count = t.count; list = t.list.items } };

    ghost invariant = { λ t. t.count ≤ t.list.len };
}

impl Touched {
    /// Nothing noted, with room for one packet in 64 buckets of a row. An error where there is no memory.
    pub fn new(alloc: Global, width: u16) -> Result<Touched, AllocError> {
        let part = usize::from(width) / 64;
        let room = if part == 0 { 1 } else { part };
        Ok(Touched {
            many: false,
            count: 0,
            list: vec![in alloc; [0; 8]; room]?,
        })
    }

    /// Notes the places of a packet, one a row, of at most 8. Nothing is done where there was no room for some before.
    pub fn note_packet(&mut self, places: &Places, rows: usize)
        requires rows { length places.now ≡ rows }
        requires few { rows ≤ 8 }
        ensures { (at : List ℕ) × ArePlaces at places.now × IsNotedToo at self.old self.new }
    {
        if self.many {
            return;
        }
        self.note(row_places(places, rows));
    }

    // Notes these places. The same ones twice in a row are noted once.
    fn note(&mut self, at: [u16; 8])
        ensures { IsNotedToo at self.old self.new }
    {
        let next = self.count;
        if next > 0 && self.list[next - 1] == at {
            return;
        }
        if next < self.list.len() {
            self.list[next] = at;
            self.count = next + 1;
        } else {
            self.many = true;
        }
    }

    /// Notes that any bucket may have been touched.
    pub fn note_all(&mut self)
        ensures { self.new.many ≡ true }
    {
        self.many = true;
    }

    /// Makes all buckets zeros, by the noted places alone where all were noted. Then nothing is noted.
    pub fn clear(&mut self, rows: &mut [Row])
        requires few { length rows.old ≤ 8 }
        requires noted { IsNoted self.old rows.old }
        ensures { rows.new ≡ map (λ row. replicate (length row) zero_bucket) rows.old }
    {
        if self.many {
            clear_rows(rows);
        } else {
            self.clear_noted(rows);
        }
        self.many = false;
        self.count = 0;
    }

    // Makes the buckets at the noted places zeros.
    fn clear_noted(&self, rows: &mut [Row])
        requires few { length rows.old ≤ 8 }
        requires all { self.now.many ≡ false }
        requires noted { IsNoted self.now rows.old }
        ensures { rows.new ≡ map (λ row. replicate (length row) zero_bucket) rows.old }
    {
        for n in 0..self.count {
            let at = &self.list[n];
            clear_places(rows, at);
        }
    }
}

// The places of a packet, row 0 first, with zeros past the rows.
fn row_places(places: &Places, rows: usize) -> [u16; 8]
    requires rows { length places.now ≡ rows }
    requires few { rows ≤ 8 }
    ensures { ArePlaces result places.now }
{
    let mut at = [0; 8];
    for i in 0..rows {
        at[i] = places.row(i as u8);
    }
    at
}
