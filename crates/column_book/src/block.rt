//! A block: the columns of 16 neighbouring indexes of one switch and epoch.
ghost use Rattle.std.specs.Prelude.{◌≡◌, ◌<◌, ◌≤◌, ◌==◌, ◌&&◌, ℕ, None, Some, IfSome, IfNone, is_some, is_none, option_copied, true, if◌then◌else◌};
ghost use Rattle.column_book.specs.Blocks.{spot, kept_in};

use lg_model::{Bucket, Key};

/// Where a block stands. Spots are ordered by switch, then by epoch, then by number, as keys are.
#[derive(Clone, Copy, Debug, PartialEq, Eq, PartialOrd, Ord)]
pub(crate) struct Spot {
    pub(crate) switch: u16,
    pub(crate) epoch: u32,
    // The number of the block: its indexes are `16 * nth` to `16 * nth + 15`.
    pub(crate) nth: u16,
}

/// The block of a key.
pub(crate) fn spot_of(key: &Key) -> Spot
    ensures { result ≡ spot key.now }
{
    Spot {
        switch: key.switch,
        epoch: key.epoch,
        nth: key.index / 16,
    }
}

/// Up to 16 columns, each with eight buckets.
#[derive(Debug, Drop)]
pub(crate) struct Block {
    // Bit j is set where column j is there.
    pub(crate) mask: u16,
    pub(crate) columns: [[Bucket; 8]; 16],
}

impl Block {
    /// The block of no column.
    pub(crate) fn empty() -> Block
        ensures { (j : ℕ) → kept_in result j ≡ None }
    {
        Block {
            mask: 0,
            columns: [[Bucket { bytes: 0, delay: 0 }; 8]; 16],
        }
    }

    /// Whether no column is there.
    pub(crate) fn is_empty(&self) -> bool
        ensures { result ≡ (self.now.mask == 0) }
    {
        self.mask == 0
    }

    /// The column at a place below 16, if it is there.
    #[tactic(auto, using(std::proofs::lemmas::Nat::Bits::shr_and_one))]
    pub(crate) fn get(&self, place: u16) -> Option<&[Bucket; 8]>
        requires { place < 16 }
        ensures { option_copied result ≡ kept_in self.now place }
    {
        if (self.mask >> place) & 1 == 1 {
            Some(&self.columns[place as usize])
        } else {
            None
        }
    }

    /// Whether no column is at a place below 16.
    pub(crate) fn lacks(&self, place: u16) -> bool
        requires { place < 16 }
        ensures { result ≡ is_none (kept_in self.now place) }
    {
        self.get(place).is_none()
    }

    /// Puts a column at a place below 16, where there is none. Whether there was none.
    pub(crate) fn put(&mut self, place: u16, buckets: &[Bucket; 8]) -> bool
        requires { place < 16 }
        ensures told { result ≡ is_none (kept_in self.old place) }
        ensures put { (j : ℕ) → kept_in self.new j ≡ (if result && place == j then Some buckets.now else kept_in self.old j) }
    {
        let free = self.lacks(place);
        if free {
            self.mask |= 1 << place;
            self.columns[place as usize] = *buckets;
        }
        free
    }

    /// The first place from `from` on, at most 16, at which a column is there.
    #[tactic(auto, using(std::proofs::lemmas::Nat::Bits::shr_and_one))]
    pub(crate) fn first_from(&self, from: u16) -> Option<u16>
        ensures some { IfSome result (λ j. (from ≤ j) × (j < 16) × (is_some (kept_in self.now j) ≡ true)
            × ((i : ℕ) → from ≤ i → i < j → kept_in self.now i ≡ None)) }
        ensures none { IfNone result ((i : ℕ) → from ≤ i → i < 16 → kept_in self.now i ≡ None) }
    {
        for place in from..16 {
            if (self.mask >> place) & 1 == 1 {
                return Some(place);
            }
        }
        None
    }
}
