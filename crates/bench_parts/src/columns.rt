//! The columns that the parts work on: those of four switches, 16 epochs and 4,096 indexes, each with a number.
ghost use Rattle.std.specs.Prelude.{◌≡◌, ◌+◌, ◌*◌, ◌/◌, ◌%◌, ◌^◌};

use lg_model::{Bucket, Dims, Key};
use sketchlet_wire::Column;

/// How many columns there are.
pub(crate) const COLUMNS: u32 = 262_144;

/// The size of their sketches.
pub(crate) const DIMS: Dims = Dims {
    rows: 8,
    width: 4096,
};

/// The order in which columns come.
#[derive(Clone, Copy, Debug, PartialEq, Eq)]
pub(crate) enum Order {
    /// Neighbours come after one another.
    Near,
    /// Each is far from the one before it.
    Scattered,
}

impl Order {
    /// The order of that name, `near` or `scattered`.
    pub(crate) fn named(word: &str) -> Option<Order> {
        if word == "near" {
            Some(Order::Near)
        } else if word == "scattered" {
            Some(Order::Scattered)
        } else {
            None
        }
    }

    /// The number of the column that comes nth.
    pub(crate) fn nth(self, n: u32) -> u32 {
        match self {
            Order::Near => n,
            Order::Scattered => scattered(n),
        }
    }
}

/// A sum that took in one number more.
pub(crate) fn mixed(sum: u64, n: u64) -> u64
    ensures { result ≡ (sum * 31 + n) % 2 ^ 64 }
{
    sum.wrapping_mul(31).wrapping_add(n)
}

/// Another number below 262,144 for each that is.
pub(crate) fn scattered(n: u32) -> u32 {
    let once = (n ^ (n / 512)).wrapping_mul(739_982_445) % COLUMNS;
    let twice = (once ^ (once / 512)).wrapping_mul(695_872_825) % COLUMNS;
    twice ^ (twice / 512)
}

/// The key of the column of a number.
pub(crate) fn key(n: u32) -> Key
    ensures switch { result.switch ≡ n / 65536 }
    ensures epoch { result.epoch ≡ n / 4096 % 16 }
    ensures index { result.index ≡ n % 4096 }
{
    Key {
        switch: (n / 65536) as u16,
        epoch: n / 4096 % 16,
        index: (n % 4096) as u16,
    }
}

/// The column of a number.
pub(crate) fn column(n: u32) -> Option<Column> {
    let bucket = Bucket {
        bytes: n.wrapping_mul(2_654_435_761),
        delay: (n % 65536) as u16,
    };
    Column::new(key(n), DIMS, [bucket; 8])
}
