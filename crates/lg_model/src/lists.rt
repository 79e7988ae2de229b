//! Short lists within the parts of a scenario, which contracts see as lists.
ghost use Rattle.std.specs.Prelude.{◌≡◌};

use crate::scenario::Letter;
use smallvec::SmallVec;
use std::marker::Model;

/// The letters of a link, in order.
#[derive(Debug, Drop)]
pub struct Letters {
    items: Vec<Letter>,
}

impl Model for Letters {
    ghost use Rattle.std.specs.Prelude.{List};
    ghost use Rattle.lg_model.specs.declared.scenario.Letter.{Letter};

    ghost Value = { List Letter };

    ghost view = { λ list. list.items.items };
}

impl Letters {
    /// The list of these items. Takes no memory.
    pub fn new(items: Vec<Letter>) -> Letters
        ensures { result ≡ items.items }
    {
        Letters { items }
    }

    /// The items, in order.
    pub fn items(&self) -> &[Letter]
        ensures { result.now ≡ self.now }
    {
        &self.items
    }
}

/// The positions of the switches of a path, in order.
#[derive(Debug, Drop)]
pub struct Path {
    items: Vec<u16>,
}

impl Model for Path {
    ghost use Rattle.std.specs.Prelude.{List, ℕ};

    ghost Value = { List ℕ };

    ghost view = { λ list. list.items.items };
}

impl Path {
    /// The list of these items. Takes no memory.
    pub fn new(items: Vec<u16>) -> Path
        ensures { result ≡ items.items }
    {
        Path { items }
    }

    /// The items, in order.
    pub fn items(&self) -> &[u16]
        ensures { result.now ≡ self.now }
    {
        &self.items
    }
}

/// The delays of a packet in microseconds, one a hop. Up to four lie in the value itself, more in a list of their own.
#[derive(Debug, Drop)]
pub struct Delays {
    items: SmallVec<u32, 4>,
}

impl Model for Delays {
    ghost use Rattle.std.specs.Prelude.{List, ℕ};

    ghost Value = { List ℕ };

    ghost view = { λ list. list.items.items };
}

impl Delays {
    /// The list of these items. Takes no memory.
    pub fn new(items: Vec<u32>) -> Delays
        ensures { result ≡ items.items }
    {
        Delays {
            items: SmallVec::from_vec(items),
        }
    }

    /// The list of these items, which stay where they are. Takes no memory.
    pub fn of_few(items: SmallVec<u32, 4>) -> Delays
        ensures { result ≡ items.items }
    {
        Delays { items }
    }

    /// The items, in order.
    pub fn items(&self) -> &[u32]
        ensures { result.now ≡ self.now }
    {
        self.items.as_slice()
    }
}
