//! What came to a host.
ghost use Rattle.std.specs.Prelude.{◌≡◌, ◌∷◌, ◌++◌, [], IfOk};

use lg_base::Memory;
use std::alloc::Global;
use std::marker::Model;

/// What came to a host, in order of arrival: packed columns, or the positions of columns that are kept elsewhere.
#[derive(Drop)]
pub struct Inbox<C: Copy> {
    items: Vec<C>,
}

impl<C: Copy> Model for Inbox<C> {
    ghost use Rattle.std.specs.Prelude.{List};

    ghost Value = { List C };

    ghost view = { λ i. i.items.items };
}

impl<C: Copy> Inbox<C> {
    /// An empty inbox, which takes no memory yet.
    pub fn new(alloc: Global) -> Inbox<C>
        ensures { result ≡ [] }
    {
        Inbox {
            items: Vec::new(alloc),
        }
    }

    /// Puts an item after the others. Memory where there is none for it; the inbox is then as before.
    pub fn push(&mut self, item: C) -> Result<(), Memory>
        ensures { IfOk result (λ _. self.new ≡ self.old ++ item ∷ []) }
    {
        self.items.push(item)?;
        Ok(())
    }

    /// The items, in order of arrival.
    pub fn items(&self) -> &[C]
        ensures { result.now ≡ self.now }
    {
        &self.items
    }
}

/// A cargo that waits for a release, and the position of its host.
#[derive(Clone, Copy, Debug)]
pub struct Held<C> {
    pub host_at: u16,
    pub cargo: C,
}
