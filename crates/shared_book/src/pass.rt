//! A pass to a shared book.
ghost use Rattle.std.specs.Prelude.{◌≡◌, ◌+◌, length};
ghost use Rattle.lock_rule.specs.Views.{most_calls};

use atomic_table::Badge;
use lock_rule::View;
use std::marker::Model;

/// The right to apply uploads to a shared book, one after the other. Contracts see it as its book, its number, the list
/// that it has seen, its broken mark, the calls that it has begun and, for number 1, how many passes were made and the
/// list of those that were joined into it.
#[derive(Drop)]
pub struct Pass {
    pub(crate) badge: Badge<View>,
    pub(crate) number: u32,
    pub(crate) made: u32,
    pub(crate) joined: u32,
    pub(crate) left: u32,
}

impl Model for Pass {
    ghost use Rattle.shared_book.specs.Passes.{IsPass, PassState, head_view};

    ghost Value = { PassState };

    ghost view = { λ p. record { book = p.badge.table_id; view = head_view p.badge.views } };

    ghost invariant = { λ p. IsPass p.badge.views p.number p.made p.joined p.left };
}

impl Pass {
    /// Its number: 1 for the first pass, and one more for each that is split off.
    pub fn number(&self) -> u32
        ensures { result ≡ self.now.view.number }
    {
        self.number
    }

    /// Of the first pass: how many passes were made, with itself.
    pub fn made(&self) -> u32
        ensures { result ≡ self.now.view.made }
    {
        self.made
    }

    /// Of the first pass: how many passes were joined into it.
    pub fn joined(&self) -> u32
        ensures { result ≡ length self.now.view.joined }
    {
        self.joined
    }

    /// How many calls it may still begin, of 4,294,967,295.
    pub fn left(&self) -> u32
        ensures { result + self.now.view.begun ≡ most_calls }
    {
        self.left
    }
}
