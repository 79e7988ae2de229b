//! The picker that gives the answers of a list.
ghost use Rattle.std.specs.Prelude.{◌≡◌};
ghost use Rattle.column_pick.specs.Picks.{ScriptPicks};

use crate::picker::Picker;
use epoch_freeze::Twins;
use std::marker::Model;

/// Gives its answers in order, one an offer, and `Some(0)` when they are used up. An answer that is not allowed, which is
/// an index that is not below the width, or None at the last hop, is replaced by `Some(0)`. Contracts see the answers
/// that are left.
#[derive(Debug, Drop)]
pub struct Script {
    answers: Vec<Option<u16>>,
    at: usize,
}

impl Model for Script {
    ghost use Rattle.std.specs.Prelude.{ℕ, List, Option, drop, length, ◌≤◌};

    ghost Value = { List (Option ℕ) };

    ghost view = { λ s. drop s.at s.answers.items };

    ghost invariant = { λ s. s.at ≤ length s.answers.items };
}

impl Script {
    /// The picker of these answers, of which the first comes first.
    pub fn new(answers: Vec<Option<u16>>) -> Script
        ensures { result ≡ answers.items }
    {
        Script { answers, at: 0 }
    }
}

impl Picker for Script {
    ghost picks = { ScriptPicks };

    fn pick(&mut self, hops_left: u8, twins: &Twins) -> Option<u16> {
        let width = twins.width();
        let mut answer = Some(0);
        if self.at < self.answers.len() {
            answer = self.answers[self.at];
            self.at += 1;
        }
        match answer {
            None if hops_left > 1 => None,
            Some(index) if index < width => Some(index),
            _ => Some(0),
        }
    }
}
