//! Where passes sleep until their turns are near. Nothing is promised of a bell: a pass that wakes looks again.

use std::array::from_fn;
use std::marker::Model;
use std::sync::Wait;
use std::sync::atomic::AtomicU64;
use std::sync::atomic::Ordering::SeqCst;

// Bells, so many that of 64 passes no two share one.
const BELLS: usize = 64;

// A pass whose turn is at most that many turns away stays awake for a while.
const NEAR: u64 = 1;

// The marks of a bell at which a pass may sleep: until its turn, and until it is near.
const LATE: u32 = 1;

const EARLY: u32 = 2;

/// A bell for each remainder of a ticket by 64: the mark of the pass that may sleep at it, or 0.
#[derive(Drop)]
pub(crate) struct Bells {
    bells: [AtomicU64; BELLS],
}

impl Bells {
    /// All silent, and nobody at them.
    pub(crate) fn new() -> Bells {
        Bells {
            bells: from_fn(|_| AtomicU64::new(0)),
        }
    }

    fn of(&self, ticket: u64) -> &AtomicU64 {
        &self.bells[(ticket % BELLS as u64) as usize]
    }

    /// Whether the turn of a ticket is near, where another is serving.
    pub(crate) fn is_near(ticket: u64, serving: u64) -> bool {
        ticket.wrapping_sub(serving) <= NEAR
    }

    /// Tells that a pass with this ticket is going to sleep, until its turn comes or, as it wants, is near; and answers the
    /// mark that it leaves. Its next look comes after this, and it sleeps only where that look shows no change: so a turn
    /// that is passed on in between is not missed.
    pub(crate) fn lie_down(&self, ticket: u64, early: bool) -> u32 {
        let mark = if early { EARLY } else { LATE };
        self.of(ticket).store(u64::from(mark), SeqCst);
        mark
    }

    /// Sleeps until the bell of the ticket rings, unless it rang since the pass lay down with that mark. It may wake for no
    /// reason.
    pub(crate) fn sleep<R: Wait>(&self, rt: &R, ticket: u64, mark: u32) {
        self.of(ticket).park(rt, mark);
    }

    // Wakes who sleeps at the bell of the ticket, with that mark or a greater one.
    fn ring(&self, ticket: u64, least: u32) {
        let bell = self.of(ticket);
        if bell.load(SeqCst) >= u64::from(least) && bell.swap(0, SeqCst) > 0 {
            bell.wake_all();
        }
    }

    /// Wakes the pass whose ticket is serving now, and the one whose turn is near from now on, where they sleep.
    pub(crate) fn ring_for(&self, serving: u64) {
        self.ring(serving, LATE);
        self.ring(serving.wrapping_add(NEAR), EARLY);
    }
}
