//! The states of all uploads of a host.
ghost use Rattle.std.specs.Prelude.{◌≡◌, ℕ, ◌<◌, ◌≤◌, ◌==◌, length, replicate, count_by, slice_set, MatchOption, IfOk, IfSome, true, false, not};
ghost use Rattle.std.specs.List.{position_or_len, list_all};
ghost use Rattle.uploader_core.specs.States.{state_at, next_of, sent, ticked, acknowledged, refused, is_idle, is_outstanding, is_acknowledged, outstanding};
ghost use Rattle.lg_model.specs.declared.limits.TheConstants.{MOST_OUTSTANDING};
ghost use Rattle.uploader_core.specs.declared.state.SeqState.TheVariants.{Idle};

use crate::state::SeqState;
use lg_model::limits::MOST_OUTSTANDING;
use std::alloc::{AllocError, Global};
use std::marker::Model;

/// The states of uploads, by their numbers. Contracts see the list of the states.
#[derive(Debug, Drop)]
pub(crate) struct States {
    items: Vec<SeqState>,
    // No upload below this number is idle, so that the search for the least idle one begins here.
    low: usize,
    outstanding: usize,
    acknowledged: usize,
}

impl Model for States {
    ghost use Rattle.std.specs.Prelude.{List};
    ghost use Rattle.uploader_core.specs.declared.state.SeqState.{SeqState};
    ghost use Rattle.uploader_core.specs.States.{IsTallied};

    ghost Value = { List SeqState };

    ghost view = { λ s. s.items.items };

    ghost invariant = { λ s. IsTallied s.items.items s.low s.outstanding s.acknowledged };
}

impl States {
    /// That many idle ones.
    pub(crate) fn new(alloc: Global, count: usize) -> Result<States, AllocError>
        ensures { IfOk result (λ s. s ≡ replicate count Idle) }
    {
        Ok(States {
            items: vec![in alloc; SeqState::Idle; count]?,
            low: 0,
            outstanding: 0,
            acknowledged: 0,
        })
    }

    /// How many uploads there are.
    pub(crate) fn len(&self) -> usize
        ensures { result ≡ length self.now }
    {
        self.items.len()
    }

    /// The state of an upload.
    pub(crate) fn get(&self, seq: usize) -> SeqState
        requires { seq < length self.now }
        ensures { result ≡ state_at self.now seq }
    {
        self.items[seq]
    }

    /// Makes the least idle upload outstanding. None where 8 are outstanding or none is idle; nothing changes then.
    pub(crate) fn next(&mut self) -> Option<usize>
        ensures which { result ≡ next_of self.old }
        ensures states { MatchOption result (self.new ≡ self.old) (λ seq. self.new ≡ sent self.old seq) }
        ensures window { outstanding self.new ≤ MOST_OUTSTANDING }
        ensures within { IfSome result (λ seq. seq < length self.old) }
    {
        if self.outstanding >= MOST_OUTSTANDING {
            return None;
        }
        self.low = first_idle(&self.items, self.low);
        if self.low >= self.items.len() {
            return None;
        }
        self.items[self.low] = SeqState::Outstanding;
        self.outstanding += 1;
        Some(self.low)
    }

    /// Makes every outstanding upload idle.
    pub(crate) fn tick(&mut self)
        ensures states { self.new ≡ ticked self.old }
        ensures window { outstanding self.new ≤ MOST_OUTSTANDING }
    {
        if self.outstanding == 0 {
            return;
        }
        let first = give_up(&mut self.items, self.outstanding);
        self.outstanding = 0;
        self.low = self.low.min(first);
    }

    /// An acknowledgement of an upload came.
    pub(crate) fn acknowledge(&mut self, seq: usize)
        requires { seq < length self.old }
        ensures states { self.new ≡ slice_set self.old seq (acknowledged (state_at self.old seq)) }
        ensures window { outstanding self.new ≤ MOST_OUTSTANDING }
    {
        match self.items[seq] {
            SeqState::Acknowledged | SeqState::Refused => return,
            SeqState::Outstanding => self.outstanding -= 1,
            SeqState::Idle => {}
        }
        self.items[seq] = SeqState::Acknowledged;
        self.acknowledged += 1;
    }

    /// A refusal of an upload came. Whether the upload is refused now, which an acknowledged one is not.
    pub(crate) fn refuse(&mut self, seq: usize) -> bool
        requires { seq < length self.old }
        ensures states { self.new ≡ slice_set self.old seq (refused (state_at self.old seq)) }
        ensures window { outstanding self.new ≤ MOST_OUTSTANDING }
        ensures told { result ≡ not (is_acknowledged (state_at self.old seq)) }
    {
        match self.items[seq] {
            SeqState::Acknowledged => return false,
            SeqState::Outstanding => self.outstanding -= 1,
            SeqState::Idle | SeqState::Refused => {}
        }
        self.items[seq] = SeqState::Refused;
        true
    }

    /// Whether all are acknowledged.
    pub(crate) fn all_acknowledged(&self) -> bool
        ensures { result ≡ list_all is_acknowledged self.now }
    {
        self.acknowledged == self.items.len()
    }
}

// The first idle one, or the number of all, where none below `low` is idle.
fn first_idle(states: &[SeqState], low: usize) -> usize
    requires within { low ≤ length states.now }
    requires passed { (k : ℕ) → k < low → is_idle (state_at states.now k) ≡ false }
    ensures { result ≡ position_or_len is_idle states.now }
{
    for seq in low..states.len() {
        if states[seq].is_idle() {
            return seq;
        }
    }
    states.len()
}

// Makes the outstanding ones idle, of which there are `count`. The result is a position before which none was outstanding.
fn give_up(states: &mut [SeqState], count: usize) -> usize
    requires { count ≡ outstanding states.old }
    ensures states { states.new ≡ ticked states.old }
    ensures first { (k : ℕ) → k < result → is_outstanding (state_at states.old k) ≡ false }
    ensures within { result ≤ length states.old }
{
    let mut first = states.len();
    let mut left = count;
    for seq in 0..states.len() {
        if left == 0 {
            return first.min(seq);
        }
        if states[seq].is_outstanding() {
            states[seq] = SeqState::Idle;
            left -= 1;
            first = first.min(seq);
        }
    }
    first
}
