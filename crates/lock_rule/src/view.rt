//! What a pass knows. No value of these types is ever made: proofs alone speak of them.

use column_book::Entry;
use std::collections::LinkedList;

/// What a pass does at the lock.
pub enum Doing {
    /// Nothing.
    Idle,
    /// It drew this ticket.
    Drew(u64),
    /// It has the turn of this ticket; the list and the fault are those behind the lock.
    Has(u64, LinkedList<Entry>, Option<Entry>),
}

/// Whether a pass met a broken journal.
pub enum Mark {
    /// It did not.
    Clear,
    /// It found the journal broken.
    Seen,
    /// Its own call broke the journal, while this entry was being stored.
    Carries(Entry),
}

/// What a pass that was joined into the first one had come to.
pub struct Joined {
    pub number: u64,
    pub seen: LinkedList<Entry>,
    pub mark: Mark,
    pub begun: u64,
}

/// What a pass knows.
pub struct View {
    /// False once the pass was joined.
    pub live: bool,
    /// 1 for the first pass, and one more for each that is split off.
    pub number: u64,
    pub doing: Doing,
    /// The list behind the lock as the pass saw it last.
    pub seen: LinkedList<Entry>,
    pub mark: Mark,
    /// How many calls it has begun.
    pub begun: u64,
    /// Of the first pass: how many passes there are and were.
    pub made: u64,
    /// Of the first pass: the passes that were joined, the last one first.
    pub joined: LinkedList<Joined>,
}
