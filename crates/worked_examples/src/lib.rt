//! Worked examples: what the definitions of docs/DEFINITIONS.md come to on known cases, by computation. Each says what
//! goes wrong where its definition is off by one, reversed, swapped, taken of the first for each, or cut short.
//!
//! | Item | What its contract works out |
//! |---|---|
//! | [`worked_hashes`] | keys, their bytes and their text; places, by ports and by a seed |
//! | [`worked_packets`] | packets, whom they meet, what the switches see, true sums and maxima |
//! | [`worked_sketches`] | what packets do to a sketch, what a switch freezes, its twins |
//! | [`worked_pickers`] | turns, random words, chance, and whole picked lists |
//! | [`worked_carrying`] | carrying that is allowed, and some that is not; frozen columns |
//! | [`worked_limits`] | a scenario at its limits, and what is past each |
//! | [`worked_arrivals`] | the order of arrivals, and what comes to which host |
//! | [`worked_contents`], [`worked_answers`] | what is known, in which order, and what it answers |
//! | [`worked_uploads`] | the bytes of columns, what comes to the hosts cut into uploads, a booking |
//! | [`worked_applying`] | what an upload does to the entries of a book |
//! | [`worked_book_files`], [`worked_disks`] | the bytes of a book's file; a disk, and what a crash may leave |
//! | [`worked_links`], [`worked_worlds`] | states of uploads, replies, what a link brings; events of the world |
//! | [`worked_keeping`] | lists that a run may leave, and others; what is kept and acknowledged |
//! | [`worked_readings`], [`worked_generators`] | texts that are read; generated scenarios |
//! | [`worked_lines`], [`worked_commands`] | lines of output and of faults; words that are a command |
#![tactic(auto)]

mod answers;
mod network;
mod runs;
#[cfg(test)]
mod tests;
mod texts;
mod uploads;

pub use answers::{worked_answers, worked_arrivals, worked_contents};
pub use network::{
    worked_carrying, worked_hashes, worked_limits, worked_packets, worked_pickers, worked_sketches,
};
pub use runs::worked_keeping;
pub use texts::{worked_commands, worked_generators, worked_lines, worked_readings};
pub use uploads::{
    worked_applying, worked_book_files, worked_disks, worked_links, worked_uploads, worked_worlds,
};
