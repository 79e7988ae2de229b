//! Every line that the program writes: the lines of a report, a capture and a summary, and fault lines (docs/FORMATS.md, Output
//! lines; Fault lines and exit statuses).
//!
//! | Item | What it is |
//! |---|---|
//! | [`answer_line`], [`put_answer_line`] | the line of an answer |
//! | [`put_columns_line`], [`put_sketchlets_line`] | the last line of a report, and of a capture |
//! | [`hex_line`], [`put_hex_line`] | the line of a sketchlet |
//! | [`Summary`], [`put_summary`] | the lines of the summary of a demonstration |
//! | [`column_line`], [`put_column_line`] | the line of a column |
//! | [`row_line`], [`put_row_line`] | the line of a row of a sketch |
//! | [`put_rebuilt_line`] | the first line of a rebuilt sketch |
//! | [`acked_line`], [`put_acked_line`] | the line of an acknowledged upload |
//! | [`scenario_line`], [`put_scenario_line`] | the line of a scenario text that is refused |
//! | [`full_line`], [`put_full_line`] | the line of a book that has no room |
//! | [`put_conflict_line`] | the line of a column that differs from the one that the book keeps |
//! | [`shape_line`], [`damaged_line`] | the lines of a book file that is of another shape, or is damaged |
//! | [`missing_line`], [`blank_line`] | the lines of a sketch that cannot be rebuilt |
//! | [`usage_line`], [`read_fault_line`], [`disk_fault_line`], [`not_a_journal_line`], [`no_memory_line`] | fault lines that never change |
//! | [`put_text`], [`put_number`] | what other lines are written with |
//!
//! A `put` appends to the bytes of a list. Every line ends with the byte 10.
#![tactic(auto, using(text_out::proofs::Keeping::keeps_itself, text_out::proofs::Keeping::keeps_after))]

mod answers;
mod captures;
mod columns;
#[cfg(test)]
mod columns_tests;
mod faults;
mod summary;
#[cfg(test)]
mod tests;

pub use answers::{answer_line, put_answer_line, put_columns_line};
pub use captures::{hex_line, put_hex_line, put_sketchlets_line};
pub use columns::{
    acked_line, column_line, put_acked_line, put_column_line, put_rebuilt_line, put_row_line,
    row_line,
};
pub use faults::{
    blank_line, damaged_line, disk_fault_line, full_line, missing_line, no_memory_line,
    not_a_journal_line, put_conflict_line, put_full_line, put_scenario_line, read_fault_line,
    scenario_line, shape_line, usage_line,
};
pub use summary::{Summary, put_summary};
pub use text_out::{put_number, put_text};
