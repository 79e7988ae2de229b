//! What a run over a book keeps, said of lists of records and of files alone.
//!
//! | Item | What it is |
//! |---|---|
//! | [`legal_lists_grow`] | the law: what a legal list has of the one that was found, and of what is brought |
//! | [`refusals_have_causes`] | the law: why an upload of a run is refused |
//! | [`lists_are_true`] | the law: what a run adds is true, and so are its answers |
//! | [`files_stand_for_one_list`] | the law: a file stands for one list, with no key twice |
//! | [`files_left_are_legal`] | the law: what a run leaves on a disk, file by file |
//! | [`workers_leave_legal_lists`] | the law: what holds once a worker per host is done and the book is closed |
//! | [`worked_books`] | worked runs: uploads, legal lists and others, a clash |
#![tactic(auto)]

mod laws;

pub use laws::{
    files_left_are_legal, files_stand_for_one_list, legal_lists_grow, lists_are_true,
    refusals_have_causes, worked_books, workers_leave_legal_lists,
};
