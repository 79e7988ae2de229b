use crate::{
    worked_answers, worked_applying, worked_arrivals, worked_book_files, worked_carrying,
    worked_commands, worked_contents, worked_disks, worked_generators, worked_hashes,
    worked_keeping, worked_limits, worked_lines, worked_links, worked_packets, worked_pickers,
    worked_readings, worked_sketches, worked_uploads, worked_worlds,
};

// What the contracts say is proved; the calls do nothing.
#[test]
fn each_subject_is_called() {
    worked_hashes();
    worked_packets();
    worked_sketches();
    worked_pickers();
    worked_carrying();
    worked_limits();
    worked_arrivals();
    worked_contents();
    worked_answers();
    worked_uploads();
    worked_applying();
    worked_book_files();
    worked_disks();
    worked_links();
    worked_worlds();
    worked_keeping();
    worked_readings();
    worked_generators();
    worked_lines();
    worked_commands();
}
