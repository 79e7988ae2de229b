//! Laws over the definitions alone, each on a function with an empty body.
ghost use Rattle.book_file.specs.Laws.{LawOfFiles, LawOfBlankFiles, LawOfAnswers, LawOfWholeFiles, LawOfLengths};
ghost use Rattle.book_file.specs.Worked.{WorkedFiles};

/// Bytes that aren't blank stand for at most one shape and one list of records, and blank ones for the empty list
/// alone. The closing gate stands at most 17 bytes and 64 for each column from the start (docs/FORMATS.md, The book file).
pub fn files_are_apart()
    ensures one { LawOfFiles }
    ensures blank { LawOfBlankFiles }
    ensures short { LawOfLengths }
{}

/// One answer at most is true of a file: so each comes exactly where its cause is there, however the file is cut.
pub fn files_have_one_answer()
    ensures { LawOfAnswers }
{}

/// A file that stands for a list which there is room for has no fault.
pub fn whole_files_have_no_fault()
    ensures { LawOfWholeFiles }
{}

/// The file of a known record, and files that are close to it or short, worked out by computation.
pub fn worked_files()
    ensures { WorkedFiles }
{}
