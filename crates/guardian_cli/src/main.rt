//! The program `guardian`: the top call over the standard streams and the file `guardian.book`.
#![tactic(auto)]

#[cfg(test)]
mod fault_tests;
#[cfg(test)]
mod gate_tests;

use guardian_run::guardian;
use lg_base::{OpenGate, StdSink, StdSource};
use lg_disk::FileDisk;
use std::process::ExitCode;
use std::rt::Env;
use std::{env, io};

// The file of the book, in the folder in which the program runs.
const BOOK: &str = "guardian.book";

// The exit status where the words cannot be had, as where memory ran out.
const NO_WORDS: u8 = 11;

// The words after the program's name.
fn words<R: Env + AllocGlobal>(rt: &R) -> io::Result<Vec<String>> {
    let mut words = Vec::new(rt.alloc());
    for word in env::args(rt)?.skip(1) {
        words.push(word)?;
    }
    Ok(words)
}

fn main(rt: HostRuntime) -> ExitCode {
    let Ok(words) = words(&rt) else {
        return ExitCode::from(NO_WORDS);
    };
    let mut source = StdSource::new(rt.reader());
    let mut sink = StdSink::new(io::writer(&rt));
    let disk = FileDisk::at(&rt, BOOK);
    let (status, _) = guardian(
        rt.alloc(),
        &rt,
        &words,
        &mut source,
        &mut sink,
        disk,
        &OpenGate,
    );
    ExitCode::from(status.code())
}
