//! Lines taken one after the other, and the texts of the whys.

use crate::{Draft, LineFault, Section, Why};
use std::test::Fail;

#[test]
fn lines_of_a_small_text(rt: HostRuntime) -> Result<(), Fail> {
    let mut draft = Draft::new(rt.alloc());
    draft.line(b"guardian 1")?;
    draft.line(b"")?;
    draft.line(b"# a comment")?;
    draft.line(b"shape 2 1 ports")?;
    draft.line(b"pick turns")?;
    draft.line(b"host 1")?;
    draft.line(b"switch 7")?;
    draft.line(b"flow 3 10.0.0.1 10.0.0.2 6 2 1 host 1 path 7")?;
    draft.line(b"packet 3 1500 20")?;
    draft.line(b"end 7")?;
    draft.line(b"ask 3 7 0")?;
    assert!(rt; !draft.is_done());
    assert_eq!(rt; draft.section, Section::Steps);
    assert_eq!(rt; draft.line(b"host 2"), Err(LineFault::Bad(Why::OutOfPlace)));
    Ok(())
}

#[test]
fn the_last_line(rt: HostRuntime) -> Result<(), Fail> {
    let mut draft = Draft::new(rt.alloc());
    draft.line(b"guardian 1")?;
    draft.line(b"shape 8 4096 ports")?;
    draft.line(b"pick turns")?;
    draft.line(b"done")?;
    assert!(rt; draft.is_done());
    Ok(())
}

// A path may go by 16 switches, and by no more.
#[test]
fn seventeen_switches(rt: HostRuntime) -> Result<(), Fail> {
    let mut draft = Draft::new(rt.alloc());
    for line in ["guardian 1", "shape 2 1 ports", "pick turns", "host 1"] {
        draft.line(line.as_bytes())?;
    }
    for line in [
        "switch 1",
        "switch 2",
        "switch 3",
        "switch 4",
        "switch 5",
        "switch 6",
        "switch 7",
        "switch 8",
        "switch 9",
        "switch 10",
        "switch 11",
        "switch 12",
        "switch 13",
        "switch 14",
        "switch 15",
        "switch 16",
        "switch 17",
    ] {
        draft.line(line.as_bytes())?;
    }
    draft.line(
        b"flow 1 10.0.0.1 10.0.0.2 6 2 1 host 1 path 1 2 3 4 5 6 7 8 9 10 11 12 13 14 15 16",
    )?;
    assert_eq!(rt;
        draft.line(
            b"flow 2 10.0.0.1 10.0.0.2 6 2 1 host 1 path 1 2 3 4 5 6 7 8 9 10 11 12 13 14 15 16 17",
        ),
        Err(LineFault::Bad(Why::BadPath))
    );
    Ok(())
}

#[test]
fn texts_of_the_whys(rt: HostRuntime) {
    for (why, text) in [
        (Why::Version, "not guardian 1"),
        (Why::OutOfPlace, "out of place"),
        (Why::UnknownWord, "unknown word"),
        (Why::WordCount, "word count"),
        (Why::BadNumber, "bad number"),
        (Why::BadKey, "bad key"),
        (Why::Repeated, "repeated"),
        (Why::UnknownName, "unknown name"),
        (Why::BadPath, "bad path"),
        (Why::BadWord, "bad word"),
        (Why::BadLetters, "bad letters"),
        (Why::TooMany, "too many"),
        (Why::NoDone, "no done"),
        (Why::TooLong, "too long"),
    ] {
        assert_eq!(rt; why.text(), text.as_bytes());
    }
}
