//! Scenarios with known outputs, through the top call.

ghost use Rattle.std.specs.Prelude.{◌<◌};

use crate::ending::end;
use crate::refusal::Refusal;
use crate::{Status, guardian, guardian_read};
use lg_base::{MemorySink, MemorySource, OpenGate};
use lg_disk::MemoryDisk;
use std::alloc::Global;
use std::sync::Wait;
use std::test::Fail;
use std::thread::Threads;

// One switch and one flow, in a sketch of one column.
pub(crate) const ONE: &str = "guardian 1\nshape 2 1 ports\npick turns\nhost 1\nswitch 1\n\
        flow 1 10.0.0.1 10.0.0.2 6 2 1 host 1 path 1\n";

// The same by two switches.
const TWO: &str = "guardian 1\nshape 2 1 ports\npick turns\nhost 1\nswitch 1\nswitch 2\n\
        flow 1 10.0.0.1 10.0.0.2 6 2 1 host 1 path 1 2\n";

// One switch and four flows, in a sketch of two columns. Flow 1 shares a bucket with flow 2 in row 1 and with flow 4 in
// row 0.
pub(crate) const FOUR: &str = "guardian 1\nshape 2 2 ports\npick turns\nhost 1\nswitch 1\n\
        flow 1 10.0.0.1 10.0.0.2 6 2 1 host 1 path 1\nflow 2 10.0.0.1 10.0.0.2 6 2 2 host 1 path 1\n\
        flow 3 10.0.0.1 10.0.0.2 6 3 2 host 1 path 1\nflow 4 10.0.0.1 10.0.0.2 6 3 1 host 1 path 1\n";

// A text of two parts.
pub(crate) fn joined(alloc: Global, head: &str, rest: &str) -> Result<Vec<u8>, Fail> {
    let mut text = head.as_bytes().to_vec(alloc)?;
    text.extend_from_slice(rest.as_bytes())?;
    Ok(text)
}

// The status and the output of these words, for an input in pieces of that size. The book is blank.
fn told<R: Threads + Wait + Sync>(
    rt: &R,
    alloc: Global,
    words: &[&str],
    text: Vec<u8>,
    piece: usize,
) -> Result<(Status, Vec<u8>), Fail>
    requires { 0 < piece }
{
    let mut asked = Vec::new(alloc);
    for word in words {
        asked.push(String::from_str(alloc, word)?)?;
    }
    let mut source = MemorySource::new(text, piece, Vec::new(alloc));
    let mut sink = MemorySink::new(alloc, piece, Vec::new(alloc));
    let disk = MemoryDisk::new(alloc, Vec::new(alloc))?;
    let (status, _) = guardian(alloc, rt, &asked, &mut source, &mut sink, disk, &OpenGate);
    Ok((status, sink.bytes().to_vec(alloc)?))
}

#[test]
fn reports(rt: HostRuntime) -> Result<(), Fail> {
    for (head, rest, output) in [
        // The first scenario.
        (
            ONE,
            "packet 1 1500 20\nend 1\npacket 1 100 5\nask 1 1 0\ndone\n",
            "flow 1 switch 1 epoch 0 rows 2 of 2 bytes 1500 delay 20\ncolumns 1\n",
        ),
        // Nothing carries.
        (
            ONE,
            "packet 1 1500 20\nend 1\nask 1 1 0\ndone\n",
            "flow 1 switch 1 epoch 0 rows 0 of 2 bytes unknown delay unknown\ncolumns 0\n",
        ),
        // One column of two.
        (
            FOUR,
            "packet 1 100 10\npacket 2 50 30\nend 1\npacket 1 10 1\nask 1 1 0\nask 2 1 0\nask 3 1 0\ndone\n",
            "flow 1 switch 1 epoch 0 rows 1 of 2 bytes 150 delay 30\n\
                flow 2 switch 1 epoch 0 rows 2 of 2 bytes 50 delay 30\n\
                flow 3 switch 1 epoch 0 rows 0 of 2 bytes unknown delay unknown\ncolumns 1\n",
        ),
        // Both columns, and collisions.
        (
            FOUR,
            "packet 1 100 10\npacket 2 50 30\npacket 4 5 1\nend 1\npacket 1 10 1\npacket 1 10 1\n\
                ask 1 1 0\nask 2 1 0\nask 3 1 0\nask 4 1 0\ndone\n",
            "flow 1 switch 1 epoch 0 rows 2 of 2 bytes 100 delay 10\n\
                flow 2 switch 1 epoch 0 rows 2 of 2 bytes 50 delay 30\n\
                flow 3 switch 1 epoch 0 rows 2 of 2 bytes 5 delay 1\n\
                flow 4 switch 1 epoch 0 rows 2 of 2 bytes 5 delay 1\ncolumns 2\n",
        ),
        // A known zero.
        (
            FOUR,
            "packet 1 100 10\npacket 2 50 30\nend 1\npacket 1 10 1\npacket 1 10 1\nask 1 1 0\n\
                ask 2 1 0\nask 3 1 0\ndone\n",
            "flow 1 switch 1 epoch 0 rows 2 of 2 bytes 100 delay 10\n\
                flow 2 switch 1 epoch 0 rows 2 of 2 bytes 50 delay 30\n\
                flow 3 switch 1 epoch 0 rows 2 of 2 bytes 0 delay 0\ncolumns 2\n",
        ),
        // The greatest burst but one.
        (
            ONE,
            "packet 1 65535 20 burst 65536\nend 1\npacket 1 100 5\nask 1 1 0\ndone\n",
            "flow 1 switch 1 epoch 0 rows 2 of 2 bytes 4294901760 delay 20\ncolumns 1\n",
        ),
        // Exactly the last value.
        (
            ONE,
            "packet 1 65535 20 burst 65537\nend 1\npacket 1 100 5\nask 1 1 0\ndone\n",
            "flow 1 switch 1 epoch 0 rows 2 of 2 bytes saturated delay 20\ncolumns 1\n",
        ),
        // Above the last value.
        (
            ONE,
            "packet 1 65535 20 burst 65538\nend 1\npacket 1 100 5\nask 1 1 0\ndone\n",
            "flow 1 switch 1 epoch 0 rows 2 of 2 bytes saturated delay 20\ncolumns 1\n",
        ),
        // The greatest delay but one.
        (
            ONE,
            "packet 1 1500 65534\nend 1\npacket 1 100 5\nask 1 1 0\ndone\n",
            "flow 1 switch 1 epoch 0 rows 2 of 2 bytes 1500 delay 65534\ncolumns 1\n",
        ),
        // The last delay.
        (
            ONE,
            "packet 1 1500 65535\nend 1\npacket 1 100 5\nask 1 1 0\ndone\n",
            "flow 1 switch 1 epoch 0 rows 2 of 2 bytes 1500 delay saturated\ncolumns 1\n",
        ),
        // A longer delay.
        (
            ONE,
            "packet 1 1500 70000\nend 1\npacket 1 100 5\nask 1 1 0\ndone\n",
            "flow 1 switch 1 epoch 0 rows 2 of 2 bytes 1500 delay saturated\ncolumns 1\n",
        ),
        // Two hops.
        (
            TWO,
            "packet 1 1500 20 30\nend all\npacket 1 100 5 5\npacket 1 100 5 5\nask 1 1 0\nask 1 2 0\ndone\n",
            "flow 1 switch 1 epoch 0 rows 2 of 2 bytes 1500 delay 20\n\
                flow 1 switch 2 epoch 0 rows 2 of 2 bytes 1500 delay 30\ncolumns 2\n",
        ),
        // Two hops, one sketchlet lost.
        (
            TWO,
            "packet 1 1500 20 30\nend all\npacket 1 100 5 5 lost 1\npacket 1 100 5 5\nask 1 1 0\n\
                ask 1 2 0\ndone\n",
            "flow 1 switch 1 epoch 0 rows 0 of 2 bytes unknown delay unknown\n\
                flow 1 switch 2 epoch 0 rows 2 of 2 bytes 1500 delay 30\ncolumns 1\n",
        ),
        // Twice and late.
        (
            FOUR,
            "packet 1 100 10\npacket 2 50 30\nend 1\npacket 1 10 1 twice\npacket 1 10 1 late\n\
                packet 1 10 1 late\nrelease\nask 1 1 0\nask 2 1 0\nask 3 1 0\ndone\n",
            "flow 1 switch 1 epoch 0 rows 2 of 2 bytes 100 delay 10\n\
                flow 2 switch 1 epoch 0 rows 2 of 2 bytes 50 delay 30\n\
                flow 3 switch 1 epoch 0 rows 2 of 2 bytes 0 delay 0\ncolumns 2\n",
        ),
        // Letters have no effect on the report.
        (
            ONE,
            "link 1 xarh\npacket 1 1500 20\nend 1\npacket 1 100 5 burst 4\nask 1 1 0\ndone\n",
            "flow 1 switch 1 epoch 0 rows 2 of 2 bytes 1500 delay 20\ncolumns 1\n",
        ),
    ] {
        for piece in [1, 7, 4096] {
            let (status, written) = told(
                &rt,
                rt.alloc(),
                &["run"],
                joined(rt.alloc(), head, rest)?,
                piece,
            )?;
            assert_eq!(rt;
                (status, written.as_slice()),
                (Status::Ok, output.as_bytes())
            );
        }
    }
    Ok(())
}

#[test]
fn a_switch_that_chooses_by_chance(rt: HostRuntime) -> Result<(), Fail> {
    let text = "guardian 1\nshape 2 1 ports\npick chance 5\nhost 1\nswitch 1\n\
            flow 1 10.0.0.1 10.0.0.2 6 2 1 host 1 path 1\npacket 1 1500 20\nend 1\npacket 1 100 5\n\
            ask 1 1 0\ndone\n";
    let (status, written) = told(
        &rt,
        rt.alloc(),
        &["run"],
        joined(rt.alloc(), text, "")?,
        4096,
    )?;
    assert_eq!(rt; status, Status::Ok);
    assert_eq!(rt;
        written.as_slice(),
        b"flow 1 switch 1 epoch 0 rows 2 of 2 bytes 1500 delay 20\ncolumns 1\n".as_slice()
    );
    Ok(())
}

#[test]
fn sketchlets_at_the_hosts(rt: HostRuntime) -> Result<(), Fail> {
    for (rest, output) in [
        (
            "packet 1 1500 20\nend 1\npacket 1 100 5\nask 1 1 0\ndone\n",
            "host 1 4c47010200010001000000000000000005dc0014000005dc0014\nsketchlets 1\n",
        ),
        (
            "packet 1 1500 20\nend 1\nask 1 1 0\ndone\n",
            "sketchlets 0\n",
        ),
    ] {
        let (status, written) = told(
            &rt,
            rt.alloc(),
            &["capture"],
            joined(rt.alloc(), ONE, rest)?,
            7,
        )?;
        assert_eq!(rt;
            (status, written.as_slice()),
            (Status::Ok, output.as_bytes())
        );
    }
    Ok(())
}

#[test]
fn refused_texts(rt: HostRuntime) -> Result<(), Fail> {
    for (text, line) in [
        ("guardian 1\n", "guardian: scenario line 2: no done\n"),
        ("guardian 1", "guardian: scenario line 1: no done\n"),
        (
            "guardian 1\nshape 2 4097 ports\npick turns\nhost 1\nswitch 1\n\
                flow 1 10.0.0.1 10.0.0.2 6 2 1 host 1 path 1\npacket 1 1500 20\nend 1\npacket 1 100 5\n\
                ask 1 1 0\ndone\n",
            "guardian: scenario line 2: bad number\n",
        ),
        (
            "guardian 1\nshape 2 1 ports\npick turns\nhost 1\nswitch 1\n\
                flow 1 10.0.0.1 10.0.0.2 6 2 1 host 1 path 1\npacket 1 1500 20\nend 1\npacket 1 100 5\n\
                ask 1 2 0\ndone\n",
            "guardian: scenario line 10: unknown name\n",
        ),
        (
            "guardian 1\nshape 2 1 ports\npick turns\nhost 1\nswitch 1\n\
                flow 1 10.0.0.1 10.0.0.2 6 2 1 host 1 path 1 1\npacket 1 1500 20\nend 1\n\
                packet 1 100 5\nask 1 1 0\ndone\n",
            "guardian: scenario line 6: repeated\n",
        ),
        ("", "guardian: scenario line 1: no done\n"),
    ] {
        for word in ["run", "capture"] {
            for piece in [1, 7, 4096] {
                let (status, written) = told(
                    &rt,
                    rt.alloc(),
                    &[word],
                    joined(rt.alloc(), text, "")?,
                    piece,
                )?;
                assert_eq!(rt;
                    (status, written.as_slice()),
                    (Status::BadScenario, line.as_bytes())
                );
            }
        }
    }
    Ok(())
}

#[test]
fn words_that_are_no_command(rt: HostRuntime) -> Result<(), Fail> {
    let alloc = rt.alloc();
    let usage = b"guardian: usage: guardian run, ask, list, rebuild S E, capture, make N, demo N\n";
    for words in [
        [].as_slice(),
        &[""],
        &["runs"],
        &["run x"],
        &["run", "x"],
        &["run", "run"],
        &["capture", "1"],
        &["rebuild", "1"],
        &["rebuild", "-1", "0"],
        &["list", "x"],
        &["make"],
        &["make", "0"],
        &["make", "1001"],
        &["make", "01"],
        &["make", "1", "2"],
        &["demo"],
    ] {
        let (status, written) = told(&rt, alloc, words, joined(alloc, ONE, "done\n")?, 7)?;
        assert_eq!(rt;
            (status, written.as_slice()),
            (Status::BadWords, usage.as_slice())
        );
    }
    Ok(())
}

#[test]
fn words_that_only_read(rt: HostRuntime) -> Result<(), Fail> {
    let alloc = rt.alloc();
    for (word, want) in [("capture", Status::Ok), ("run", Status::BadWords)] {
        let words = [String::from_str(alloc, word)?];
        let text = joined(alloc, ONE, "done\n")?;
        let mut source = MemorySource::new(text, 7, Vec::new(alloc));
        let mut sink = MemorySink::new(alloc, 7, Vec::new(alloc));
        let mut disk = MemoryDisk::new(alloc, Vec::new(alloc))?;
        let status = guardian_read(alloc, &words, &mut source, &mut sink, &mut disk);
        assert_eq!(rt; status, want);
    }
    Ok(())
}

#[test]
fn exit_statuses(rt: HostRuntime) -> Result<(), Fail> {
    let codes = [
        (Status::Ok, 0),
        (Status::BadWords, 1),
        (Status::BadScenario, 2),
        (Status::ReadFault, 3),
        (Status::WriteFault, 4),
        (Status::DiskFault, 5),
        (Status::NotAJournal, 6),
        (Status::WrongShape, 7),
        (Status::Damaged, 8),
        (Status::Conflict, 9),
        (Status::Full, 10),
        (Status::NoMemory, 11),
        (Status::Missing, 12),
    ];
    for (status, code) in codes {
        assert_eq!(rt; status.code(), code);
    }
    Ok(())
}

#[test]
fn a_book_that_is_full(rt: HostRuntime) -> Result<(), Fail> {
    let alloc = rt.alloc();
    let mut sink = MemorySink::new(alloc, 7, Vec::new(alloc));
    let refusal = Refusal::Full {
        held: 262144,
        more: 16,
    };
    let status = end(alloc, Err(refusal), &mut sink);
    assert_eq!(rt;
        (status, sink.bytes()),
        (
            Status::Full,
            b"guardian: full with 262144 and 16 more\n".as_slice()
        )
    );
    Ok(())
}
