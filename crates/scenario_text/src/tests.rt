//! Texts with known answers, from sources that give pieces of several sizes.

ghost use Rattle.std.specs.Prelude.{◌<◌};

use crate::{Scenario, ScenarioFault, Why, prefix_decides, read, worked_texts};
use flow_key::FlowKey;
use lg_base::MemorySource;
use lg_model::{Fate, Pick, Step};
use row_hash::Hash;
use std::alloc::Global;
use std::process::Abort;
use std::test::Fail;

const FIRST: &str =
    "guardian 1\nshape 2 1 ports\npick turns\nhost 1\nswitch 1\nflow 1 10.0.0.1 10.0.0.2 6 2 1 host 1 path 1\npacket 1 1500 20\nend 1\npacket 1 100 5\nask 1 1 0\ndone\n";

// The first three lines, and a host and a switch of the name 1.
const HEAD: &str = "guardian 1\nshape 2 1 ports\npick turns\nhost 1\nswitch 1\n";

// The head and a flow.
const FLOW: &str =
    "guardian 1\nshape 2 1 ports\npick turns\nhost 1\nswitch 1\nflow 1 10.0.0.1 10.0.0.2 6 2 1 host 1 path 1\n";

pub(crate) fn source(alloc: Global, text: &[u8], piece: usize) -> Result<MemorySource, Fail>
    requires { 0 < piece }
{
    Ok(MemorySource::new(text.to_vec(alloc)?, piece, Vec::new(alloc)))
}

// The fault of a text, the same in pieces of every size.
pub(crate) fn fault(
    rt: &impl Abort,
    alloc: Global,
    text: &[u8],
) -> Result<Option<ScenarioFault>, Fail> {
    let mut small = source(alloc, text, 1)?;
    let answer = read(alloc, &mut small).err();
    for piece in [7, 4096] {
        let mut source = source(alloc, text, piece)?;
        assert_eq!(*rt; read(alloc, &mut source).err(), answer);
    }
    Ok(answer)
}

// The scenario of a text that comes in pieces of that size.
fn scenario_of(alloc: Global, text: &[u8], piece: usize) -> Result<Scenario, Fail>
    requires { 0 < piece }
{
    let mut source = source(alloc, text, piece)?;
    Ok(read(alloc, &mut source)?)
}

// The fault of a text in pieces of 4,096 bytes.
fn fault_at_once(alloc: Global, text: &[u8]) -> Result<Option<ScenarioFault>, Fail> {
    let mut source = source(alloc, text, 4096)?;
    Ok(read(alloc, &mut source).err())
}

// These bytes, and that many of one byte that the length is this.
fn filled(alloc: Global, front: &[u8], len: usize, byte: u8) -> Result<Vec<u8>, Fail> {
    let mut text = front.to_vec(alloc)?;
    text.resize(len, byte)?;
    Ok(text)
}

pub(crate) fn bad(line: u32, why: Why) -> Option<ScenarioFault> {
    Some(ScenarioFault::Bad { line, why })
}

#[test]
fn the_first_scenario(rt: HostRuntime) -> Result<(), Fail> {
    for piece in [1, 7, 4096] {
        let scenario = scenario_of(rt.alloc(), FIRST.as_bytes(), piece)?;
        let shape = scenario.shape();
        assert_eq!(rt;
            (shape.rows(), shape.width(), shape.hash()),
            (2, 1, Hash::Ports)
        );
        assert_eq!(rt; *scenario.pick(), Pick::Turns);
        assert_eq!(rt; scenario.hosts().len(), 1);
        assert_eq!(rt; scenario.hosts()[0].name, 1);
        assert!(rt; scenario.hosts()[0].letters.items().is_empty());
        assert_eq!(rt; scenario.switches(), [1].as_slice());
        assert_eq!(rt; scenario.flows().len(), 1);
        let flow = &scenario.flows()[0];
        assert_eq!(rt; flow.name, 1);
        assert_eq!(rt; Some(flow.key), FlowKey::parse(b"10.0.0.1 10.0.0.2 6 2 1"));
        assert_eq!(rt; flow.host_at, 0);
        assert_eq!(rt; flow.path.items(), [0].as_slice());
        assert_eq!(rt; scenario.asks().len(), 1);
        let ask = &scenario.asks()[0];
        assert_eq!(rt; (ask.flow_at, ask.switch, ask.epoch), (0, 1, 0));
    }
    prefix_decides();
    worked_texts();
    Ok(())
}

#[test]
fn the_steps_of_the_first_scenario(rt: HostRuntime) -> Result<(), Fail> {
    let scenario = scenario_of(rt.alloc(), FIRST.as_bytes(), 4096)?;
    let [first, Step::End { switch_at }, last] = scenario.steps() else {
        return Err("other steps")?;
    };
    assert_eq!(rt; *switch_at, 0);
    for (step, want_size, delay) in [(first, 1500, 20), (last, 100, 5)] {
        let Step::Packet {
            flow_at,
            size,
            delays,
            burst,
            fate,
        } = step
        else {
            return Err("no packet")?;
        };
        assert_eq!(rt; (*flow_at, *size, *burst), (0, want_size, 1));
        assert_eq!(rt; delays.items(), [delay].as_slice());
        assert_eq!(rt; *fate, Fate::Straight);
    }
    Ok(())
}

#[test]
fn whole_texts(rt: HostRuntime) -> Result<(), Fail> {
    for (text, want) in [
        ("", bad(1, Why::NoDone)),
        ("\n", bad(2, Why::NoDone)),
        ("guardian 1\n", bad(2, Why::NoDone)),
        ("guardian 1", bad(1, Why::NoDone)),
        ("guardian 2\n", bad(1, Why::Version)),
        ("guardian 1 \n", bad(1, Why::Version)),
        ("\n# a comment\nguardian  1\n", bad(3, Why::Version)),
        ("guardian 1\nguardian 1\n", bad(2, Why::OutOfPlace)),
        ("guardian 1\nnothing\n", bad(2, Why::UnknownWord)),
        ("guardian 1\nshape 2 4097 ports\n", bad(2, Why::BadNumber)),
        ("guardian 1\nshape 2 4096 port\n", bad(2, Why::BadWord)),
        ("guardian 1\nshape 2 1 seed 1\n", bad(3, Why::NoDone)),
        ("guardian 1\nshape 0 1 ports\n", bad(2, Why::BadNumber)),
        ("guardian 1\nshape 9 1 ports\n", bad(2, Why::BadNumber)),
        ("guardian 1\nshape 8 4096 ports\n", bad(3, Why::NoDone)),
        (
            "guardian 1\nshape 2 1 ports\npick chance 1\n",
            bad(4, Why::NoDone),
        ),
        ("guardian 1\nshape 2 1 ports\npick turns\ndone\n", None),
        ("guardian 1\nshape 2 1 ports\npick turns\ndone", None),
        (
            "guardian 1\r\nshape 2 1 ports\r\n\r\npick turns\r\ndone\r\n",
            None,
        ),
        (
            "guardian 1\nshape 2 1 ports\npick turns\ndone\r",
            bad(4, Why::UnknownWord),
        ),
        (
            "guardian 1\nshape 2 1 ports\npick turns\ndone done\n",
            bad(4, Why::WordCount),
        ),
        (
            "guardian 1\nshape 2 1 ports\npick turns\ndone\nshape \x00\n\n",
            None,
        ),
        (
            "guardian 1\nshape 2 1 ports\ndone\n",
            bad(3, Why::OutOfPlace),
        ),
    ] {
        assert_eq!(rt; fault(&rt, rt.alloc(), text.as_bytes())?, want, "{text}");
    }
    Ok(())
}

// The first faulty line after these lines.
fn after(
    rt: &impl Abort,
    alloc: Global,
    lines: &str,
    more: &str,
) -> Result<Option<ScenarioFault>, Fail> {
    let mut text = lines.as_bytes().to_vec(alloc)?;
    text.extend_from_slice(more.as_bytes())?;
    fault(rt, alloc, &text)
}

#[test]
fn declarations(rt: HostRuntime) -> Result<(), Fail> {
    for (line, why) in [
        ("host\n", Why::WordCount),
        ("switch 1\n", Why::Repeated),
        ("link 1 z\n", Why::BadLetters),
        ("release 1\n", Why::WordCount),
        ("end all 1\n", Why::WordCount),
        (
            "flow 1 10.0.0.1 10.0.0.2 6 2 1 host 1 path 1 1\n",
            Why::Repeated,
        ),
        ("flow path a b\n", Why::BadNumber),
        (
            "flow 1 10.0.0.1 10.0.0.2 6 2 1 host 2 path 1\n",
            Why::UnknownName,
        ),
        (
            "flow 1 10.0.0.1 10.0.0.2 6 2 1 host 1 path 2\n",
            Why::UnknownName,
        ),
        (
            "flow 1 10.0.0.1 10.0.0.2 6 2 1 host 1 path\n",
            Why::WordCount,
        ),
        (
            "flow 1 10.0.0.1 10.0.0.2 6 2 1 host 1 paths 1\n",
            Why::BadWord,
        ),
        (
            "flow 1 10.0.0.1 10.0.0.2 6 2 1 hosts 1 path 1\n",
            Why::BadWord,
        ),
        ("flow 1 10.0.0.1 x\n", Why::BadKey),
        ("flow 1 10.0.0.1\n", Why::WordCount),
        (
            "flow 1 10.0.0.1 10.0.0.2 256 2 1 host 1 path 1\n",
            Why::BadKey,
        ),
        (
            "flow 1 10.0.0.1 10.0.0.2 6 2 65536 host 1 path 1\n",
            Why::BadKey,
        ),
        ("flow 65536 x\n", Why::BadNumber),
        ("flow +1 x\n", Why::BadNumber),
        ("flow 01 x\n", Why::BadNumber),
        ("flow 1234567890123456789012345 x\n", Why::BadNumber),
        ("flow  1\n", Why::BadNumber),
        (" flow 1\n", Why::UnknownWord),
        ("done \n", Why::WordCount),
        ("\rdone\n", Why::UnknownWord),
        ("do\rne\n", Why::UnknownWord),
        ("done\x00\n", Why::UnknownWord),
        ("packet 1 100 5\n", Why::UnknownName),
        ("ask 1 1 0\n", Why::UnknownName),
        ("end 2\n", Why::UnknownName),
        ("end every\n", Why::BadNumber),
        ("end\n", Why::WordCount),
        ("shape 2 1 ports\n", Why::OutOfPlace),
    ] {
        assert_eq!(rt; after(&rt, rt.alloc(), HEAD, line)?, bad(6, why), "{line}");
    }
    Ok(())
}

#[test]
fn steps(rt: HostRuntime) -> Result<(), Fail> {
    for (line, why) in [
        (
            "flow 1 10.0.0.1 10.0.0.2 6 2 1 host 1 path 1\n",
            Why::Repeated,
        ),
        ("packet 1 1500\n", Why::WordCount),
        ("packet 1 65536 1\n", Why::BadNumber),
        ("packet 2 65536 1\n", Why::UnknownName),
        ("packet 1 1500 4294967296\n", Why::BadNumber),
        ("packet 1 1500 20 30\n", Why::BadWord),
        ("packet 1 1500 20 burst 2 burst 2\n", Why::BadWord),
        ("packet 1 1500 20 lost 2\n", Why::BadNumber),
        ("packet 1 1500 20 twice burst 2\n", Why::BadWord),
        ("packet 1 1500 20 late late\n", Why::WordCount),
        ("end 1 1\n", Why::WordCount),
        ("ask 1 2 0\n", Why::UnknownName),
        ("ask 1 1 4294967296\n", Why::BadNumber),
        ("ask 1 1\n", Why::WordCount),
        ("ask 1 1 0 0\n", Why::WordCount),
    ] {
        assert_eq!(rt; after(&rt, rt.alloc(), FLOW, line)?, bad(7, why), "{line}");
    }
    for line in [
        "flow 2 10.0.0.1 10.0.0.2 6 2 1 host 1 path 1\n",
        "guardian 1\n",
        "pick turns\n",
    ] {
        let mut text = FLOW.as_bytes().to_vec(rt.alloc())?;
        text.extend_from_slice(b"end 1\n")?;
        text.extend_from_slice(line.as_bytes())?;
        assert_eq!(rt;
            fault(&rt, rt.alloc(), &text)?,
            bad(8, Why::OutOfPlace),
            "{line}"
        );
    }
    Ok(())
}

#[test]
fn texts_that_are_long(rt: HostRuntime) -> Result<(), Fail> {
    let alloc = rt.alloc();
    let end = b"\nguardian 1\nshape 1 1 ports\npick turns\ndone\n";
    let mut text = filled(alloc, b"#", 1_000_000, b'x')?;
    text.extend_from_slice(end)?;
    assert_eq!(rt; fault_at_once(alloc, &text)?, None);

    let mut text = filled(alloc, b"guardian 1\n", 16_777_215, b'\n')?;
    assert_eq!(rt; fault_at_once(alloc, &text)?, bad(16_777_206, Why::NoDone));
    text.push(b'\n')?;
    assert_eq!(rt; fault_at_once(alloc, &text)?, bad(16_777_207, Why::TooLong));

    // One line, and `done` after the bytes that are looked at.
    let mut text = filled(alloc, b"#", 16_777_216, b'x')?;
    text.extend_from_slice(end)?;
    assert_eq!(rt; fault_at_once(alloc, &text)?, bad(1, Why::TooLong));
    Ok(())
}

#[test]
fn a_source_that_fails(rt: HostRuntime) -> Result<(), Fail> {
    for failing in [0, 1, 5] {
        let calls = [failing].to_vec(rt.alloc())?;
        let mut source = MemorySource::new(FIRST.as_bytes().to_vec(rt.alloc())?, 7, calls);
        assert_eq!(rt;
            read(rt.alloc(), &mut source).err(),
            Some(ScenarioFault::ReadFault),
            "{failing}"
        );
    }
    // The call after the one that decides is never made.
    let calls = [22].to_vec(rt.alloc())?;
    let mut source = MemorySource::new(FIRST.as_bytes().to_vec(rt.alloc())?, 7, calls);
    assert!(rt; read(rt.alloc(), &mut source).is_ok());
    Ok(())
}
