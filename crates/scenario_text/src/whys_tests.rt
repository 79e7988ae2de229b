//! Every why, and the order of the checks within a line.

use crate::tests::{bad, fault};
use crate::{ScenarioFault, Why};
use std::alloc::Global;
use std::process::Abort;
use std::test::Fail;

// Eight lines: two hosts, two switches, and a flow over both.
const NET: &str =
    "guardian 1\nshape 2 8 seed 5\npick chance 7\nhost 1\nhost 2\nswitch 1\nswitch 2\nflow 1 10.0.0.1 10.0.0.2 6 2 1 host 2 path 2 1\n";

// The fault of the net's lines, of the second lines repeated that many times, and of the third.
fn after_net(
    rt: &impl Abort,
    alloc: Global,
    times: usize,
    lines: &str,
    more: &str,
) -> Result<Option<ScenarioFault>, Fail> {
    let mut text = NET.as_bytes().to_vec(alloc)?;
    for _ in 0..times {
        text.extend_from_slice(lines.as_bytes())?;
    }
    text.extend_from_slice(more.as_bytes())?;
    fault(rt, alloc, &text)
}

#[test]
fn packets(rt: HostRuntime) -> Result<(), Fail> {
    for (line, why) in [
        ("packet 1 100 5 6 burst 2 burst 3\n", Why::BadWord),
        ("packet 1 100 5 6 lost 1 burst 3\n", Why::BadWord),
        ("packet 1 100 5 6 twice burst 3\n", Why::BadWord),
        ("packet 1 100 5 6 late 1\n", Why::WordCount),
        ("packet 1 100 5 6 lost 1 late\n", Why::WordCount),
        ("packet 1 100 5 6 lost 3\n", Why::BadNumber),
        ("packet 1 100 5 6 lost burst\n", Why::BadNumber),
        ("packet 1 100 5 6 lost\n", Why::WordCount),
        ("packet 1 100 5 burst 2\n", Why::BadNumber),
        ("packet 1 100 5\n", Why::WordCount),
        ("packet 1 100 5 6 7\n", Why::BadWord),
        ("packet 1 100 5 6 burst 0\n", Why::BadNumber),
        ("packet 1 100 5 6 burst 1000001\n", Why::BadNumber),
        ("packet 3 100 5 6\n", Why::UnknownName),
    ] {
        assert_eq!(rt;
            after_net(&rt, rt.alloc(), 0, "", line)?,
            bad(9, why),
            "{line}"
        );
    }
    Ok(())
}

#[test]
fn names_and_letters(rt: HostRuntime) -> Result<(), Fail> {
    for (line, why) in [
        ("host 1\n", Why::Repeated),
        ("host 1 x\n", Why::Repeated),
        ("switch 2 x\n", Why::Repeated),
        ("flow 1 x\n", Why::Repeated),
        (
            "flow 2 10.0.0.1 10.0.0.2 6 2 1 host 3 path 1\n",
            Why::UnknownName,
        ),
        (
            "flow 2 10.0.0.1 10.0.0.2 6 2 1 host 1 path 1 1\n",
            Why::Repeated,
        ),
        (
            "flow 2 10.0.0.1 10.0.0.2 6 2 1 host 1 path 1 3\n",
            Why::UnknownName,
        ),
        ("flow 2 10.0.0.1 10.0.0 6 2 1\n", Why::BadKey),
        ("link 3 d\n", Why::UnknownName),
        ("link 1\n", Why::WordCount),
        ("link 1 d d\n", Why::WordCount),
        ("link 1 dxz\n", Why::BadLetters),
        ("link 1 \n", Why::BadLetters),
        ("end all all\n", Why::WordCount),
        ("end 3\n", Why::UnknownName),
        ("ask 2 1 0\n", Why::UnknownName),
        ("ask 1 3 x\n", Why::UnknownName),
        ("unknown\n", Why::UnknownWord),
        ("shape 9 1 ports\n", Why::OutOfPlace),
    ] {
        assert_eq!(rt;
            after_net(&rt, rt.alloc(), 0, "", line)?,
            bad(9, why),
            "{line}"
        );
    }
    for (line, next, why) in [
        ("link 1 dxarh\n", "link 1 z\n", Why::Repeated),
        ("end all\n", "host 3\n", Why::OutOfPlace),
        ("ask 1 1 0\n", "link 1 d\n", Why::OutOfPlace),
        ("release\n", "flow x\n", Why::OutOfPlace),
        ("packet 1 1 1 1\n", "switches 3\n", Why::UnknownWord),
    ] {
        assert_eq!(rt;
            after_net(&rt, rt.alloc(), 1, line, next)?,
            bad(10, why),
            "{next}"
        );
    }
    Ok(())
}

#[test]
fn paths_and_long_words(rt: HostRuntime) -> Result<(), Fail> {
    let path =
        "switch 3\nswitch 4\nswitch 5\nswitch 6\nswitch 7\nswitch 8\nswitch 9\nswitch 10\nswitch 11\nswitch 12\nswitch 13\nswitch 14\nswitch 15\nswitch 16\nflow 2 10.0.0.1 10.0.0.2 6 2 1 host 1 path 1 2 3 4 5 6 7 8 9 10 11 12 13 14 15 16";
    for (more, why) in [
        (" x\n", Why::BadPath),
        (" 17\n", Why::BadPath),
        (" 1 1\n", Why::BadPath),
        ("\n", Why::NoDone),
    ] {
        let line = if why == Why::NoDone { 24 } else { 23 };
        assert_eq!(rt;
            after_net(&rt, rt.alloc(), 1, path, more)?,
            bad(line, why),
            "{more}"
        );
    }
    for (letters, want) in [(4096, None), (4097, bad(9, Why::BadLetters))] {
        let mut text = NET.as_bytes().to_vec(rt.alloc())?;
        text.extend_from_slice(b"link 1 ")?;
        for _ in 0..letters {
            text.push(b'h')?;
        }
        text.extend_from_slice(b"\ndone\n")?;
        assert_eq!(rt; fault(&rt, rt.alloc(), &text)?, want, "{letters}");
    }
    Ok(())
}

#[test]
fn limits(rt: HostRuntime) -> Result<(), Fail> {
    for (times, lines, more, want) in [
        (
            1,
            "packet 1 1 1 1 burst 1000000\n",
            "packet 1 1 1 1\n",
            bad(10, Why::TooMany),
        ),
        (
            1,
            "packet 1 1 1 1 burst 1000000\n",
            "packet 1 1 1 1 x\n",
            bad(10, Why::BadWord),
        ),
        (
            1,
            "packet 1 1 1 1 burst 999999\n",
            "packet 1 1 1 1\ndone\n",
            None,
        ),
        (65535, "end 1\n", "end all\n", bad(65544, Why::TooMany)),
        (65535, "end 1\n", "end 1\n", bad(65544, Why::TooMany)),
        (65535, "end 1\n", "end 1 1\n", bad(65544, Why::WordCount)),
        (65535, "end 1\n", "end 2\ndone\n", None),
        (65535, "end all\n", "end 2\n", bad(65544, Why::TooMany)),
        (
            10000,
            "ask 1 1 0\n",
            "ask 1 1 0\n",
            bad(10009, Why::TooMany),
        ),
        (
            10000,
            "ask 1 1 0\n",
            "ask 1 1\n",
            bad(10009, Why::WordCount),
        ),
        (9999, "ask 1 1 0\n", "ask 1 1 0\ndone\n", None),
    ] {
        assert_eq!(rt;
            after_net(&rt, rt.alloc(), times, lines, more)?,
            want,
            "{times} {more}"
        );
    }
    Ok(())
}

// The head of a text, that many lines of a declaration with the names from 0 on, and one more.
fn declared(
    rt: &impl Abort,
    alloc: Global,
    names: u32,
    word: &str,
    rest: &str,
    more: &str,
) -> Result<Option<ScenarioFault>, Fail> {
    let mut text = b"guardian 1\nshape 1 1 ports\npick turns\nhost 65535\nswitch 65535\n".to_vec(
        alloc,
    )?;
    for name in 0..names {
        text.extend_from_slice(word.as_bytes())?;
        text.extend_from_slice(name.to_string(alloc)?.as_bytes())?;
        text.extend_from_slice(rest.as_bytes())?;
    }
    text.extend_from_slice(more.as_bytes())?;
    fault(rt, alloc, &text)
}

#[test]
fn limits_of_declarations(rt: HostRuntime) -> Result<(), Fail> {
    let alloc = rt.alloc();
    for (names, more, want) in [
        (62, "host 63\ndone\n", None),
        (63, "host 64\ndone\n", bad(69, Why::TooMany)),
        (63, "host 0\ndone\n", bad(69, Why::Repeated)),
        (63, "host 64 1\ndone\n", bad(69, Why::WordCount)),
        (63, "switch 64\ndone\n", None),
    ] {
        assert_eq!(rt;
            declared(&rt, alloc, names, "host ", "\n", more)?,
            want,
            "{more}"
        );
    }
    for (names, more, want) in [
        (62, "switch 63\ndone\n", None),
        (63, "switch 64\ndone\n", bad(69, Why::TooMany)),
        (63, "switch 0\ndone\n", bad(69, Why::Repeated)),
        (63, "switch x\ndone\n", bad(69, Why::BadNumber)),
        (63, "host 64\ndone\n", None),
    ] {
        assert_eq!(rt;
            declared(&rt, alloc, names, "switch ", "\n", more)?,
            want,
            "{more}"
        );
    }
    let flow = " 1.2.3.4 5.6.7.8 6 2 1 host 65535 path 65535\n";
    for (names, more, want) in [
        (
            4095,
            "flow 4095 1.2.3.4 5.6.7.8 6 2 1 host 65535 path 65535\ndone\n",
            None,
        ),
        (
            4096,
            "flow 4096 1.2.3.4 5.6.7.8 6 2 1 host 65535 path 65535\ndone\n",
            bad(4102, Why::TooMany),
        ),
        (
            4096,
            "flow 4096 1.2.3.4 5.6.7.8 6 2 1 host 65535 path 65535 65535\ndone\n",
            bad(4102, Why::Repeated),
        ),
        (
            4096,
            "flow 4095 1.2.3.4 5.6.7.8 6 2 1 host 65535 path 65535\ndone\n",
            bad(4102, Why::Repeated),
        ),
        (4096, "packet 4095 1 1\nask 4095 65535 0\ndone\n", None),
    ] {
        assert_eq!(rt;
            declared(&rt, alloc, names, "flow ", flow, more)?,
            want,
            "{more}"
        );
    }
    Ok(())
}
