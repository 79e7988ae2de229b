//! Runs of small networks. The expected values are worked out by hand or come from a simulator in another language.

use crate::{Carry, run_net, run_own, run_pooled};
use column_pick::Script;
use lg_base::MemorySource;
use scenario_text::{Scenario, read};
use std::alloc::Global;
use std::process::Abort;
use std::test::Fail;

// A burst whose bytes sum to less than a counter's last value, and after the end a packet that carries the column.
const BURST: &str =
    "guardian 1\nshape 2 1 ports\npick turns\nhost 1\nswitch 1\nflow 1 10.0.0.1 10.0.0.2 6 2 1 host 1 path 1\npacket 1 65535 20 burst 65536\nend 1\npacket 1 100 5\ndone\n";

// The same with one packet more, whose bytes sum to exactly the last value.
const FULL_BURST: &str =
    "guardian 1\nshape 2 1 ports\npick turns\nhost 1\nswitch 1\nflow 1 10.0.0.1 10.0.0.2 6 2 1 host 1 path 1\npacket 1 65535 20 burst 65537\nend 1\npacket 1 100 5\ndone\n";

// The same with two packets more, so that the counter stops at its last value.
const LONG_BURST: &str =
    "guardian 1\nshape 2 1 ports\npick turns\nhost 1\nswitch 1\nflow 1 10.0.0.1 10.0.0.2 6 2 1 host 1 path 1\npacket 1 65535 20 burst 65538\nend 1\npacket 1 100 5\ndone\n";

// A path of two switches.
const TWO_HOPS: &str =
    "guardian 1\nshape 2 1 ports\npick turns\nhost 1\nswitch 1\nswitch 2\nflow 1 10.0.0.1 10.0.0.2 6 2 1 host 1 path 1 2\npacket 1 1500 20 30\nend all\npacket 1 100 5 5\npacket 1 100 5 5\ndone\n";

// The same with a packet that is lost between the two.
const LOST: &str =
    "guardian 1\nshape 2 1 ports\npick turns\nhost 1\nswitch 1\nswitch 2\nflow 1 10.0.0.1 10.0.0.2 6 2 1 host 1 path 1 2\npacket 1 1500 20 30\nend all\npacket 1 100 5 5 lost 1\npacket 1 100 5 5\ndone\n";

// Packets to two hosts: one arrives twice, one at once, and late ones at a release and at the end of the scenario.
const TWO_HOSTS: &str =
    "guardian 1\nshape 1 2 ports\npick turns\nhost 7\nhost 3\nswitch 5\nflow 1 10.0.0.1 10.0.0.2 6 2 1 host 7 path 5\nflow 2 10.0.0.1 10.0.0.2 6 3 1 host 3 path 5\npacket 1 100 10\npacket 2 50 30\nend 5\npacket 1 10 1 twice\npacket 1 10 1 late\npacket 1 10 1 late\npacket 2 10 1\nrelease\npacket 2 10 1 late\ndone\n";

// A path of two switches whose sketches have two columns.
const TWO_COLUMNS: &str =
    "guardian 1\nshape 2 2 ports\npick turns\nhost 1\nswitch 1\nswitch 2\nflow 1 10.0.0.1 10.0.0.2 6 2 1 host 1 path 1 2\npacket 1 1500 20 30\nend all\npacket 1 100 5 5\npacket 1 100 5 5\ndone\n";

// Three switches that end different numbers of epochs.
const OWN_ENDS: &str =
    "guardian 1\nshape 1 1 ports\npick turns\nhost 1\nswitch 9\nswitch 4\nswitch 6\nend 4\nend all\nend 4\nend 9\nend 4\ndone\n";

// Epochs whose columns are taken anew, at one index and by two hosts.
const THREE_EPOCHS: &str =
    "guardian 1\nshape 1 2 ports\npick turns\nhost 7\nhost 3\nswitch 5\nflow 1 10.0.0.1 10.0.0.2 6 2 1 host 7 path 5\nflow 2 10.0.0.1 10.0.0.2 6 3 1 host 3 path 5\npacket 1 100 10\nend 5\npacket 1 10 1 burst 3\npacket 2 10 1 twice\nend 5\npacket 2 10 1 burst 4\npacket 1 10 1 late\nend 5\npacket 1 10 1 burst 2\ndone\n";

// The packet, the hop, the position and the name of the switch, the epoch and the index.
type Entry = (u32, u8, u16, u16, u32, u16);

// A text, the carry list, and the bytes of the columns that come to each host.
type Case = (
    &'static str,
    &'static [Entry],
    &'static [&'static [&'static [u8]]],
);

const CASES: [Case; 6] = [
    (
        BURST,
        &[(65536, 1, 0, 1, 0, 0)],
        &[&[
            b"LG\x01\x02\x00\x01\x00\x01\x00\x00\x00\x00\x00\x00\xff\xff\x00\x00\x00\x14\xff\xff\x00\x00\x00\x14",
        ]],
    ),
    (
        FULL_BURST,
        &[(65537, 1, 0, 1, 0, 0)],
        &[&[
            b"LG\x01\x02\x00\x01\x00\x01\x00\x00\x00\x00\x00\x00\xff\xff\xff\xff\x00\x14\xff\xff\xff\xff\x00\x14",
        ]],
    ),
    (
        LONG_BURST,
        &[(65538, 1, 0, 1, 0, 0)],
        &[&[
            b"LG\x01\x02\x00\x01\x00\x01\x00\x00\x00\x00\x00\x00\xff\xff\xff\xff\x00\x14\xff\xff\xff\xff\x00\x14",
        ]],
    ),
    (
        TWO_HOPS,
        &[(1, 1, 0, 1, 0, 0), (2, 2, 1, 2, 0, 0)],
        &[&[
            b"LG\x01\x02\x00\x01\x00\x01\x00\x00\x00\x00\x00\x00\x00\x00\x05\xdc\x00\x14\x00\x00\x05\xdc\x00\x14",
            b"LG\x01\x02\x00\x01\x00\x02\x00\x00\x00\x00\x00\x00\x00\x00\x05\xdc\x00\x1e\x00\x00\x05\xdc\x00\x1e",
        ]],
    ),
    (
        LOST,
        &[(1, 1, 0, 1, 0, 0), (2, 2, 1, 2, 0, 0)],
        &[&[
            b"LG\x01\x02\x00\x01\x00\x02\x00\x00\x00\x00\x00\x00\x00\x00\x05\xdc\x00\x1e\x00\x00\x05\xdc\x00\x1e",
        ]],
    ),
    (
        TWO_HOSTS,
        &[
            (2, 1, 0, 5, 0, 0),
            (3, 1, 0, 5, 0, 1),
            (4, 1, 0, 5, 0, 0),
            (5, 1, 0, 5, 0, 1),
            (6, 1, 0, 5, 0, 0),
        ],
        &[
            &[
                b"LG\x01\x01\x00\x02\x00\x05\x00\x00\x00\x00\x00\x00\x00\x00\x00\x64\x00\x0a",
                b"LG\x01\x01\x00\x02\x00\x05\x00\x00\x00\x00\x00\x00\x00\x00\x00\x64\x00\x0a",
                b"LG\x01\x01\x00\x02\x00\x05\x00\x00\x00\x00\x00\x00\x00\x00\x00\x64\x00\x0a",
                b"LG\x01\x01\x00\x02\x00\x05\x00\x00\x00\x00\x00\x01\x00\x00\x00\x32\x00\x1e",
            ],
            &[
                b"LG\x01\x01\x00\x02\x00\x05\x00\x00\x00\x00\x00\x01\x00\x00\x00\x32\x00\x1e",
                b"LG\x01\x01\x00\x02\x00\x05\x00\x00\x00\x00\x00\x00\x00\x00\x00\x64\x00\x0a",
            ],
        ],
    ),
];

fn scenario(alloc: Global, text: &str) -> Result<Scenario, Fail> {
    let bytes = text.as_bytes().to_vec(alloc)?;
    let mut source = MemorySource::new(bytes, 4096, Vec::new(alloc));
    Ok(read(alloc, &mut source)?)
}

// The carry list is that one.
fn check_carried(rt: &impl Abort, got: &[Carry], wants: &[Entry]) {
    assert_eq!(*rt; got.len(), wants.len());
    for (carry, want) in got.iter().zip(wants) {
        let entry = (
            carry.packet,
            carry.hop,
            carry.switch_at,
            carry.switch,
            carry.epoch,
            carry.index,
        );
        assert_eq!(*rt; entry, *want);
    }
}

#[test]
fn networks_with_their_own_pickers(rt: HostRuntime) -> Result<(), Fail> {
    for (text, carried, arrived) in CASES {
        let scenario = scenario(rt.alloc(), text)?;
        let arrivals = run_own(rt.alloc(), &scenario)?;
        check_carried(&rt, arrivals.carried(), carried);

        assert_eq!(rt; scenario.hosts().len(), arrived.len());
        for (host_at, wants) in arrived.iter().enumerate() {
            let got = arrivals.arrived(host_at as u16);
            assert_eq!(rt; got.len(), wants.len(), "host {host_at}");
            for (packed, want) in got.iter().zip(*wants) {
                assert!(rt; packed.len <= 62);
                assert_eq!(rt; packed.spelled(), *want);
            }
        }
    }
    Ok(())
}

// The second switch's answer is past the width, so it is replaced by index 0, as a used-up script's is.
#[test]
fn a_script_for_each_switch(rt: HostRuntime) -> Result<(), Fail> {
    let scenario = scenario(rt.alloc(), TWO_COLUMNS)?;
    let mut pickers = Vec::new(rt.alloc());
    for answers in [[None], [Some(3)]] {
        pickers.push(Script::new(answers.to_vec(rt.alloc())?))?;
    }
    assert_eq!(rt; scenario.switches().len(), pickers.len());
    let arrivals = run_net(rt.alloc(), &scenario, &mut pickers)?;
    check_carried(
        &rt,
        arrivals.carried(),
        &[(1, 2, 1, 2, 0, 0), (2, 1, 0, 1, 0, 0)],
    );
    Ok(())
}

#[test]
fn twins_of_each_switch(rt: HostRuntime) -> Result<(), Fail> {
    let scenario = scenario(rt.alloc(), OWN_ENDS)?;
    assert_eq!(rt; scenario.switches(), [9, 4, 6].as_slice());
    let mut pickers = Vec::new(rt.alloc());
    for _switch in scenario.switches() {
        pickers.push(Script::new(Vec::new(rt.alloc())))?;
    }
    assert_eq!(rt; scenario.switches().len(), pickers.len());
    let arrivals = run_net(rt.alloc(), &scenario, &mut pickers)?;
    for (switch_at, epoch) in [(0, 2), (1, 4), (2, 1)] {
        assert_eq!(rt; arrivals.twins(switch_at).epoch(), epoch, "{switch_at}");
    }
    Ok(())
}

// The same columns come to each host in the same order, and a column that comes more than once is packed once.
#[test]
fn columns_are_kept_once(rt: HostRuntime) -> Result<(), Fail> {
    for (text, columns) in [(TWO_HOPS, 2), (LOST, 2), (TWO_HOSTS, 2), (THREE_EPOCHS, 6)] {
        let scenario = scenario(rt.alloc(), text)?;
        let own = run_own(rt.alloc(), &scenario)?;
        let pooled = run_pooled(rt.alloc(), &scenario)?;
        assert_eq!(rt; pooled.kept().len(), columns);

        for host_at in 0..scenario.hosts().len() {
            let wants = own.arrived(host_at as u16);
            let got = pooled.arrived(host_at as u16);
            assert_eq!(rt; got.len(), wants.len(), "host {host_at}");
            for (position, want) in got.iter().zip(wants) {
                assert_eq!(rt; pooled.kept()[*position as usize], *want);
            }
        }
    }
    Ok(())
}
