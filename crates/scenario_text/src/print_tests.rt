//! Texts that are printed.

use crate::tests::source;
use crate::{print, printed_is_read, read};
use std::test::Fail;

// A text with every form of a line, as it is printed.
const ALL: &str =
    "guardian 1\nshape 2 8 seed 5\npick chance 7\nhost 1\nhost 2\nswitch 1\nswitch 2\nflow 1 10.0.0.1 10.0.0.2 6 2 1 host 2 path 2 1\nflow 2 1.2.3.4 255.255.255.255 255 65535 0 host 1 path 1\nlink 2 dxarh\npacket 1 1500 20 4294967295\npacket 2 0 0 burst 7\npacket 1 64 1 2 burst 1000 lost 1\npacket 2 64 3 twice\npacket 1 64 1 2 burst 2 late\nend 1\nend all\nrelease\nask 1 2 0\nask 2 1 4294967295\ndone\n";

// The same scenario, written otherwise.
const OTHERWISE: &str =
    "# a scenario\nguardian 1\r\n\nshape 2 8 seed 5\npick chance 7\nswitch 1\nhost 1\nswitch 2\nhost 2\nlink 2 dxarh\nflow 1 10.0.0.1 10.0.0.2 6 2 1 host 2 path 2 1\nflow 2 1.2.3.4 255.255.255.255 255 65535 0 host 1 path 1\nask 1 2 0\npacket 1 1500 20 4294967295 burst 1\npacket 2 0 0 burst 7\npacket 1 64 1 2 burst 1000 lost 1\nask 2 1 4294967295\npacket 2 64 3 twice\npacket 1 64 1 2 burst 2 late\nend 1\n# all\nend all\nrelease\ndone\nmore\n";

#[test]
fn printed_texts(rt: HostRuntime) -> Result<(), Fail> {
    for (text, want) in [
        (ALL, ALL),
        (OTHERWISE, ALL),
        (
            "guardian 1\nshape 8 4096 ports\npick turns\ndone",
            "guardian 1\nshape 8 4096 ports\npick turns\ndone\n",
        ),
    ] {
        let mut written = source(rt.alloc(), text.as_bytes(), 7)?;
        let scenario = read(rt.alloc(), &mut written)?;
        let printed = print(rt.alloc(), &scenario)?;
        assert_eq!(rt; printed.as_slice(), want.as_bytes());
        let mut again = source(rt.alloc(), &printed, 4096)?;
        let same = read(rt.alloc(), &mut again)?;
        assert_eq!(rt; print(rt.alloc(), &same)?.as_slice(), want.as_bytes());
    }
    printed_is_read();
    Ok(())
}
