use crate::{FlowKey, words};

const PLAIN: FlowKey = FlowKey {
    src: [10, 0, 0, 1],
    dst: [10, 0, 0, 2],
    proto: 6,
    sport: 2,
    dport: 1,
};

const LONGEST: FlowKey = FlowKey {
    src: [255, 255, 255, 255],
    dst: [255, 255, 255, 255],
    proto: 255,
    sport: 65535,
    dport: 65535,
};

const MIXED: FlowKey = FlowKey {
    src: [192, 168, 0, 10],
    dst: [0, 99, 100, 255],
    proto: 17,
    sport: 53,
    dport: 40000,
};

#[test]
fn a_key_and_its_text(rt: HostRuntime) {
    for (key, text) in [
        (PLAIN, "10.0.0.1 10.0.0.2 6 2 1"),
        (LONGEST, "255.255.255.255 255.255.255.255 255 65535 65535"),
        (MIXED, "192.168.0.10 0.99.100.255 17 53 40000"),
    ] {
        let mut out = [0; 47];
        let length = key.print(&mut out);
        assert_eq!(rt; &out[..length], text.as_bytes(), "{text}");
        assert_eq!(rt; FlowKey::parse(text.as_bytes()), Some(key), "{text}");
    }
    assert_eq!(rt; LONGEST.print(&mut [0; 47]), 47);
}

#[test]
fn a_key_and_its_bytes(rt: HostRuntime) {
    for (key, bytes) in [
        (PLAIN, [10, 0, 0, 1, 10, 0, 0, 2, 6, 0, 2, 0, 1]),
        (LONGEST, [255; 13]),
        (
            MIXED,
            [192, 168, 0, 10, 0, 99, 100, 255, 17, 0, 53, 156, 64],
        ),
    ] {
        assert_eq!(rt; key.to_bytes(), bytes);
        assert_eq!(rt; FlowKey::from_bytes(&bytes), key);
    }
}

#[test]
fn texts_of_no_key(rt: HostRuntime) {
    for text in [
        "",
        " ",
        "10.0.0.1 10.0.0.2 6 2",
        "10.0.0.1 10.0.0.2 6 2 1 1",
        "10.0.0.1 10.0.0.2 6 2 1 ",
        " 10.0.0.1 10.0.0.2 6 2 1",
        "10.0.0.1  10.0.0.2 6 2 1",
        "10.0.0.1\t10.0.0.2 6 2 1",
        "10.0.0.1,10.0.0.2 6 2 1",
        "10.0.0.01 10.0.0.2 6 2 1",
        "10.0.0.256 10.0.0.2 6 2 1",
        "10.0.0 10.0.0.2 6 2 1",
        "10.0.0.1.1 10.0.0.2 6 2 1",
        "10.0..1 10.0.0.2 6 2 1",
        "10.0.0.1 10.0.0.2 06 2 1",
        "10.0.0.1 10.0.0.2 256 2 1",
        "10.0.0.1 10.0.0.2 6 +1 1",
        "10.0.0.1 10.0.0.2 6 -1 1",
        "10.0.0.1 10.0.0.2 6 65536 1",
        "10.0.0.1 10.0.0.2 6 2 18446744073709551617",
        "10.0.0.1 10.0.0.2 6 2 x",
        "10.0.0.1 10.0.0.2 6 2 1\n",
    ] {
        assert_eq!(rt; FlowKey::parse(text.as_bytes()), None, "{text}");
    }
}

#[test]
fn words_of_a_text(rt: HostRuntime) {
    for (text, word, rest) in [
        ("flow 1 x", "flow", Some("1 x")),
        ("flow ", "flow", Some("")),
        (" flow", "", Some("flow")),
        ("flow", "flow", None),
        ("", "", None),
    ] {
        let (first, left) = words::cut(text.as_bytes(), b' ');
        assert_eq!(rt; first, word.as_bytes(), "{text}");
        assert_eq!(rt; left, rest.map(|rest| rest.as_bytes()), "{text}");
    }
    assert!(rt; words::is(b"host", b"host"));
    assert!(rt; !words::is(b"Host", b"host"));
    assert!(rt; !words::is(b"hosts", b"host"));
}

#[test]
fn numbers_and_addresses(rt: HostRuntime) {
    for (word, most, number) in [
        ("0", 0, Some(0)),
        ("255", 255, Some(255)),
        ("256", 255, None),
        ("18446744073709551615", u64::MAX, Some(u64::MAX)),
        ("18446744073709551616", u64::MAX, None),
        ("00", 255, None),
        ("01", 255, None),
        ("+1", 255, None),
        ("1x", 255, None),
        ("", 255, None),
    ] {
        assert_eq!(rt; words::number(word.as_bytes(), most), number, "{word}");
    }
    assert_eq!(rt; words::address(b"10.0.0.1"), Some([10, 0, 0, 1]));
    assert_eq!(rt; words::address(b"10.0.0.256"), None);
    assert_eq!(rt; words::address(b"10.0.0.1 "), None);
}

#[test]
fn numbers_in_front(rt: HostRuntime) {
    for (text, most, number, rest) in [
        ("255 1 x", 255, Some(255), Some("1 x")),
        ("255 ", 255, Some(255), Some("")),
        ("255", 255, Some(255), None),
        ("0 x", 0, Some(0), Some("x")),
        (
            "18446744073709551615 x",
            u64::MAX,
            Some(u64::MAX),
            Some("x"),
        ),
        ("18446744073709551616 x", u64::MAX, None, None),
        ("256 x", 255, None, None),
        ("00 x", 255, None, None),
        ("01", 255, None, None),
        ("+1 x", 255, None, None),
        ("1x 2", 255, None, None),
        (" 1", 255, None, None),
        ("", 255, None, None),
    ] {
        let found = words::number_cut(text.as_bytes(), b' ', most);
        assert_eq!(rt; found.map(|found| found.0), number, "{text}");
        assert_eq!(rt;
            found.and_then(|found| found.1),
            rest.map(|rest| rest.as_bytes()),
            "{text}"
        );
    }
}
