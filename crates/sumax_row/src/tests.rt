use crate::{Bucket, step};

const ZERO: Bucket = Bucket { bytes: 0, delay: 0 };

// A row of three buckets, of which the middle one counted so much.
fn row(bytes: u32, delay: u16) -> [Bucket; 3] {
    [ZERO, Bucket { bytes, delay }, ZERO]
}

#[test]
fn three_rows_one_after_the_other(rt: HostRuntime) {
    let mut running = u32::MAX;
    for (old, least, new) in [(10, 10, 15), (4, 4, 9), (9, 4, 9)] {
        let mut row = row(old, 7);
        running = step(&mut row, 1, 5, 3, running);
        assert_eq!(rt; running, least, "{old}");
        assert_eq!(rt;
            row,
            [
                ZERO,
                Bucket {
                    bytes: new,
                    delay: 7
                },
                ZERO
            ],
            "{old}"
        );
    }
}

#[test]
fn sums_stand_still_at_their_last_value(rt: HostRuntime) {
    let mut running = u32::MAX;
    for old in [4294967294, 4294967295] {
        let mut row = row(old, 0);
        running = step(&mut row, 1, 3, 0, running);
        assert_eq!(rt; running, 4294967294, "{old}");
        assert_eq!(rt; row[1].bytes, 4294967295, "{old}");
    }
}

#[test]
fn maxima_stand_still_at_their_last_value(rt: HostRuntime) {
    for (old, delay, new) in [
        (0, 65534, 65534),
        (0, 65535, 65535),
        (0, 70000, 65535),
        (9, 8, 9),
        (9, 10, 10),
    ] {
        let mut row = row(0, old);
        assert_eq!(rt; step(&mut row, 1, 1, delay, u32::MAX), 0);
        assert_eq!(rt; row[1].delay, new, "{old} {delay}");
    }
}
