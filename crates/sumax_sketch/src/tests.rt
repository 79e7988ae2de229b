use crate::{Bucket, Sketch};
use flow_key::FlowKey;
use row_hash::{Hash, Shape, places};
use std::test::Fail;

const ZERO: Bucket = Bucket { bytes: 0, delay: 0 };

fn bucket(bytes: u32, delay: u16) -> Bucket {
    Bucket { bytes, delay }
}

// By ports and with 4 buckets a row, its places are `sport % 4`, `(sport + dport) % 4` and so on.
fn key(sport: u16, dport: u16) -> FlowKey {
    FlowKey {
        src: [10, 0, 0, 1],
        dst: [10, 0, 0, 2],
        proto: 6,
        sport,
        dport,
    }
}

// The flows have the places 2, 3 and 2, 0: they share one bucket.
#[test]
fn two_flows_in_two_rows(rt: HostRuntime) -> Result<(), Fail> {
    let shape = Shape::new(2, 4, Hash::Ports).ok_or("no shape")?;
    let mut sketch = Sketch::new(rt.alloc(), &shape)?;
    assert_eq!(rt; sketch.bucket(1, 3), ZERO);
    sketch.update(&places(&shape, &key(2, 1)), 100, 7);
    assert_eq!(rt; sketch.bucket(0, 2), bucket(100, 7));
    assert_eq!(rt; sketch.bucket(1, 3), bucket(100, 7));
    sketch.update(&places(&shape, &key(2, 2)), 50, 9);
    for (index, want) in [
        (0, [ZERO, bucket(50, 9), ZERO, ZERO, ZERO, ZERO, ZERO, ZERO]),
        (1, [ZERO; 8]),
        (
            2,
            [bucket(150, 9), ZERO, ZERO, ZERO, ZERO, ZERO, ZERO, ZERO],
        ),
        (
            3,
            [ZERO, bucket(100, 7), ZERO, ZERO, ZERO, ZERO, ZERO, ZERO],
        ),
    ] {
        assert_eq!(rt; sketch.column(index), want, "{index}");
    }
    sketch.clear();
    for index in 0..4 {
        assert_eq!(rt; sketch.column(index), [ZERO; 8], "{index}");
    }
    assert_eq!(rt; sketch.shape(), shape);
    Ok(())
}

#[test]
fn buckets_past_the_rows_are_ignored(rt: HostRuntime) -> Result<(), Fail> {
    let shape = Shape::new(3, 5, Hash::Seed(1)).ok_or("no shape")?;
    let mut sketch = Sketch::new(rt.alloc(), &shape)?;
    let [a, b, c] = [bucket(1, 2), bucket(3, 4), bucket(u32::MAX, u16::MAX)];
    sketch.set_column(4, &[a, b, c, a, b, c, a, b]);
    assert_eq!(rt; sketch.column(4), [a, b, c, ZERO, ZERO, ZERO, ZERO, ZERO]);
    assert_eq!(rt; sketch.column(3), [ZERO; 8]);
    Ok(())
}

// The second flow shares a bucket with the first, so that the least sum is not that of row 0.
#[test]
fn a_burst_is_as_many_packets(rt: HostRuntime) -> Result<(), Fail> {
    let shape = Shape::new(2, 4, Hash::Ports).ok_or("no shape")?;
    let first = places(&shape, &key(2, 2));
    let second = places(&shape, &key(2, 1));
    for size in [0, 100, 65535] {
        let mut at_once = Sketch::new(rt.alloc(), &shape)?;
        at_once.update(&first, 150, 9);
        at_once.update_burst(&second, size, 7, 3);
        let mut one_by_one = Sketch::new(rt.alloc(), &shape)?;
        one_by_one.update(&first, 150, 9);
        one_by_one.update(&second, u32::from(size), 7);
        one_by_one.update(&second, u32::from(size), 7);
        one_by_one.update(&second, u32::from(size), 7);
        for index in 0..4 {
            assert_eq!(rt;
                at_once.column(index),
                one_by_one.column(index),
                "{size} {index}"
            );
        }
    }
    Ok(())
}
