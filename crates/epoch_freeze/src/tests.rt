use crate::Twins;
use flow_key::FlowKey;
use row_hash::{Hash, Shape, places};
use std::test::Fail;
use sumax_sketch::Bucket;

const ZERO: Bucket = Bucket { bytes: 0, delay: 0 };

const KEY: FlowKey = FlowKey {
    src: [10, 0, 0, 1],
    dst: [10, 0, 0, 2],
    proto: 6,
    sport: 2,
    dport: 1,
};

#[test]
fn one_packet_and_two_ends(rt: HostRuntime) -> Result<(), Fail> {
    let shape = Shape::new(1, 4, Hash::Ports).ok_or("no shape")?;
    let counted = Bucket {
        bytes: 100,
        delay: 7,
    };
    let mut twins = Twins::new(rt.alloc(), &shape)?;
    assert_eq!(rt; twins.epoch(), 0);
    assert!(rt; twins.frozen().is_none());
    assert_eq!(rt; twins.width(), 4);
    assert_eq!(rt; twins.shape(), shape);

    twins.see(&places(&shape, &KEY), 100, 7, 1);
    assert_eq!(rt; twins.current().bucket(0, 2), counted);

    twins.end();
    assert_eq!(rt; twins.epoch(), 1);
    assert_eq!(rt; twins.current().bucket(0, 2), ZERO);
    let frozen = twins.frozen().ok_or("no frozen sketch")?;
    assert_eq!(rt; frozen.bucket(0, 2), counted);

    twins.end();
    assert_eq!(rt; twins.epoch(), 2);
    let frozen = twins.frozen().ok_or("no frozen sketch")?;
    for index in 0..4 {
        assert_eq!(rt; frozen.bucket(0, index), ZERO, "{index}");
        assert_eq!(rt; twins.current().bucket(0, index), ZERO, "{index}");
    }
    Ok(())
}

#[test]
fn counts_of_what_is_put_out(rt: HostRuntime) -> Result<(), Fail> {
    let shape = Shape::new(2, 3, Hash::Seed(7)).ok_or("no shape")?;
    let mut twins = Twins::new(rt.alloc(), &shape)?;
    twins.end();
    twins.put_out(1);
    twins.put_out(1);
    assert_eq!(rt; twins.put_count(), 2);
    for (index, times) in [(0, 0), (1, 2), (2, 0)] {
        assert_eq!(rt; twins.times_out(index), times, "{index}");
    }
    twins.end();
    assert_eq!(rt; twins.put_count(), 0);
    for index in 0..3 {
        assert_eq!(rt; twins.times_out(index), 0, "{index}");
    }
    Ok(())
}
