//! Sketchlets with known bytes.

use crate::{
    Bucket, Column, Dims, Key, Packed, Upload, WireFault, decode, encode, fields_are_read_back,
    holds, put_cells, put_key, put_shape, spellings_are_apart, take_cells, take_key, take_shape,
    worked_bytes,
};
use lg_model::{Hash, Shape};
use std::test::Fail;

// Switch 1, epoch 0, index 0, two rows of width 1, each with the sum 1500 and the maximum 20.
const WORKED: [u8; 26] =
    *b"\x4c\x47\x01\x02\x00\x01\x00\x01\x00\x00\x00\x00\x00\x00\x00\x00\x05\xdc\x00\x14\x00\x00\x05\xdc\x00\x14";

const BUCKET: Bucket = Bucket {
    bytes: 1500,
    delay: 20,
};

fn key(index: u16) -> Key {
    Key {
        switch: 1,
        epoch: 0,
        index,
    }
}

#[test]
fn writes_the_worked_column(rt: HostRuntime) -> Result<(), Fail> {
    let dims = Dims { rows: 2, width: 1 };
    let column = Column::new(key(0), dims, [BUCKET; 8]).ok_or("no column")?;
    let mut out = [255; 62];
    assert_eq!(rt; encode(&column, &mut out), 26);
    let mut want = [255; 62];
    want[..26].copy_from_slice(&WORKED);
    assert_eq!(rt; out, want);
    let packed = Packed::of(&column);
    assert_eq!(rt; packed.spelled(), WORKED.as_slice());
    let (read, len) = packed.column()?;
    assert_eq!(rt; len, 26);
    assert!(rt; read.is_same(&column));
    let other = Column::new(
        key(0),
        dims,
        [Bucket {
            bytes: 1500,
            delay: 21,
        }; 8],
    )
    .ok_or("no column")?;
    assert!(rt; !read.is_same(&other));
    spellings_are_apart();
    worked_bytes();
    Ok(())
}

#[test]
fn reads_the_worked_bytes(rt: HostRuntime) -> Result<(), Fail> {
    let (column, len) = decode(&WORKED)?;
    assert_eq!(rt; len, 26);
    assert_eq!(rt; column.key(), key(0));
    assert_eq!(rt; column.dims(), Dims { rows: 2, width: 1 });
    for row in 0..2 {
        assert!(rt; row < column.dims().rows);
        assert_eq!(rt; column.bucket(row), BUCKET, "row {row}");
    }
    Ok(())
}

#[test]
fn refuses_other_bytes(rt: HostRuntime) {
    for n in 0..26 {
        assert_eq!(rt;
            decode(&WORKED[..n]).err(),
            Some(WireFault::Short),
            "{n} bytes"
        );
    }
    for (at, byte, fault) in [
        (0, 0, WireFault::NotSketchlet { at: 0 }),
        (1, 0, WireFault::NotSketchlet { at: 1 }),
        (2, 2, WireFault::NotSketchlet { at: 2 }),
        (3, 0, WireFault::BadRows { rows: 0 }),
        (3, 9, WireFault::BadRows { rows: 9 }),
        (5, 0, WireFault::BadWidth { width: 0 }),
        (4, 16, WireFault::BadWidth { width: 4097 }),
        (13, 1, WireFault::BadIndex { index: 1 }),
        (3, 3, WireFault::Short),
    ] {
        let mut bytes = WORKED;
        bytes[at] = byte;
        assert_eq!(rt; decode(&bytes).err(), Some(fault), "byte {at} is {byte}");
    }
}

#[test]
fn makes_columns_within_their_ranges(rt: HostRuntime) {
    for (rows, width, index, is_column) in [
        (1, 1, 0, true),
        (8, 4096, 4095, true),
        (0, 1, 0, false),
        (9, 1, 0, false),
        (1, 0, 0, false),
        (1, 4097, 0, false),
        (1, 1, 1, false),
        (8, 4096, 4096, false),
    ] {
        let made = Column::new(key(index), Dims { rows, width }, [BUCKET; 8]);
        assert_eq!(rt;
            made.is_some(),
            is_column,
            "{rows} rows, width {width}, index {index}"
        );
    }
}

#[test]
fn takes_one_to_sixteen_columns(rt: HostRuntime) -> Result<(), Fail> {
    for (count, last, is_upload) in [
        (0, 0, false),
        (1, 0, true),
        (2, 0, false),
        (16, 15, true),
        (17, 16, false),
    ] {
        let mut columns = Vec::new(rt.alloc());
        for n in 0..count {
            let index = if n + 1 == count { last } else { n };
            columns.push(Column::new(key(index), Dims { rows: 2, width: 32 }, [BUCKET; 8]).ok_or(
                "no column",
            )?)?;
        }
        match Upload::new(7, 3, columns) {
            Ok(upload) => {
                assert!(rt; is_upload, "{count} columns");
                assert_eq!(rt; (upload.host(), upload.seq()), (7, 3));
                assert_eq!(rt; upload.columns().len(), count as usize);
                assert_eq!(rt; holds(upload.columns(), &key(last)), true);
                assert_eq!(rt; holds(upload.columns(), &key(31)), false);
            }
            Err(columns) => {
                assert!(rt; !is_upload, "{count} columns");
                assert_eq!(rt; columns.len(), count as usize);
            }
        }
    }
    Ok(())
}

#[test]
fn puts_and_takes_keys_and_cells(rt: HostRuntime) -> Result<(), Fail> {
    let column = Column::new(key(0), Dims { rows: 2, width: 1 }, [BUCKET; 8]).ok_or("no column")?;
    let mut key_bytes = [255; 8];
    put_key(&mut key_bytes, column.key());
    assert_eq!(rt; key_bytes.as_slice(), &WORKED[6..14]);
    let mut cells = [255; 48];
    assert_eq!(rt; put_cells(&mut cells, &column), 12);
    let mut want = [255; 48];
    want[..12].copy_from_slice(&WORKED[14..]);
    assert_eq!(rt; cells, want);
    let (read, rest) = take_key(&WORKED[6..], "missing")?;
    assert_eq!(rt; read, key(0));
    let (buckets, rest) = take_cells(2, rest, "missing")?;
    assert_eq!(rt; &buckets, column.filled());
    assert!(rt; rest.is_empty());
    assert_eq!(rt; take_key(&WORKED[..7], "missing").err(), Some("missing"));
    assert_eq!(rt;
        take_cells(2, &WORKED[..11], "missing").err(),
        Some("missing")
    );
    fields_are_read_back("missing", "bad");
    Ok(())
}

#[test]
fn puts_and_takes_shapes(rt: HostRuntime) {
    for (hash, kind, seed) in [
        (Hash::Ports, 0, 0),
        (Hash::Seed(7), 1, 7),
        (Hash::Seed(0), 1, 0),
    ] {
        let want = [2, 16, 0, kind, 0, 0, 0, 0, 0, 0, 0, seed];
        let shape = Shape::new(2, 4096, hash);
        assert!(rt; shape.is_some());
        if let Some(shape) = shape {
            let mut out = [255; 12];
            put_shape(&mut out, &shape);
            assert_eq!(rt; out, want);
        }
        match take_shape(&want, "missing", "bad") {
            Ok((read, rest)) => {
                assert_eq!(rt; Some(read), shape);
                assert!(rt; rest.is_empty());
            }
            Err(fault) => assert_eq!(rt; fault, "none"),
        }
        for n in 0..12 {
            assert_eq!(rt; fault_of(&want[..n]), "missing", "{n} bytes");
        }
    }
    for (at, byte) in [(0, 0), (0, 9), (1, 17), (2, 0), (3, 2), (11, 1)] {
        let mut bytes = [2, 0, 1, 0, 0, 0, 0, 0, 0, 0, 0, 0];
        bytes[at] = byte;
        assert_eq!(rt; fault_of(&bytes), "bad", "byte {at} is {byte}");
    }
}

fn fault_of(bytes: &[u8]) -> &'static str {
    match take_shape(bytes, "missing", "bad") {
        Ok(_) => "none",
        Err(fault) => fault,
    }
}
