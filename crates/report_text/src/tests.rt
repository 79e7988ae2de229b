use crate::{
    Summary, answer_line, blank_line, damaged_line, disk_fault_line, full_line, hex_line,
    missing_line, no_memory_line, not_a_journal_line, put_answer_line, put_columns_line,
    put_full_line, put_hex_line, put_rebuilt_line, put_scenario_line, put_sketchlets_line,
    put_summary, read_fault_line, scenario_line, shape_line, usage_line,
};
use lg_model::{Answer, Dims, Hash, Shape, Value};
use scenario_lines::Why;
use sketchlet_wire::Packed;
use std::test::Fail;

#[test]
fn lines_of_answers(rt: HostRuntime) -> Result<(), Fail> {
    for (rows_known, bytes, delay, want) in [
        (
            2,
            Value::AtMost(1500),
            Value::AtMost(20),
            b"flow 1 switch 1 epoch 0 rows 2 of 2 bytes 1500 delay 20\n".as_slice(),
        ),
        (
            0,
            Value::Unknown,
            Value::Unknown,
            b"flow 1 switch 1 epoch 0 rows 0 of 2 bytes unknown delay unknown\n".as_slice(),
        ),
        (
            1,
            Value::Saturated,
            Value::AtMost(0),
            b"flow 1 switch 1 epoch 0 rows 1 of 2 bytes saturated delay 0\n".as_slice(),
        ),
        (
            2,
            Value::AtMost(4294967294),
            Value::Saturated,
            b"flow 1 switch 1 epoch 0 rows 2 of 2 bytes 4294967294 delay saturated\n".as_slice(),
        ),
    ] {
        let answer = Answer {
            rows_known,
            bytes,
            delay,
        };
        let line = answer_line(rt.alloc(), 1, 1, 0, 2, &answer)?;
        assert_eq!(rt; line.as_slice(), want);
    }
    Ok(())
}

#[test]
fn a_report_of_one_answer(rt: HostRuntime) -> Result<(), Fail> {
    let answer = Answer {
        rows_known: 8,
        bytes: Value::AtMost(10),
        delay: Value::AtMost(65534),
    };
    let mut out = Vec::new(rt.alloc());
    put_answer_line(&mut out, 65535, 65534, 4294967295, 8, &answer)?;
    put_columns_line(&mut out, 262144)?;
    assert_eq!(rt;
        out.as_slice(),
        b"flow 65535 switch 65534 epoch 4294967295 rows 8 of 8 bytes 10 delay 65534\ncolumns 262144\n".as_slice()
    );
    Ok(())
}

#[test]
fn a_summary(rt: HostRuntime) -> Result<(), Fail> {
    let summary = Summary {
        rounds: 1,
        packets: 416,
        arrived: 256,
        columns: 64,
        asks: 8,
        unknown: 0,
    };
    let mut out = Vec::new(rt.alloc());
    put_summary(&mut out, &summary)?;
    assert_eq!(rt;
        out.as_slice(),
        b"demo 1\npackets 416\narrived 256\ncolumns 64\nasks 8 unknown 0\n".as_slice()
    );
    Ok(())
}

// The 26 bytes of switch 1, epoch 0, index 0, with two rows of the sum 1500 and the maximum 20.
const WORKED: [u8; 26] =
    *b"\x4c\x47\x01\x02\x00\x01\x00\x01\x00\x00\x00\x00\x00\x00\x00\x00\x05\xdc\x00\x14\x00\x00\x05\xdc\x00\x14";

#[test]
fn a_capture_of_one_sketchlet(rt: HostRuntime) -> Result<(), Fail> {
    let mut bytes = [255; 62];
    bytes[..26].copy_from_slice(&WORKED);
    let packed = Packed { len: 26, bytes };
    let want = b"host 1 4c47010200010001000000000000000005dc0014000005dc0014\n".as_slice();
    let line = hex_line(rt.alloc(), 1, &packed)?;
    assert_eq!(rt; line.as_slice(), want);

    let mut out = Vec::new(rt.alloc());
    put_hex_line(&mut out, 1, &packed)?;
    assert_eq!(rt; out.as_slice(), want);
    put_sketchlets_line(&mut out, 1)?;
    assert_eq!(rt; &out[60..], b"sketchlets 1\n".as_slice());
    Ok(())
}

#[test]
fn fault_lines(rt: HostRuntime) -> Result<(), Fail> {
    for (line, want) in [
        (
            usage_line(),
            b"guardian: usage: guardian run, ask, list, rebuild S E, capture, make N, demo N\n".as_slice(),
        ),
        (read_fault_line(), b"guardian: read fault\n".as_slice()),
        (no_memory_line(), b"guardian: no memory\n".as_slice()),
        (disk_fault_line(), b"guardian: disk fault\n".as_slice()),
        (
            not_a_journal_line(),
            b"guardian: not a journal\n".as_slice(),
        ),
        (
            blank_line(),
            b"guardian: rebuild: the book is blank\n".as_slice(),
        ),
    ] {
        assert_eq!(rt; line, want);
    }
    let want = b"guardian: scenario line 16777217: too long\n".as_slice();
    let line = scenario_line(rt.alloc(), 16777217, Why::TooLong)?;
    assert_eq!(rt; line.as_slice(), want);

    let mut out = Vec::new(rt.alloc());
    put_scenario_line(&mut out, 1, Why::NoDone)?;
    assert_eq!(rt;
        out.as_slice(),
        b"guardian: scenario line 1: no done\n".as_slice()
    );

    let want = b"guardian: full with 262144 and 16 more\n".as_slice();
    let line = full_line(rt.alloc(), 262144, 16)?;
    assert_eq!(rt; line.as_slice(), want);

    let mut out = Vec::new(rt.alloc());
    put_full_line(&mut out, 0, 1)?;
    assert_eq!(rt;
        out.as_slice(),
        b"guardian: full with 0 and 1 more\n".as_slice()
    );
    Ok(())
}

#[test]
fn lines_of_a_book_file(rt: HostRuntime) -> Result<(), Fail> {
    let kept = Shape::new(2, 2, Hash::Ports).ok_or("no shape")?;
    let asked = Shape::new(8, 4096, Hash::Seed(18446744073709551615)).ok_or("no shape")?;
    for (line, want) in [
        (
            shape_line(rt.alloc(), &kept, &asked)?,
            b"guardian: shape 2 2 ports in the book, 8 4096 seed 18446744073709551615 asked\n".as_slice(),
        ),
        (
            damaged_line(rt.alloc(), 45)?,
            b"guardian: damaged at 45\n".as_slice(),
        ),
        (
            missing_line(rt.alloc(), 1, 0, 1, 2)?,
            b"guardian: rebuild: switch 1 epoch 0 has 1 of 2 columns\n".as_slice(),
        ),
    ] {
        assert_eq!(rt; line.as_slice(), want);
    }
    let mut out = Vec::new(rt.alloc());
    put_rebuilt_line(
        &mut out,
        65535,
        4294967295,
        Dims {
            rows: 2,
            width: 4096,
        },
    )?;
    assert_eq!(rt;
        out.as_slice(),
        b"rebuilt switch 65535 epoch 4294967295 rows 2 width 4096\n".as_slice()
    );
    Ok(())
}
