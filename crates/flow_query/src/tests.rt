use crate::{Answer, RebuildFault, Value, answer, answers_are_exact, rebuild};
use column_book::{Book, ROOM};
use flow_key::FlowKey;
use lg_model::{Bucket, Dims, Hash, Key};
use row_hash::Shape;
use sketchlet_wire::{Column, Upload};
use std::alloc::Global;
use std::test::Fail;

const ZERO: Bucket = Bucket { bytes: 0, delay: 0 };

// Column 0 or 1 of switch 1 and epoch 0, with these buckets in rows 0 and 1.
fn column(index: u16, first: Bucket, second: Bucket) -> Option<Column> {
    let key = Key {
        switch: 1,
        epoch: 0,
        index,
    };
    let buckets = [first, second, ZERO, ZERO, ZERO, ZERO, ZERO, ZERO];
    Column::new(key, Dims { rows: 2, width: 2 }, buckets)
}

// Stores an upload of one column.
fn keep(book: &mut Book, alloc: Global, column: Option<Column>) -> Result<(), Fail> {
    let mut columns = Vec::new(alloc);
    columns.push(column.ok_or("no column")?)?;
    let Ok(upload) = Upload::new(1, 0, columns) else {
        return Err("no upload".into());
    };
    match book.check(&upload) {
        Ok(mask) => {
            if mask > 0 {
                book.reserve(&upload)?;
                book.add(0, &upload);
            }
            Ok(())
        }
        Err(_) => Err("refused".into()),
    }
}

// A flow of these ports. By its ports its places are `sport % 2` in row 0 and `(sport + dport) % 2` in row 1.
fn flow(sport: u16, dport: u16) -> FlowKey {
    FlowKey {
        src: [10, 0, 0, 1],
        dst: [10, 0, 0, 2],
        proto: 6,
        sport,
        dport,
    }
}

const UNKNOWN: Answer = Answer {
    rows_known: 0,
    bytes: Value::Unknown,
    delay: Value::Unknown,
};

fn says(rows_known: u8, bytes: u32, delay: u32) -> Answer {
    Answer {
        rows_known,
        bytes: Value::AtMost(bytes),
        delay: Value::AtMost(delay),
    }
}

#[test]
fn two_rows_one_and_none(rt: HostRuntime) -> Result<(), Fail> {
    let shape = Shape::new(2, 2, Hash::Ports).ok_or("no shape")?;
    let mut book = Book::new(rt.alloc(), &shape, ROOM)?;
    let first = Bucket {
        bytes: 150,
        delay: 30,
    };
    let second = Bucket {
        bytes: 50,
        delay: 30,
    };
    assert_eq!(rt; answer(&book, 1, 0, &flow(2, 2)), UNKNOWN);

    // Column 0 alone: the flows stand at the places (0,1), (0,0) and (1,1).
    keep(&mut book, rt.alloc(), column(0, first, second))?;
    for (sport, dport, want) in [
        (2, 1, says(1, 150, 30)),
        (2, 2, says(2, 50, 30)),
        (3, 2, UNKNOWN),
    ] {
        assert_eq!(rt;
            answer(&book, 1, 0, &flow(sport, dport)),
            want,
            "{sport} {dport}"
        );
        assert_eq!(rt; answer(&book, 1, 1, &flow(sport, dport)), UNKNOWN);
        assert_eq!(rt; answer(&book, 2, 0, &flow(sport, dport)), UNKNOWN);
    }

    // Both columns: each counter is the least for itself, and a known zero isn't unknown.
    let third = Bucket {
        bytes: 100,
        delay: 10,
    };
    keep(&mut book, rt.alloc(), column(1, ZERO, third))?;
    for (sport, dport, want) in [
        (2, 1, says(2, 100, 10)),
        (2, 2, says(2, 50, 30)),
        (3, 2, says(2, 0, 0)),
        (3, 1, says(2, 0, 0)),
    ] {
        assert_eq!(rt;
            answer(&book, 1, 0, &flow(sport, dport)),
            want,
            "{sport} {dport}"
        );
    }
    answers_are_exact();
    Ok(())
}

#[test]
fn saturated_at_the_last_value(rt: HostRuntime) -> Result<(), Fail> {
    for (bytes, delay, want_bytes, want_delay) in [
        (
            4294967294,
            65534,
            Value::AtMost(4294967294),
            Value::AtMost(65534),
        ),
        (4294967295, 65534, Value::Saturated, Value::AtMost(65534)),
        (
            4294967294,
            65535,
            Value::AtMost(4294967294),
            Value::Saturated,
        ),
        (65535, 65535, Value::AtMost(65535), Value::Saturated),
    ] {
        let shape = Shape::new(2, 2, Hash::Ports).ok_or("no shape")?;
        let mut book = Book::new(rt.alloc(), &shape, ROOM)?;
        let last = Bucket {
            bytes: 4294967295,
            delay: 65535,
        };
        keep(
            &mut book,
            rt.alloc(),
            column(0, last, Bucket { bytes, delay }),
        )?;
        let want = Answer {
            rows_known: 2,
            bytes: want_bytes,
            delay: want_delay,
        };
        assert_eq!(rt; answer(&book, 1, 0, &flow(2, 2)), want, "{bytes} {delay}");
        let want = Answer {
            rows_known: 1,
            bytes: Value::Saturated,
            delay: Value::Saturated,
        };
        assert_eq!(rt; answer(&book, 1, 0, &flow(2, 1)), want, "one row");
    }
    Ok(())
}

#[test]
fn rebuilt_where_all_columns_are_there(rt: HostRuntime) -> Result<(), Fail> {
    let shape = Shape::new(2, 2, Hash::Ports).ok_or("no shape")?;
    let mut book = Book::new(rt.alloc(), &shape, ROOM)?;
    let bucket = |bytes, delay| Bucket { bytes, delay };
    let table = [
        [bucket(150, 30), bucket(50, 30)],
        [bucket(5, 1), bucket(100, 10)],
    ];
    for (index, known) in [(0, 1), (1, 2)] {
        let [first, second] = table[index];
        keep(&mut book, rt.alloc(), column(index as u16, first, second))?;
        for (switch, epoch, known) in [(1, 0, known), (1, 1, 0), (2, 0, 0)] {
            match rebuild(rt.alloc(), &book, switch, epoch) {
                Ok(_) => assert_eq!(rt; known, 2),
                Err(fault) => assert_eq!(rt; fault, RebuildFault::Missing { known }),
            }
        }
    }
    let Ok(sketch) = rebuild(rt.alloc(), &book, 1, 0) else {
        return Err("not rebuilt".into());
    };
    assert_eq!(rt; sketch.shape(), shape);
    for index in 0..sketch.shape().width() {
        let column = sketch.column(index);
        assert_eq!(rt;
            [column[0], column[1]],
            table[(index % 2) as usize],
            "column {index}"
        );
    }
    Ok(())
}
