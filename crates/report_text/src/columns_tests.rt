use crate::{acked_line, column_line, put_conflict_line, row_line};
use lg_model::{Bucket, Dims, Hash, Key, Shape};
use sketchlet_wire::Column;
use std::test::Fail;
use sumax_sketch::Sketch;

#[test]
fn lines_of_columns_rows_and_uploads(rt: HostRuntime) -> Result<(), Fail> {
    let bucket = |bytes, delay| Bucket { bytes, delay };
    let mut first = [bucket(0, 0); 8];
    (first[0], first[1]) = (bucket(150, 30), bucket(50, 30));
    let mut second = [bucket(0, 0); 8];
    (second[0], second[1]) = (bucket(5, 1), bucket(100, 10));
    let key = Key {
        switch: 65535,
        epoch: 7,
        index: 0,
    };
    let column = Column::new(key, Dims { rows: 2, width: 2 }, first).ok_or("no column")?;
    assert_eq!(rt;
        column_line(rt.alloc(), &column)?.as_slice(),
        b"column 65535 7 0 150 30 50 30\n".as_slice()
    );

    let other = Column::new(key, Dims { rows: 2, width: 2 }, second).ok_or("no column")?;
    let mut line = Vec::new(rt.alloc());
    put_conflict_line(&mut line, &key, &column, &other)?;
    assert_eq!(rt;
        line.as_slice(),
        b"guardian: conflict at switch 65535 epoch 7 column 0 kept 150 30 50 30 came 5 1 100 10\n".as_slice()
    );

    let shape = Shape::new(2, 2, Hash::Ports).ok_or("no shape")?;
    let mut sketch = Sketch::new(rt.alloc(), &shape)?;
    sketch.set_column(0, &first);
    sketch.set_column(1, &second);
    for (row, want) in [
        (0, b"row 0 150 30 5 1\n".as_slice()),
        (1, b"row 1 50 30 100 10\n".as_slice()),
    ] {
        assert_eq!(rt; row_line(rt.alloc(), &sketch, row)?.as_slice(), want);
    }

    assert_eq!(rt;
        acked_line(rt.alloc(), 1, 4294967295)?.as_slice(),
        b"acked 1 4294967295\n".as_slice()
    );
    Ok(())
}
