use crate::{put_field, put_number, put_shape, put_text};
use lg_model::{Hash, Shape};
use std::test::Fail;

#[test]
fn texts_and_numbers(rt: HostRuntime) -> Result<(), Fail> {
    let mut out = Vec::new(rt.alloc());
    put_text(&mut out, b"damaged at ")?;
    put_number(&mut out, 18446744073709551615)?;
    put_field(&mut out, b" of ", 0)?;
    assert_eq!(rt;
        out.as_slice(),
        b"damaged at 18446744073709551615 of 0".as_slice()
    );
    Ok(())
}

#[test]
fn shapes(rt: HostRuntime) -> Result<(), Fail> {
    for (rows, width, hash, want) in [
        (1, 1, Hash::Ports, b"shape 1 1 ports".as_slice()),
        (8, 4096, Hash::Seed(0), b"shape 8 4096 seed 0".as_slice()),
        (
            2,
            10,
            Hash::Seed(18446744073709551615),
            b"shape 2 10 seed 18446744073709551615".as_slice(),
        ),
    ] {
        let mut out = Vec::new(rt.alloc());
        put_text(&mut out, b"shape ")?;
        match Shape::new(rows, width, hash) {
            None => assert!(rt; false),
            Some(shape) => put_shape(&mut out, &shape)?,
        }
        assert_eq!(rt; out.as_slice(), want);
    }
    Ok(())
}
