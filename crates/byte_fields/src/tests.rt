//! Numbers with known bytes.

use crate::{
    numbers_are_read_back, put_u8, put_u16, put_u32, put_u64, take_u8, take_u16, take_u32, take_u64,
};
use std::test::Fail;

// 1, 515, 67438087 and 579005069656919567, one after the other.
const WORKED: [u8; 15] = [1, 2, 3, 4, 5, 6, 7, 8, 9, 10, 11, 12, 13, 14, 15];

#[test]
fn puts_and_takes_the_worked_numbers(rt: HostRuntime) -> Result<(), Fail> {
    let mut out = [255; 17];
    put_u8(&mut out, 1);
    put_u16(&mut out[1..], 0x0203);
    put_u32(&mut out[3..], 0x0405_0607);
    put_u64(&mut out[7..], 0x0809_0A0B_0C0D_0E0F);
    let mut want = [255; 17];
    want[..15].copy_from_slice(&WORKED);
    assert_eq!(rt; out, want);
    let (one, rest) = take_u8(&WORKED, "missing")?;
    let (two, rest) = take_u16(rest, "missing")?;
    let (four, rest) = take_u32(rest, "missing")?;
    let (eight, rest) = take_u64(rest, "missing")?;
    assert_eq!(rt;
        (one, two, four, eight),
        (1, 515, 67_438_087, 579_005_069_656_919_567)
    );
    assert!(rt; rest.is_empty());
    numbers_are_read_back(7);
    Ok(())
}

#[test]
fn says_what_is_missing(rt: HostRuntime) {
    for n in 0..8 {
        let bytes = &WORKED[..n];
        assert_eq!(rt;
            take_u8(bytes, n).err(),
            if n < 1 { Some(n) } else { None },
            "{n} bytes"
        );
        assert_eq!(rt;
            take_u16(bytes, n).err(),
            if n < 2 { Some(n) } else { None },
            "{n} bytes"
        );
        assert_eq!(rt;
            take_u32(bytes, n).err(),
            if n < 4 { Some(n) } else { None },
            "{n} bytes"
        );
        assert_eq!(rt; take_u64(bytes, n).err(), Some(n), "{n} bytes");
    }
}
