use crate::{Book, BookFault, Column, Head, Key, ROOM, Shape, Upload};
use lg_model::{Bucket, Dims, Hash};
use sketchlet_wire::holds;
use std::alloc::Global;
use std::test::Fail;

fn key(switch: u16, epoch: u32, index: u16) -> Key {
    Key {
        switch,
        epoch,
        index,
    }
}

fn column(key: Key, rows: u8, width: u16, bytes: u32) -> Option<Column> {
    Column::new(key, Dims { rows, width }, [Bucket { bytes, delay: 20 }; 8])
}

fn upload(alloc: Global, seq: u32, columns: &[Column]) -> Result<Upload, Fail> {
    let mut list = Vec::new(alloc);
    for column in columns {
        list.push(*column)?;
    }
    match Upload::new(1, seq, list) {
        Ok(upload) => Ok(upload),
        Err(_) => Err("no upload".into()),
    }
}

// Checks, reserves and adds. The mask, or the fault.
fn put(book: &mut Book, upload: &Upload) -> Result<Result<u16, BookFault>, Fail> {
    let mask = match book.check(upload) {
        Ok(mask) => mask,
        Err(fault) => return Ok(Err(fault)),
    };
    if mask > 0 {
        book.reserve(upload)?;
        book.add(0, upload);
    }
    Ok(Ok(mask))
}

#[test]
fn stores_refuses_and_knows(rt: HostRuntime) -> Result<(), Fail> {
    let shape = Shape::new(2, 1, Hash::Ports).ok_or("no shape")?;
    let mut book = Book::new(rt.alloc(), &shape, 1)?;
    let first = column(key(1, 0, 0), 2, 1, 1500).ok_or("no column")?;
    let second = column(key(1, 1, 0), 2, 1, 700).ok_or("no column")?;
    let other = column(key(1, 0, 0), 2, 1, 1600).ok_or("no column")?;
    let wide = column(key(1, 2, 0), 2, 2, 1500).ok_or("no column")?;
    let one = upload(rt.alloc(), 0, &[first])?;
    let two = upload(rt.alloc(), 1, &[second])?;
    assert_eq!(rt; book.check(&one), Ok(1));
    book.reserve(&one)?;
    assert_eq!(rt; book.next_key(None), None);
    assert_eq!(rt; book.add(7, &one), 0);
    assert_eq!(rt; book.check(&two), Err(BookFault::Full { held: 1, more: 1 }));
    assert_eq!(rt; book.check(&one), Ok(0));
    assert_eq!(rt;
        book.check(&upload(rt.alloc(), 2, &[second, other])?),
        Err(BookFault::Conflict {
            key: key(1, 0, 0),
            kept: first,
            came: other
        })
    );
    assert_eq!(rt;
        book.check(&upload(rt.alloc(), 2, &[other, second, wide])?),
        Err(BookFault::WrongShape {
            kept: Dims { rows: 2, width: 1 },
            came: Dims { rows: 2, width: 2 }
        })
    );
    assert_eq!(rt; book.find(&key(1, 0, 0)), Some(first));
    assert_eq!(rt; book.find(&key(1, 1, 0)), None);
    assert_eq!(rt; (book.count(), book.records(), book.room()), (1, 1, 1));
    assert_eq!(rt;
        book.head(0),
        Head {
            pass: 7,
            host: 1,
            seq: 0,
            count: 1
        }
    );
    assert_eq!(rt; book.column_at(0, 0), first);
    assert_eq!(rt; (book.known(1, 0), book.known(1, 1)), (1, 0));
    assert_eq!(rt; (book.whole(1, 0), book.whole(1, 1)), (true, false));
    Ok(())
}

// Stores columns one by one in this order, and walks them in that of their keys.
fn walk(alloc: Global, width: u16, stored: &[Key], sorted: &[Key]) -> Result<(), Fail> {
    let shape = Shape::new(2, width, Hash::Ports).ok_or("no shape")?;
    let mut book = Book::new(alloc, &shape, 100)?;
    for at in stored {
        let one = column(*at, 2, width, 9).ok_or("no column")?;
        put(&mut book, &upload(alloc, 0, &[one])?)?
            .ok()
            .ok_or("refused")?;
    }
    // A reserved block that holds nothing is passed over.
    let none = column(key(1, 1, 0), 2, width, 1).ok_or("no column")?;
    book.reserve(&upload(alloc, 9, &[none])?)?;
    let mut at = book.next_key(None);
    for want in sorted {
        if at != Some(*want) {
            return Err("not the next key".into());
        }
        at = book.next_key(at.as_ref());
    }
    if at.is_some() {
        return Err("a key after the last".into());
    }
    Ok(())
}

#[test]
fn walks_in_order(rt: HostRuntime) -> Result<(), Fail> {
    let two = [key(1, 0, 0), key(1, 0, 1)];
    walk(rt.alloc(), 2, &[two[1], two[0]], &two)?;
    let seven = [
        key(1, 0, 0),
        key(1, 0, 1),
        key(1, 0, 15),
        key(1, 0, 16),
        key(1, 0, 39),
        key(1, 2, 3),
        key(4, 0, 17),
    ];
    let mixed = [
        seven[3], seven[6], seven[0], seven[5], seven[1], seven[4], seven[2],
    ];
    walk(rt.alloc(), 40, &mixed, &seven)
}

#[test]
fn fills_a_large_book(rt: HostRuntime) -> Result<(), Fail> {
    let shape = Shape::new(1, 4096, Hash::Ports).ok_or("no shape")?;
    let mut book = Book::new(rt.alloc(), &shape, ROOM)?;
    for u in 0..16385u32 {
        let mut list = Vec::new(rt.alloc());
        for k in 0..16 {
            let at = key((u / 256) as u16, 0, (16 * (u % 256) + k) as u16);
            list.push(column(at, 1, 4096, u).ok_or("no column")?)?;
        }
        let Ok(it) = Upload::new(1, u, list) else {
            return Err("no upload".into());
        };
        let want = if u < 16384 {
            Ok(65535)
        } else {
            Err(BookFault::Full {
                held: 262144,
                more: 16,
            })
        };
        assert_eq!(rt; put(&mut book, &it)?, want, "upload {u}");
    }
    assert_eq!(rt; book.known(63, 0), 4096);
    Ok(())
}

// What a plain list of kept columns says of an upload: the mask of the new ones, or the first fault.
fn plain(kept: &[Column], room: u32, size: Dims, columns: &[Column]) -> Result<u16, BookFault> {
    for came in columns {
        if came.dims() != size {
            return Err(BookFault::WrongShape {
                kept: size,
                came: came.dims(),
            });
        }
    }
    for came in columns {
        for old in kept {
            if old.key() == came.key() && old != came {
                return Err(BookFault::Conflict {
                    key: came.key(),
                    kept: *old,
                    came: *came,
                });
            }
        }
    }
    let (mut mask, mut more, mut bit) = (0u16, 0u32, 1u16);
    for came in columns {
        if !holds(kept, &came.key()) {
            mask |= bit;
            more = more.wrapping_add(1);
        }
        bit = bit.wrapping_mul(2);
    }
    let mut held = 0u32;
    for _ in kept {
        held = held.wrapping_add(1);
    }
    if held.wrapping_add(more) > room {
        return Err(BookFault::Full { held, more });
    }
    Ok(mask)
}

fn random(state: &mut u32) -> u32 {
    *state = state.wrapping_mul(1_664_525).wrapping_add(1_013_904_223);
    *state >> 16
}

// Up to 16 neighbouring columns of one of four sketches. One in a hundred has other counters or another size.
fn draw(alloc: Global, state: &mut u32) -> Result<Vec<Column>, Fail> {
    let mut columns = Vec::new(alloc);
    let (switch, epoch) = ((random(state) % 2) as u16, random(state) % 2);
    let first = random(state) % 40;
    for n in 0..random(state) % 16 + 1 {
        let at = key(switch, epoch, ((first + n) % 40) as u16);
        let odd = random(state) % 100;
        let rows = if odd == 0 { 3 } else { 2 };
        let bytes = if odd == 1 { 7 } else { 5 };
        columns.push(column(at, rows, 40, bytes).ok_or("no column")?)?;
    }
    Ok(columns)
}

#[test]
fn agrees_with_a_plain_list(rt: HostRuntime) -> Result<(), Fail> {
    let size = Dims { rows: 2, width: 40 };
    let shape = Shape::new(2, 40, Hash::Ports).ok_or("no shape")?;
    let mut book = Book::new(rt.alloc(), &shape, 130)?;
    let mut kept: Vec<Column> = Vec::new(rt.alloc());
    let mut state = 1;
    let mut full = false;
    for seq in 0..300u32 {
        let columns = draw(rt.alloc(), &mut state)?;
        let want = plain(&kept, 130, size, &columns);
        assert_eq!(rt;
            put(&mut book, &upload(rt.alloc(), seq, &columns)?)?,
            want,
            "upload {seq}"
        );
        full = full || matches!(want, Err(BookFault::Full { .. }));
        if want.is_ok() {
            for came in &columns {
                if !holds(&kept, &came.key()) {
                    kept.push(*came)?;
                }
            }
        }
        assert_eq!(rt; book.count() as usize, kept.len(), "after upload {seq}");
    }
    assert_eq!(rt; full, true);
    for one in &kept {
        assert_eq!(rt; book.find(&one.key()), Some(*one));
    }
    Ok(())
}
